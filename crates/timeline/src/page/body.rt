//! A part of the page, which tools/page writes from page/page.html.

/// The text of this part.
pub(crate) const TEXT: &str = r##"</style>
</head>
<body>
<header>
<h1 id="name">uringwalk timeline</h1>
<p id="about" class="faint"></p>
<div id="controls">
<form id="go"><label>Moment <input id="moment" type="number" inputmode="numeric"></label> <button>Go</button></form>
<form id="seek" role="search"><label>Find <input id="search" type="search" placeholder="row 12, ud 7, READ, ECANCELED, sq.tail" size="26"></label> <button>Next</button> <output id="found" class="faint"></output></form>
<label>Lanes of <select id="thread"><option value="">all threads</option></select></label>
<label><input id="folds" type="checkbox" checked> fold lanes with nothing in view</label>
<span><button type="button" id="less" aria-label="zoom out">&minus;</button> <button type="button" id="more" aria-label="zoom in">+</button> <button type="button" id="fit">Whole run</button></span>
<button type="button" id="raw" aria-pressed="false">Raw bytes</button>
<details id="key"><summary>Key</summary><div id="legend"></div>
<p class="faint"><kbd>&larr;</kbd> <kbd>&rarr;</kbd> event (<kbd>Shift</kbd>: 10), <kbd>&uarr;</kbd> <kbd>&darr;</kbd> lane, <kbd>p</kbd> <kbd>n</kbd> event of the lane, <kbd>f</kbd> <kbd>F</kbd> finding, <kbd>/</kbd> find, <kbd>]</kbd> <kbd>[</kbd> what was found, <kbd>Home</kbd> <kbd>End</kbd>, <kbd>+</kbd> <kbd>&minus;</kbd> <kbd>0</kbd> zoom, <kbd>r</kbd> raw and more bytes, <kbd>?</kbd> this key, <kbd>Esc</kbd> back to the picture. While the state has the focus (<kbd>Tab</kbd>), arrows scroll it. The wheel zooms, and over the labels it scrolls; dragging moves the picture.</p></details>
</div>
<svg id="overview" role="img" aria-label="The whole run, with its findings"></svg>
</header>
<main id="view" tabindex="0" role="application" aria-label="Timeline of the run" aria-describedby="about"><div id="room"><svg id="picture" role="img" aria-label="Lanes of the run"></svg></div></main>
<aside aria-label="Findings and state"><noscript>A script in this file draws the timeline: allow it to run. It needs no network.</noscript>
<nav id="findings" aria-label="Findings"></nav>
<div id="state" tabindex="0" aria-live="polite" aria-label="State at the moment"></div></aside>
<script type="application/json" id="run">
"##;
