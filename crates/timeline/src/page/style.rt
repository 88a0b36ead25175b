//! A part of the page, which tools/page writes from page/style.css.

/// The text of this part.
pub(crate) const TEXT: &str = r##":root {
  color-scheme: light dark;
  --back: #ffffff; --ink: #1a1a1a; --faint: #595959; --line: #d8d8d8; --band: #f3f4f6; --pick: #1a1a1a;
  --good: #009e73; --short: #c98500; --bad: #a83200; --canceled: #c86a9d; --expired: #2e93d6; --open: #5f5f5f;
  --fill: #0072b2; --on_fill: #ffffff; --link: #595959; --mark: #ffe08a; --mark_ink: #1a1a1a;
}
@media (prefers-color-scheme: dark) {
  :root {
    --back: #141518; --ink: #ececec; --faint: #adadad; --line: #3b3d42; --band: #1d1f23; --pick: #ffffff;
    --short: #e69f00; --bad: #ff7a3d; --canceled: #cc79a7; --expired: #56b4e9; --open: #6a6a6a; --fill: #56b4e9; --on_fill: #0b0c0e; --link: #adadad; --mark: #6b5200; --mark_ink: #ffffff;
  }
}
* { box-sizing: border-box; }
html, body { height: 100%; margin: 0; }
body {
  display: grid; grid-template: auto minmax(0, 1fr) / minmax(0, 1fr) 29rem; background: var(--back);
  color: var(--ink); font: 14px/1.45 system-ui, sans-serif;
}
header { grid-column: 1 / -1; padding: .5rem .9rem 0; border-bottom: 1px solid var(--line); min-width: 0; }
h1 { font-size: 1.05rem; margin: 0; overflow-wrap: anywhere; }
h2 { font-size: 1rem; margin: 0 0 .3rem; }
h3 { font-size: .9rem; margin: 1rem 0 .2rem; }
p { margin: .2rem 0; overflow-wrap: anywhere; }
ul, ol { margin: 0; padding-left: 1.1rem; }
#controls { display: flex; flex-wrap: wrap; gap: .35rem .9rem; align-items: center; margin: .3rem 0; }
form { display: inline-flex; flex-wrap: wrap; gap: .3rem; align-items: center; }
input, button, select { font: inherit; color: inherit; background: var(--band); border: 1px solid var(--faint); border-radius: 4px; padding: .1rem .5rem; max-width: 100%; }
input[type=number] { width: 6rem; }
input[type=search] { width: 20rem; }
::placeholder { color: var(--faint); opacity: 1; }
button[aria-pressed=true] { background: var(--fill); color: var(--on_fill); }
#key { flex-basis: auto; }
#key[open] { flex-basis: 100%; max-height: 40vh; overflow: auto; }
#legend span { white-space: nowrap; margin-right: .8rem; }
#legend svg { vertical-align: -3px; margin-right: .3em; }
#overview { display: block; width: 100%; height: 40px; cursor: pointer; touch-action: none; }
main { position: relative; overflow: hidden auto; border: 2px solid transparent; }
main:focus-visible { border-color: var(--fill); outline: none; }
button:focus-visible, input:focus-visible, select:focus-visible, #state:focus-visible, summary:focus-visible { outline: 3px solid var(--fill); }
#picture { position: sticky; left: 0; top: 0; display: block; user-select: none; touch-action: none; cursor: grab; }
aside { display: flex; flex-direction: column; min-height: 0; min-width: 0; border-left: 1px solid var(--line); }
#findings { flex: 0 1 auto; max-height: 34%; overflow: auto; padding: .4rem .6rem; border-bottom: 1px solid var(--line); }
#findings ol { list-style: none; padding: 0; }
.finding { display: block; width: 100%; text-align: left; border: 0; border-left: 4px solid var(--faint); border-radius: 0; padding: .15rem .5rem; margin-bottom: .25rem; cursor: pointer; }
.finding .text { display: block; }
.finding[aria-current=true] { outline: 2px solid var(--fill); outline-offset: -2px; }
.finding:not([aria-current=true]) .text { overflow: hidden; display: -webkit-box; -webkit-line-clamp: 2; -webkit-box-orient: vertical; }
#state { flex: 1 1 0; overflow: auto; padding: .5rem .9rem 1.5rem; min-height: 0; }
.here { border-left: 4px solid var(--faint); padding-left: .5rem; }
.finding.is_fault, .here.is_fault { border-left-color: var(--bad); }
.rings { display: flex; flex-wrap: wrap; gap: .5rem; }
figure { margin: 0; }
figcaption { text-align: center; font-size: 12.5px; line-height: 1.3; }
table { border-collapse: collapse; width: 100%; font: 12.5px/1.4 ui-monospace, monospace; }
th, td { text-align: left; vertical-align: top; padding: .12rem .5rem .12rem 0; border-top: 1px solid var(--line); overflow-wrap: anywhere; }
td:first-child, th:first-child { white-space: nowrap; overflow-wrap: normal; }
th { font-weight: 600; color: var(--faint); }
code { font: 12.5px ui-monospace, monospace; overflow-wrap: anywhere; }
code.raw { display: block; color: var(--faint); }
button.row { padding: 0 .35rem; cursor: pointer; }
.dump { margin: .2rem 0; font: 11.5px/1.35 ui-monospace, monospace; overflow-x: auto; }
.dump mark { background: var(--mark); color: var(--mark_ink); font-weight: 700; }
kbd { border: 1px solid var(--faint); border-radius: 3px; padding: 0 .3em; font: 12px ui-monospace, monospace; }
.faint { color: var(--faint); }
@media (max-width: 60rem) {
  html, body { height: auto; }
  body { grid-template: auto 50vh auto / minmax(0, 1fr); }
  aside { border-left: 0; border-top: 1px solid var(--line); }
  #findings { max-height: 32vh; }
  #state { overflow: visible; }
}
svg text { fill: var(--ink); font: 12px system-ui, sans-serif; }
svg .small { font-size: 11px; fill: var(--faint); }
svg .count { font-size: 11px; font-weight: 700; }
svg .lane { stroke: var(--line); }
svg .band { fill: var(--band); }
svg .cover { fill: var(--back); }
svg .mark { fill: var(--ink); stroke: none; }
svg .hollow { fill: var(--back); stroke: var(--ink); stroke-width: 1.6; }
svg .found { fill: var(--fill); stroke: var(--fill); stroke-width: 2; }
svg .wait { fill: url(#hatch); stroke: var(--faint); }
svg .stripe { fill: var(--faint); fill-opacity: .55; }
svg .queued { fill: var(--back); stroke-width: 1.6; }
svg .graph { fill: var(--fill); fill-opacity: .3; stroke: var(--fill); stroke-width: 1.2; }
svg .link { fill: none; stroke: var(--link); stroke-width: 1.5; }
svg .hard { stroke-width: 3; }
svg .timeout { stroke-dasharray: 2 3; }
svg .cancel { stroke-dasharray: 6 3; }
svg .picked { fill: var(--pick); fill-opacity: .12; stroke: var(--pick); stroke-opacity: .6; }
svg .chosen { fill: none; stroke: var(--pick); stroke-width: 1.5; }
svg .fault { fill: var(--bad); stroke: var(--back); }
svg .note { fill: var(--back); stroke: var(--faint); stroke-width: 1.6; }
svg .window { fill: var(--pick); fill-opacity: .1; stroke: var(--pick); stroke-opacity: .7; }
svg .here { stroke: var(--pick); stroke-width: 1.5; }
svg .sector { fill: var(--band); stroke: var(--faint); }
svg .full { fill: var(--fill); stroke: var(--back); }
svg .on_full { fill: var(--on_fill); font-size: 11px; font-weight: 600; }
svg .pointer { stroke: var(--ink); stroke-width: 2; }
"##;
