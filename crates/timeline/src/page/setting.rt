//! A part of the page, which tools/page writes from page/setting.js.

/// The text of this part.
pub(crate) const TEXT: &str = r##"'use strict';

// The data of the page, and the elements that the script fills.
const run = JSON.parse(document.getElementById('run').textContent);
const by_id = (id) => document.getElementById(id);
const main = by_id('view'), picture = by_id('picture'), room = by_id('room'), overview = by_id('overview');
"##;
