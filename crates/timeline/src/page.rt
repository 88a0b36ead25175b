//! The text of a page around its data: HTML, style and script, which need no network. tools/page
//! writes it.

mod body;
mod end;
mod foot;
mod head;
mod lanes;
mod model;
mod navigation;
mod opening;
mod panel;
mod picture;
mod setting;
mod style;
mod waiting;

/// The page before the data.
pub(crate) const BEFORE: [&str; 3] = [head::TEXT, style::TEXT, body::TEXT];

/// The page after the data, up to the scripts that compute states.
pub(crate) const MODEL: [&str; 4] = [foot::TEXT, setting::TEXT, model::TEXT, waiting::TEXT];

/// The scripts that draw.
pub(crate) const PICTURE: [&str; 2] = [lanes::TEXT, picture::TEXT];

/// The scripts that react to a reader, and the page's end.
pub(crate) const ACTIONS: [&str; 4] = [panel::TEXT, navigation::TEXT, opening::TEXT, end::TEXT];
