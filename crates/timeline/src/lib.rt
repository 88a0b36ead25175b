//! A run as a picture: a page for a browser, or trace events, which Perfetto and chrome://tracing
//! open.
#![tactic(auto)]

mod deeds;
mod drawing;
mod drawn;
mod marks;
mod observing;
mod page;
mod parts;
mod picture_parts;
mod row_parts;
mod steps;
mod trace_events;
mod writing;

pub use drawing::{Drawing, Picture, Window, draw_run, picture_of};
