//! Draws the run of a script or a trace.
ghost use Rattle.std.specs.Prelude.{◌≡◌, ◌≤◌, None, length, nat_eq, IfOk, IfErr};
ghost use Rattle.timeline.specs.{Common.ends_with, Common.setup_refusal, Pictures.Draws, Pictures.DrawsRun, Pictures.IsUndrawn, Pictures.Stops, Pictures.is_long, Pictures.picture_of};

use crate::drawn::Drawn;
use crate::observing::observe;
use crate::writing::{page_bytes, trace_bytes};
use machine::{Event, Setup};
use run_log::EventRange;
use runs::{ReportFault, read_run};
use std::alloc::{AllocError, Global};

/// The most events of a run that is drawn without both ends of a window.
const MOST_EVENTS: usize = 5000;

/// The format of a picture.
#[derive(Clone, Copy)]
pub enum Picture {
    /// A page that a browser shows.
    Page,
    /// Trace events, which Perfetto and chrome://tracing show.
    TraceEvents,
}

/// The range of events that are drawn, counted from 0. The event `to` isn't drawn.
#[derive(Clone, Copy)]
pub struct Window {
    pub from: Option<u32>,
    pub to: Option<u32>,
}

/// The result of drawing a run.
#[derive(Drop)]
pub enum Drawing {
    /// The bytes of the picture.
    Bytes(Vec<u8>),
    /// The run has this number of events, too many to be drawn without both ends of the window.
    TooLong(u32),
}

// Returns whether a path ends with a text.
fn ends_in(path: &str, text: &str) -> bool
    ensures { result ≡ ends_with nat_eq path.now text.now }
{
    path.as_bytes().ends_with(text.as_bytes())
}

/// Returns the format of a file by its name: a page if it ends in .html, trace events if it ends in
/// .json.
pub fn picture_of(path: &str) -> Option<Picture>
    ensures { result ≡ picture_of path.now }
{
    if ends_in(path, ".html") {
        return Some(Picture::Page);
    }
    if ends_in(path, ".json") {
        return Some(Picture::TraceEvents);
    }
    None
}

// Returns whether a number of events is too large to be drawn without both ends.
fn is_long(count: usize, window: Window) -> bool
    ensures { result ≡ is_long count window }
{
    count > MOST_EVENTS && (window.from.is_none() || window.to.is_none())
}

// Returns the events of a window, without those past the end of a run of `count` events.
fn range_of(count: u32, window: Window) -> EventRange {
    let to = window.to.unwrap_or(count).min(count);
    EventRange {
        from: window.from.unwrap_or(0).min(to),
        to: Some(to),
    }
}

fn bytes_of(alloc: Global, picture: Picture, drawn: Drawn<'_>) -> Result<Vec<u8>, AllocError> {
    match picture {
        Picture::Page => page_bytes(alloc, drawn),
        Picture::TraceEvents => trace_bytes(alloc, drawn),
    }
}

// Steps events from the start of a setup, and draws those in the window.
fn draw_events(
    alloc: Global,
    name: &str,
    setup: &Setup,
    events: &[Event],
    window: Window,
    picture: Picture,
) -> Result<Drawing, ReportFault>
    requires starts { setup_refusal setup.now ≡ None }
    requires most { length events.now ≤ 1048576 }
    ensures ok { IfOk result (Draws setup.now events.now window) }
    ensures err { IfErr result (Stops setup.now events.now) }
{
    let count = events.len();
    if is_long(count, window) {
        return Ok(Drawing::TooLong(count as u32));
    }
    let range = range_of(count as u32, window);
    let seen = observe(alloc, setup, events, range)?;
    let drawn = Drawn {
        name,
        setup,
        range,
        seen: &seen,
    };
    Ok(Drawing::Bytes(bytes_of(alloc, picture, drawn)?))
}

/// Draws the run of a trace if the first byte is `U`, otherwise the run of a script. The picture
/// names the run by `name`.
pub fn draw_run(
    alloc: Global,
    name: &str,
    bytes: &[u8],
    window: Window,
    picture: Picture,
) -> Result<Drawing, ReportFault>
    ensures ok { IfOk result (DrawsRun bytes.now window) }
    ensures err { IfErr result (IsUndrawn bytes.now) }
{
    let run = read_run(alloc, bytes)?;
    draw_events(alloc, name, run.setup(), run.events(), window, picture)
}
