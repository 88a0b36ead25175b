//! Where the items of a script are in its text: the instructions of its threads, the events of its
//! schedule. Each range is read, and has to be that item.
#![tactic(auto)]

mod certifying;
mod cursor;
mod locating;
mod map;
mod puts;
mod scanning;
mod span;
mod spelling;
mod walk;
mod words;

pub use cursor::Position;
pub use locating::source_map;
pub use map::{Item, SourceMap};
pub use scanning::{KeyValue, Spans, spans_of};
pub use span::Span;
