//! Places, values and undo records. A place is a named location of the modelled state: a ring word,
//! a byte, a request. A recorder collects the old values while a step changes the state. It closes
//! them into a record that undoes the step.
#![tactic(auto)]

pub mod items;
pub mod listed;
pub mod notes;
pub mod object;
pub mod packing;
pub mod part;
pub mod place;
pub mod record;
pub mod recorder;
pub mod summary;
pub mod text;
pub mod value;

pub use items::Items;
pub use listed::Listed;
pub use notes::byte_changes::{Stretch, Stretches};
pub use notes::runs::Region;
pub use object::{Contents, Descriptor, End, Object};
pub use part::{At, Part};
pub use place::Place;
pub use record::{Changes, Record};
pub use recorder::Recorder;
pub use value::{Change, Stage, Value};
