//! Readers of single keys and items, for a caller that reports all faults of a script.

pub use crate::descriptor::read_descriptor;
pub use crate::event::read_event;
pub use crate::instruction::read_instruction;
pub use crate::keys::{
    is_entry_key, is_object_key, is_script_key, item_path, items_at, items_of, key_path,
    script_object,
};
pub use crate::memory::{make_zeros, write_piece};
pub use crate::names::NamedObjects;
pub use crate::object::with_object;
pub use crate::reading::{read_base, read_cq, read_entries, read_flag};
