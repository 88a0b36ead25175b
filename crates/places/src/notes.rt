//! Notes: places with their old values. Each kind of place has a compact form, and a
//! place has at most one note.

pub mod byte_changes;
pub mod clearing;
pub mod completions;
pub mod kept;
pub mod leaving;
pub mod marks;
pub mod more;
pub mod numbers;
pub mod odd;
pub mod rest;
pub mod room;
pub mod rows;
pub mod runs;
pub mod slots;
pub mod wide;
