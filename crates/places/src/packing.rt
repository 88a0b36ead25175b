//! The packed form of records: changes in one string of bytes.

pub mod changes;
pub mod packed;
pub mod short_bytes;
pub mod values;
