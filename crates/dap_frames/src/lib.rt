//! Frames of the Debug Adapter Protocol, as its "Base protocol" defines them: a header with the
//! length of a body, and the body. A header that is read has at most 1,024 bytes, and a body
//! 1,048,576. A body that is written has at most 16,777,216.
#![tactic(auto)]

mod decoder;
mod fault;
pub mod laws;
mod writing;

pub use decoder::Decoder;
pub use fault::{FrameFault, WriteFault};
pub use writing::frame_of;
