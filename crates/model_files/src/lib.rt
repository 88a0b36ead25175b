//! A model of memory, files, pipes, eventfds and file descriptors, without a kernel (read(2),
//! write(2), fsync(2), pipe(7), eventfd(2)).
#![tactic(auto)]

pub mod body;
pub mod bytes;
pub mod descriptor;
mod differing;
mod ends;
pub mod file;
mod flow;
pub mod held;
pub mod laws;
mod pages;
pub mod pipe;
pub mod shared;
mod start;
pub mod stock;
mod transfer;
pub mod world;

pub use body::Body;
pub use descriptor::DescriptorState;
pub use file::RegularFile;
pub use held::Held;
pub use pipe::PipeBuffer;
pub use shared::SharedBody;
pub use stock::Stock;
pub use world::{SharedWorld, World};
