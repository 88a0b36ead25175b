//! Traces: a binary format for the events of a run, alone or after the setup that the run starts
//! from.
//!
//! Numbers are little-endian, and each list of items is preceded by its length (u32).
//!
//! A trace of the first form begins with the eight bytes `URTRACE1`, and the list of events
//! follows. An event has 16 bytes: its kind (u8), three zeros, a u32 and a u64.
//!
//! | Kind | Event | u32 | u64 |
//! |---|---|---|---|
//! | 1 | `Step` | thread | 0 |
//! | 2 | `Take` | entries | 0 |
//! | 3 | `Sleep` | 0 | 0 |
//! | 4 | `Issue` | row | 0 |
//! | 5 | `Finish` | row | 0 for `Full`, the bytes of a `Short`, 2^32 for `Eio` |
//! | 6 | `Expire` | row | 0 |
//! | 7 | `Tick` | 0 | nanoseconds |
//!
//! A trace of the second form begins with `URTRACE2`. A setup follows, and then the list of events
//! as in the first form. The fields of the setup are, in this order:
//!
//! | Field | Type |
//! |---|---|
//! | submission entries, rounded up to a power of two | u16 |
//! | completion entries, rounded up | u16 |
//! | options: bit 0 IORING_SETUP_SQPOLL, bit 1 IORING_SETUP_SUBMIT_ALL | u8 |
//! | the initial value of the heads and tails of both rings | u32 |
//! | memory from address 0 on, without zeros at the end | list of bytes |
//! | objects: length of the name (u8), name, contents | list |
//! | descriptors: number of the object (u8), end (u8) | list |
//! | threads | list of lists of instructions |
//!
//! Contents begin with a kind (u8): 1 is a file (list of bytes), 2 a pipe (capacity, u32), and 3 an
//! eventfd (counter, u64). An end is 0 for the whole object, 1 for the read end, and 2 for the
//! write end.
//!
//! An instruction begins with a kind (u8): 1 `Put` (slot u32, 64 bytes), 2 `Push` (u32), 3 `Store`
//! (address u32, list of bytes), 4 `Enter` (three u32), 5 `Reap`, 6 `Close` (i32).
#![tactic(auto)]

mod event;
mod fault;
mod fields;
pub mod laws;
mod objects;
mod offsets;
mod programs;
mod reading;
mod second;
mod setup_writing;
mod setups;
mod writing;

pub use fault::TraceFault;
pub use reading::read_trace;
pub use second::{migrate, read_trace2, write_trace2};
pub use writing::write_trace;
