//! The kernel thread that polls the submission ring (io_uring_setup(2), IORING_SETUP_SQPOLL).
#![tactic(auto)]

mod noting;
pub mod poller;

pub use poller::Poller;
