//! The backlog of completions that did not fit into the completion ring, and how completions are
//! posted and flushed without loss (io_uring_setup(2), IORING_FEAT_NODROP).
#![tactic(auto)]

pub mod backlog;
pub mod delivering;
pub mod laws;

pub use backlog::Backlog;
pub use delivering::{flush, post_all};
