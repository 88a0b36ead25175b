//! Serves debugger clients of one live run; each client has its own session and position.
#![tactic(auto)]

mod permits;
mod running;
mod serving;
mod source;

pub use permits::{Permit, Permits};
pub use running::serve_live;
pub use serving::serve_clients;
pub use source::LiveSource;
