//! What a debug adapter sends for a message of the editor: responses, refusals and events of the
//! Debug Adapter Protocol, as frames.
#![tactic(auto)]

mod answer;
mod outbox;
mod refusal;

pub use answer::{Answer, Asked, Events, Reply, Response};
pub use outbox::Outbox;
pub use refusal::{Reason, Refusal};
