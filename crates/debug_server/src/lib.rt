//! Debugger sessions: they read lines of commands and write a reply to each.
#![tactic(auto)]

mod answering;
mod faults;
pub mod laws;
mod lines;
mod memory;
mod replaying;
mod running;
mod scripts;
mod serving;
mod session;
mod source;
mod stops;
mod syncing;
mod texts;
mod tracing;
mod visitor;
mod walking;

pub use command_line::{Exploration, Form, Job, KINDS, ReportForm, job};
pub use faults::{Fault, PathText, RunFault, ServeFault};
pub use memory::replies;
pub use replaying::replay;
pub use scripts::script_of;
pub use serving::serve;
pub use session::Session;
pub use source::{NoSource, Source};
pub use texts::fault_text;
pub use tracing::{Traced, migrate_trace, trace_eager, trace_script};
pub use walking::{walk, walk_events};
