//! The command language of the debugger: parses a line to a command, or to a fault.
#![tactic(auto)]

mod breaks;
mod command;
mod values;
mod verb;
mod words;

pub use command::{Command, CommandFault, LIMIT, parse_line};
pub use verb::Verb;
