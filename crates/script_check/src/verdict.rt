//! The verdict of `check` on a script.

use machine::Refusal;
use script::ScriptFault;

/// The verdict on a script.
#[derive(Clone, Copy)]
pub enum Verdict {
    /// The script is valid, and every event of its schedule is accepted.
    Fine,
    /// The script is valid. It has threads, and its schedule is empty.
    Unscheduled,
    /// The script is invalid, with this first fault.
    Faulty(ScriptFault),
    /// The script is valid. The event at this index is the first that is refused, for this reason.
    Refused(u32, Refusal),
}
