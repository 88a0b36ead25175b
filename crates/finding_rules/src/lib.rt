//! The rules by which an event, two requests or a state are a finding.
#![tactic(auto)]

mod canceling;
mod circumstances;
mod completed;
mod conditions;
pub mod conflicts;
mod effect;
mod ends;
mod files;
pub mod laws;
mod requests;
mod timespecs;
mod transition;
mod twins;
mod unsynced;
mod uses;
mod verdicts;
mod writes;

pub use canceling::{Cancel, is_of_cancel};
pub use completed::{Completed, Member};
pub use conditions::{
    Before, Condition, Next, condition_holds, is_idle, is_of_step, is_plain, next_of, overflows,
    slot_met,
};
pub use effect::{Effect, done_as};
pub use ends::{
    cancels, continues, depends_on_others, ended_test, ends_notably, is_severing, queued_test,
};
pub use requests::row_at;
pub use timespecs::{is_over_slot, written_by};
pub use transition::Transition;
pub use unsynced::{has_fsync, has_unsynced};
pub use uses::LOOKED_AT;
pub use verdicts::{fault_if, has_between, judged_kind};
pub use writes::{Fsync, Written, completed_by, fsync_of, written_of};
