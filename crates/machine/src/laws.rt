//! Theorems about the definitions in specs/.
ghost use Rattle.std.specs.Prelude.{◌≡◌, ◌<◌, ℕ, pos, true, false, is_some, Some, None, List, [], slice_get};
ghost use Rattle.entries.specs.declared.row.Row.{Row};
ghost use Rattle.links_drains.specs.Endings.{Ending};
ghost use Rattle.links_drains.specs.Phases.{is_issued, is_unfinished};
ghost use Rattle.opcodes.specs.Opcodes.{is_timer};
ghost use Rattle.places.specs.declared.place.Place.{Place};
ghost use Rattle.machine.specs.Whole.{view, OneSetup, WellFormed};
ghost use Rattle.timeouts_cancel.specs.Cascades.{fall_of, IsWhole};
ghost use Rattle.machine.specs.Refusals.{has_cause, number_of};
ghost use Rattle.machine.specs.Steps.{refusal, after, answered, before_submission, deadline_of, executed, cascaded, taken};
ghost use Rattle.machine.specs.declared.whole.Machine.{Machine};
ghost use Rattle.scenario.specs.declared.event.Event.{Event};
ghost use Rattle.scenario.specs.declared.event.Event.TheVariants.{Take};
ghost use Rattle.scenario.specs.declared.setup.Instruction.TheVariants.{Enter};
ghost use Rattle.scenario.specs.declared.event.Refusal.{Refusal};

use crate::state::{Snapshot, State};
use scenario::Refusal;

/// Two machines with the same setup and the same values in all places are equal.
pub fn shown_alike()
    ensures { (m n : Machine) → OneSetup m n → ((p : Place) → view m p ≡ view n p) → m ≡ n }
{}

/// Accepted events preserve well-formedness.
pub fn stays_formed()
    ensures { (m : Machine) (e : Event) → WellFormed m → refusal m e ≡ None
        → WellFormed (after m e) }
{}

/// The cascade of any direct completions is complete: to apply its rules again adds no request.
pub fn cascades_whole()
    ensures { (m : Machine) (direct : List Ending) → WellFormed m
        → IsWhole m.table m.counted direct (fall_of m.table m.counted direct) }
{}

/// The same after the entries of a submission became requests.
pub fn submissions_cascade_whole()
    ensures { (m : Machine) (k : ℕ) (direct : List Ending) → WellFormed m
        → IsWhole (taken m k).table m.counted direct (fall_of (taken m k).table m.counted direct) }
{}

/// A submission begins with a well-formed machine, after overflowed completions moved into the
/// ring.
pub fn submissions_find_formed()
    ensures { (m : Machine) (k flags : ℕ) → WellFormed m
        → WellFormed (before_submission m k flags) }
{}

/// An unfinished request gets a deadline when it is issued exactly if it is a TIMEOUT or a
/// LINK_TIMEOUT. An issued request has a deadline exactly if it is one of these.
pub fn timers_alone_have_deadlines()
    ensures noted { (m : Machine) (r : ℕ) (row : Row) → WellFormed m
        → slice_get m.table r ≡ Some row → is_unfinished row.phase ≡ true
        → is_some (deadline_of m.clock row) ≡ is_timer row.entry.opcode }
    ensures kept { (m : Machine) (r : ℕ) (row : Row) → WellFormed m → slice_get m.table r ≡ Some row
        → is_issued row.phase ≡ true → is_some row.deadline ≡ is_timer row.entry.opcode }
{}

/// A submission of nothing completes nothing. A Take of no entries changes no place. An Enter that
/// submits nothing and has no flags returns 0, with or without a poller.
pub fn nothing_cascades_alone()
    ensures cascades { (m : Machine) → WellFormed m → cascaded m [] ≡ m }
    ensures take { (m : Machine) → WellFormed m → after m (Take 0) ≡ m }
    ensures enter { (m : Machine) (t min_complete : ℕ) → WellFormed m
        → executed m t (Some (Enter 0 min_complete 0)) ≡ answered m t (pos 0) }
{}

/// Returns the number of a refusal, which is that of its variant.
pub fn number_of_refusal(refusal: Refusal) -> u32
    ensures { result ≡ number_of refusal }
{
    refusal as u32
}

/// If an event has several causes for a refusal, the one with the smallest number is reported.
pub fn least_cause_is_refusal()
    ensures has_its_cause { (m : Machine) (e : Event) (n : Refusal) → refusal m e ≡ Some n
        → has_cause m e n ≡ true }
    ensures least { (m : Machine) (e : Event) (n k : Refusal) → refusal m e ≡ Some n
        → number_of k < number_of n → has_cause m e k ≡ false }
{}

/// If none is reported, the event has none.
pub fn no_refusal_without_cause()
    ensures { (m : Machine) (e : Event) → refusal m e ≡ None → (n : Refusal)
        → has_cause m e n ≡ false }
{}

/// Returns its arguments. A state and its copies can be sent to another thread.
pub fn states_can_be_sent(state: State, copy: Snapshot) -> (State, Snapshot)
    ensures { result ≡ (state, copy) }
{
    (sent(state), sent(copy))
}

fn sent<T: Send>(value: T) -> T
    ensures { result ≡ value }
{
    value
}
