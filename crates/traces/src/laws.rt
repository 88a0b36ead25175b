//! Laws of traces.
ghost use Rattle.std.specs.Prelude.{◌≡◌, ◌≤◌, ◌++◌, ℕ, List, None, length, IsTrue, IfOk, IfErr};
ghost use Rattle.std.proofs.Math.ListN.{replicate};
ghost use Rattle.std.specs.List.{list_all};
ghost use Rattle.scenario.specs.declared.event.Event.{Event};
ghost use Rattle.scenario.specs.declared.setup.Setup.{Setup};
ghost use Rattle.scenario.specs.Names.{submission_size, completion_size};
ghost use Rattle.scenario.specs.Setups.{setup_refusal};
ghost use Rattle.traces.specs.declared.fault.TraceFault.{TraceFault};
ghost use Rattle.traces.specs.Faults.{IsFault};
ghost use Rattle.traces.specs.Reading.{IsFault2};
ghost use Rattle.traces.specs.Setups.{canonical, IsTrace2};
ghost use Rattle.traces.specs.Spelling.{most_events, has_transfer, IsTrace};

use crate::fault::TraceFault;
use crate::reading::read_trace;
use crate::second::{read_trace2, write_trace2};
use crate::writing::write_trace;
use scenario::{Event, Setup};
use std::alloc::Global;

/// Bytes are a trace of one list of events.
pub fn one_list_of_a_trace()
    ensures { (d e : List Event) (bytes : List ℕ) → IsTrace d bytes → IsTrace e bytes → d ≡ e }
{}

/// Bytes are a trace of the second form of one setup and one list of events.
pub fn one_setup_and_events_of_a_trace()
    ensures { (a b : Setup) (d e : List Event) (bytes : List ℕ) → IsTrace2 a d bytes
        → IsTrace2 b e bytes → (a ≡ b) × (d ≡ e) }
{}

/// Bytes that are no trace have one first fault, in either form.
pub fn one_fault_of_bytes()
    ensures first { (bytes : List ℕ) (one other : TraceFault) → IsFault bytes one
        → IsFault bytes other → one ≡ other }
    ensures second { (bytes : List ℕ) (one other : TraceFault) → IsFault2 bytes one
        → IsFault2 bytes other → one ≡ other }
{}

/// A trace has none, in either form.
pub fn no_fault_of_a_trace()
    ensures first { (events : List Event) (bytes : List ℕ) (fault : TraceFault)
        → IsTrace events bytes → ¬ (IsFault bytes fault) }
    ensures second { (setup : Setup) (events : List Event) (bytes : List ℕ) (fault : TraceFault)
        → IsTrace2 setup events bytes → ¬ (IsFault2 bytes fault) }
{}

/// What is wrong with a trace of the first form, read as one of the second, is how it begins, and
/// nothing else.
pub fn first_form_is_not_second()
    ensures wrong { (events : List Event) (bytes : List ℕ) → IsTrace events bytes
        → IsFault2 bytes TraceFault.Magic }
    ensures only { (events : List Event) (bytes : List ℕ) (fault : TraceFault)
        → IsTrace events bytes → IsFault2 bytes fault → fault ≡ TraceFault.Magic }
{}

/// And the other way round.
pub fn second_form_is_not_first()
    ensures wrong { (setup : Setup) (events : List Event) (bytes : List ℕ)
        → IsTrace2 setup events bytes → IsFault bytes TraceFault.Magic }
    ensures only { (setup : Setup) (events : List Event) (bytes : List ℕ) (fault : TraceFault)
        → IsTrace2 setup events bytes → IsFault bytes fault → fault ≡ TraceFault.Magic }
{}

/// A run can start from the setup that a trace of the second form has. Its rings have the same
/// sizes, and its memory lacks only zeros at its end.
pub fn spelled_setups_start()
    ensures starts { (s : Setup) → setup_refusal s ≡ None → setup_refusal (canonical s) ≡ None }
    ensures sizes { (s : Setup) → setup_refusal s ≡ None
        → (submission_size (canonical s) ≡ submission_size s)
        × (completion_size (canonical s) ≡ completion_size s) }
    ensures memory { (s : Setup) → (count : ℕ)
        × (s.memory ≡ (canonical s).memory ++ replicate count 0) }
{}

/// Events that are written are read again, unless memory runs out.
pub fn events_again(alloc: Global, events: &[Event]) -> Result<Vec<Event>, TraceFault>
    requires few { length events.now ≤ most_events }
    requires transfers { IsTrue (list_all has_transfer events.now) }
    ensures same { IfOk result (λ again. again.items ≡ events.now) }
    ensures memory { IfErr result (λ fault. fault ≡ TraceFault.Memory) }
{
    let bytes = write_trace(alloc, events)?;
    read_trace(alloc, &bytes)
}

/// A setup and events that are written are read again, the setup with rounded sizes and trimmed
/// memory, unless memory runs out.
pub fn setup_and_events_again(
    alloc: Global,
    setup: &Setup,
    events: &[Event],
) -> Result<(Setup, Vec<Event>), TraceFault>
    requires starts { setup_refusal setup.now ≡ None }
    requires few { length events.now ≤ most_events }
    requires transfers { IsTrue (list_all has_transfer events.now) }
    ensures setup { IfOk result (λ again. again.0 ≡ canonical setup.now) }
    ensures events { IfOk result (λ again. again.1.items ≡ events.now) }
    ensures memory { IfErr result (λ fault. fault ≡ TraceFault.Memory) }
{
    let bytes = write_trace2(alloc, setup, events)?;
    read_trace2(alloc, &bytes)
}
