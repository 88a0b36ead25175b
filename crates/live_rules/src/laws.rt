//! Proved facts about offers.
ghost use Rattle.std.specs.Prelude.{◌≡◌, ◌<◌, ℕ, true, false, not, ◌&&◌, Some, None, slice_get};
ghost use Rattle.std.specs.Option.{option_map_or};
ghost use Rattle.entries.specs.declared.row.Row.{Row};
ghost use Rattle.links_drains.specs.Eligible.{is_eligible};
ghost use Rattle.links_drains.specs.Phases.{is_issued};
ghost use Rattle.opcodes.specs.Opcodes.{is_timer};
ghost use Rattle.scenario.specs.declared.event.Event.{Event};
ghost use Rattle.scenario.specs.declared.setup.Setup.{Setup};
ghost use Rattle.timeouts_cancel.specs.Timers.{is_due};
ghost use Rattle.machine.specs.Steps.{refusal};
ghost use Rattle.machine.specs.Whole.{WellFormed};
ghost use Rattle.machine.specs.declared.whole.Machine.{Machine};
ghost use Rattle.live_rules.specs.Actors.{is_own};
ghost use Rattle.live_rules.specs.Offers.{least_row, least_deadline, may_do, offer, is_of_worker};
ghost use Rattle.live_rules.specs.Passing.{IsLeastDeadline};
ghost use Rattle.live_rules.specs.declared.offering.Action.{Action};
ghost use Rattle.live_rules.specs.declared.offering.Action.TheVariants.{Issuing, Finishing, Expiring};

/// The offered request is the first to which the action may be applied.
pub fn least_rows_offered()
    ensures { (m : Machine) (action : Action) (r : ℕ) → least_row m action ≡ Some r
        → (may_do m action r ≡ true) × ((k : ℕ) → k < r → may_do m action k ≡ false) }
{}

/// The requests that may be issued are the eligible ones.
pub fn eligible_rows_issued()
    ensures { (m : Machine) (r : ℕ) → may_do m Issuing r ≡ is_eligible m.table r }
{}

/// A request that may be finished is issued, and is neither a TIMEOUT nor a LINK_TIMEOUT.
pub fn issued_rows_finished()
    ensures { (m : Machine) (r : ℕ) → may_do m Finishing r ≡ true
        → option_map_or (λ (row : Row). is_issued row.phase && not (is_timer row.entry.opcode))
        (slice_get m.table r) false ≡ true }
{}

/// The requests that may expire are the issued TIMEOUTs and LINK_TIMEOUTs that are due.
pub fn due_rows_expired()
    ensures { (m : Machine) (r : ℕ)
        → may_do m Expiring r
        ≡ option_map_or
        (λ (row : Row). is_timer row.entry.opcode && (is_issued row.phase && is_due m.clock row))
        (slice_get m.table r) false }
{}

/// The least deadline is that of a request, and no request has an earlier one.
pub fn least_deadline_offered()
    ensures { (m : Machine) (d : ℕ) → least_deadline m ≡ Some d → IsLeastDeadline m.table d }
{}

/// The rules accept every event that a kernel worker is offered, so only an allocation failure
/// refuses it.
pub fn offers_accepted()
    ensures { (setup : Setup) (count : ℕ) (m : Machine) (actor : ℕ) (e : Event) → WellFormed m
        → offer setup count m actor ≡ Some e → is_of_worker e ≡ true → refusal m e ≡ None }
{}

/// An actor is offered only events that it may make.
pub fn offers_own()
    ensures { (setup : Setup) (count : ℕ) (m : Machine) (actor : ℕ) (e : Event)
        → offer setup count m actor ≡ Some e → is_own setup count actor e ≡ true }
{}
