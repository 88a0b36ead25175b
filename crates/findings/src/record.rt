//! Collecting the findings of one event, group by group of kinds.
ghost use Rattle.std.specs.Prelude.{◌≡◌, ◌≤◌, ◌++◌, drop, OnOk, flat_map, option_copied};
ghost use Rattle.findings.specs.{waiting, sub_list, instruction_at, overflows, given, noted, of_ended, of_queued, of_row, row_in, of_overflow, of_instruction, of_step, of_cancel, of_number, of_conflicts, of_index, of_timespecs, of_effect};

use entries::Row;
use finding_kinds::{
    CancelKind, ConflictKind, EndedKind, Finding, Kind, QueuedKind, StepKind, instruction_at,
};
use finding_rules::conflicts::conflicts;
use finding_rules::{
    Cancel, Completed, Effect, LOOKED_AT, Transition, ended_test, ends_notably, is_of_cancel,
    is_of_step, is_over_slot, is_plain, overflows, queued_test, row_at, written_by,
};
use machine::{Event, Instruction, State};
use places::Value;
use ring_words::SubRing;
use std::alloc::AllocError;

/// The end of a function that adds to a list: an allocation may fail.
pub(crate) type Added = Result<(), AllocError>;

// Appends a finding if the test is true.
pub(crate) fn add_if(
    found: &mut Vec<Finding>,
    test: bool,
    moment: u32,
    kind: Kind,
    subject: u32,
) -> Added
    ensures { OnOk result (found.new.items ≡ found.old.items
        ++ given test (record { moment = moment; kind = kind; subject = subject })) }
{
    if test {
        found.push(Finding {
            moment,
            kind,
            subject,
        })?;
    }
    Ok(())
}

// Adds the findings about the completion of a request.
fn add_of_ended(
    found: &mut Vec<Finding>,
    at: Transition<'_>,
    completed: &Completed,
    before: &Option<Row>,
    number: u32,
    row: &Row,
) -> Added
    ensures { OnOk result (found.new.items ≡ found.old.items ++ of_ended at.entry.moment
        (noted at.entry.setup.now completed.now.severing.items
        completed.now.canceled.items at.entry.before at.entry.event at.entry.state.now
        number row.now) before.now at.entry.state.now.table number row.now) }
{
    if !ends_notably(before, row) {
        return Ok(());
    }
    for kind in EndedKind::ALL {
        let test = ended_test(kind, at, completed, before, number, row);
        add_if(found, test, at.moment, Kind::Ended(kind), number)?;
    }
    Ok(())
}

// Adds the findings about the submission of a request.
fn add_of_queued(
    found: &mut Vec<Finding>,
    at: Transition<'_>,
    before: &Option<Row>,
    number: u32,
    row: &Row,
) -> Added
    ensures { OnOk result (found.new.items ≡ found.old.items ++ of_queued at.entry.moment
        before.now at.entry.state.now.table number row.now) }
{
    if before.is_some() {
        return Ok(());
    }
    for kind in QueuedKind::ALL {
        let test = queued_test(kind, before, at.state, number, row);
        add_if(found, test, at.moment, Kind::Queued(kind), number)?;
    }
    Ok(())
}

/// Adds the findings about a request.
pub(crate) fn add_of_row(
    found: &mut Vec<Finding>,
    at: Transition<'_>,
    completed: &Completed,
    before: &Option<Row>,
    number: u32,
    row: &Row,
) -> Added
    ensures { OnOk result (found.new.items ≡ found.old.items ++ of_row at.entry.moment
        (noted at.entry.setup.now completed.now.severing.items
        completed.now.canceled.items at.entry.before at.entry.event at.entry.state.now
        number row.now) before.now at.entry.state.now.table number row.now) }
{
    add_of_ended(found, at, completed, before, number, row)?;
    add_of_queued(found, at, before, number, row)
}

/// Returns the request that a value is, if it is one.
pub(crate) fn row_in(value: Option<Value>) -> Option<Row>
    ensures { result ≡ row_in value }
{
    match value {
        Some(Value::Requested(row)) => Some(row),
        _ => None,
    }
}

// Adds the findings about an instruction that a thread did.
fn add_of_instruction(
    found: &mut Vec<Finding>,
    at: Transition<'_>,
    instruction: &Instruction,
    thread: u32,
) -> Added
    ensures { OnOk result (found.new.items ≡ found.old.items ++ of_instruction at.entry.moment
        at.entry.before.changes instruction.now at.entry.state.now thread) }
{
    if is_plain(at.before.changes, instruction, at.state, thread) {
        return Ok(());
    }
    for kind in StepKind::ALL {
        let test = is_of_step(kind, at.before.changes, instruction, at.state, thread);
        add_if(found, test, at.moment, Kind::Step(kind), thread)?;
    }
    Ok(())
}

// Adds the findings about a step of a thread.
fn add_of_step(
    found: &mut Vec<Finding>,
    at: Transition<'_>,
    instruction: Option<&Instruction>,
) -> Added
    ensures { OnOk result (found.new.items ≡ found.old.items ++ of_step at.entry.moment
        at.entry.before.changes (option_copied instruction.entry) at.entry.event
        at.entry.state.now) }
{
    match (instruction, at.event) {
        (Some(instruction), Event::Step(thread)) => {
            add_of_instruction(found, at, instruction, thread)
        }
        _ => Ok(()),
    }
}

// Adds the findings about a completed cancel or removal.
fn add_of_cancel(
    found: &mut Vec<Finding>,
    moment: u32,
    cancel: Option<Cancel>,
    state: &State,
) -> Added
    ensures { OnOk result (found.new.items ≡
        found.old.items ++ of_cancel moment cancel state.now.table) }
{
    let Some(done) = cancel else {
        return Ok(());
    };
    for kind in CancelKind::ALL {
        let test = is_of_cancel(kind, &done, state);
        add_if(found, test, moment, Kind::Cancel(kind), done.number)?;
    }
    Ok(())
}

/// Adds the findings of an event about the rings, the threads, and a cancel or removal.
pub(crate) fn add_of_event(found: &mut Vec<Finding>, at: Transition<'_>) -> Added
    ensures { OnOk result (found.new.items ≡ found.old.items ++
        (of_overflow at.entry.moment at.entry.before.overflows (overflows at.entry.state.now)
        ++ (of_step at.entry.moment at.entry.before.changes
        (instruction_at at.entry.setup.now at.entry.event at.entry.before.counter)
        at.entry.event at.entry.state.now
        ++ of_cancel at.entry.moment at.entry.before.cancel at.entry.state.now.table))) }
{
    let spills = !at.before.overflows && overflows(at.state);
    add_if(found, spills, at.moment, Kind::Overflow, 0)?;
    let instruction = instruction_at(at.setup, at.event, at.before.counter);
    add_of_step(found, at, instruction)?;
    add_of_cancel(found, at.moment, at.before.cancel, at.state)
}

// Adds the conflicts with one READ or WRITE.
fn add_of_number(
    found: &mut Vec<Finding>,
    at: Transition<'_>,
    effect: &Effect,
    number: u32,
) -> Added
    ensures { OnOk result (found.new.items ≡ found.old.items ++ of_number at.entry.moment
        at.entry.setup.now at.entry.state.now effect.now number) }
{
    let Some(row) = row_at(at.state, number) else {
        return Ok(());
    };
    for kind in ConflictKind::ALL {
        let test = conflicts(kind, at, effect, number, &row);
        add_if(found, test, at.moment, Kind::Conflict(kind), number)?;
    }
    Ok(())
}

fn add_of_numbers(
    found: &mut Vec<Finding>,
    at: Transition<'_>,
    effect: &Effect,
    numbers: &[u32],
) -> Added
    ensures { OnOk result (found.new.items ≡ found.old.items
        ++ flat_map (of_number at.entry.moment at.entry.setup.now at.entry.state.now effect.now)
        numbers.now) }
{
    for number in numbers {
        add_of_number(found, at, effect, *number)?;
    }
    Ok(())
}

// Adds the conflicts of an event with the incomplete READs and WRITEs of these numbers.
fn add_of_conflicts(
    found: &mut Vec<Finding>,
    at: Transition<'_>,
    effect: &Effect,
    numbers: &[u32],
) -> Added
    ensures { OnOk result (found.new.items ≡ found.old.items ++ of_conflicts at.entry.moment
        at.entry.setup.now at.entry.state.now effect.now numbers.now) }
{
    match effect {
        Effect::Nothing => Ok(()),
        _ => add_of_numbers(found, at, effect, numbers),
    }
}

// Adds the findings about the waiting indexes, after skipping some.
fn add_of_indexes(
    found: &mut Vec<Finding>,
    moment: u32,
    ring: &SubRing,
    range: (u64, u64),
    passed: u32,
) -> Added
    requires { passed ≤ waiting ring.now.head ring.now.tail }
    ensures { OnOk result (found.new.items ≡ found.old.items
        ++ flat_map (of_index moment ring.now.slots range) (drop passed (sub_list ring.now))) }
{
    for place in 0..ring.waiting() - passed {
        let slot = ring.word(passed + place);
        let test = is_over_slot(ring, range, slot);
        add_if(found, test, moment, Kind::TimespecInUse, slot)?;
    }
    Ok(())
}

// Adds a finding for each entry, among the last 64 pushed and not yet taken, whose timespec the
// event overwrote.
fn add_of_timespecs(found: &mut Vec<Finding>, moment: u32, state: &State, effect: &Effect) -> Added
    ensures { OnOk result (found.new.items
        ≡ found.old.items ++ of_timespecs moment state.now effect.now) }
{
    let ring = state.submissions();
    let passed = ring.waiting().saturating_sub(LOOKED_AT);
    match effect {
        Effect::Nothing => Ok(()),
        _ => add_of_indexes(found, moment, ring, written_by(effect), passed),
    }
}

/// Adds the findings about the effect of an event: conflicts with the incomplete READs and WRITEs of
/// these numbers, and timespecs that it overwrote.
pub(crate) fn add_of_effect(
    found: &mut Vec<Finding>,
    at: Transition<'_>,
    effect: &Effect,
    numbers: &[u32],
) -> Added
    ensures { OnOk result (found.new.items ≡ found.old.items ++ of_effect at.entry.moment
        at.entry.setup.now at.entry.state.now effect.now numbers.now) }
{
    add_of_conflicts(found, at, effect, numbers)?;
    add_of_timespecs(found, at.moment, at.state, effect)
}
