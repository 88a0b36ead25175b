//! Recording the history that the sentences of findings need.

use crate::record::Added;
use entries::Phase;
use finding_kinds::{
    Closed, History, Met, Reaped, Times, descriptor_number, instruction_at, number_at,
};
use finding_rules::{Transition, row_at};
use links_drains::{is_guard, is_issued};
use machine::{Event, Instruction, State};
use opcodes::Choice;
use places::{Place, Value};

/// Records sq.dropped after the event at a moment, if it has changed.
pub(crate) fn note_dropped(dropped: &mut Vec<(u32, u32)>, moment: u32, now: u32) -> Added {
    if now != dropped.last().map_or(0, |(_, count)| *count) {
        dropped.push((moment, now))?;
    }
    Ok(())
}

fn note_phase(times: &mut Times, moment: u32, phase: Phase) {
    match phase {
        Phase::Queued => {}
        Phase::Issued => times.issued = Some(moment),
        Phase::Ended(_) => times.ended = Some(moment),
    }
}

/// Records the phase of a request after the event at a moment, adding the request if it is new.
pub(crate) fn note_row(times: &mut Vec<Times>, moment: u32, number: u32, phase: Phase) -> Added {
    for _row in times.len()..number as usize + 1 {
        times.push(Times {
            queued: moment,
            issued: None,
            ended: None,
            ready: None,
        })?;
    }
    if let Some(row) = times.get_mut(number as usize) {
        note_phase(row, moment, phase);
    }
    Ok(())
}

/// Records the program counter of the thread that did an event, or None.
pub(crate) fn note_counter(counters: &mut Vec<Option<u32>>, counter: Option<u64>) -> Added {
    let place = counter.and_then(|counter| u32::try_from(counter).ok());
    counters.push(place)?;
    Ok(())
}

/// Records a moment if the backlog has become empty at it.
pub(crate) fn note_emptied(emptied: &mut Vec<u32>, moment: u32, is_emptied: bool) -> Added {
    if is_emptied {
        emptied.push(moment)?;
    }
    Ok(())
}

/// Records the slot whose entry names a descriptor that the event closed, if there is one.
pub(crate) fn note_slot(slots: &mut Vec<Met>, moment: u32, slot: Option<u32>) -> Added {
    if let Some(slot) = slot {
        slots.push(Met { moment, slot })?;
    }
    Ok(())
}

// Records the moment of a put into a slot.
fn note_put(puts: &mut Vec<Vec<u32>>, state: &State, moment: u32, slot: u32) -> Added {
    if state.submissions().entry(slot).is_none() {
        return Ok(());
    }
    let alloc = *puts.allocator();
    for _slot in puts.len()..slot as usize + 1 {
        puts.push(Vec::new(alloc))?;
    }
    if let Some(moments) = puts.get_mut(slot as usize) {
        moments.push(moment)?;
    }
    Ok(())
}

// Records the completion that a thread has reaped.
fn note_reap(reaps: &mut Vec<Reaped>, state: &State, moment: u32, thread: u32) -> Added {
    if let Some(Value::Reaped(Some(completion))) = state.value(Place::Got(thread)) {
        reaps.push(Reaped {
            moment,
            thread,
            user_data: completion.user_data,
        })?;
    }
    Ok(())
}

// Records the first close of a descriptor of the setup.
fn note_close(closes: &mut Vec<Closed>, state: &State, moment: u32, fd: i32) -> Added {
    let Some(descriptor) = descriptor_number(fd) else {
        return Ok(());
    };
    if state.value(Place::OpenMark(descriptor)).is_some()
        && !closes.iter().any(|closed| closed.descriptor == descriptor)
    {
        closes.push(Closed { moment, descriptor })?;
    }
    Ok(())
}

// Records what the step of a thread put, reaped or closed.
fn note_step(at: Transition<'_>, history: &mut History) -> Added {
    let Event::Step(thread) = at.event else {
        return Ok(());
    };
    match instruction_at(at.setup, at.event, at.before.counter) {
        Some(Instruction::Put(slot, _)) => note_put(&mut history.puts, at.state, at.moment, *slot),
        Some(Instruction::Reap) => note_reap(&mut history.reaps, at.state, at.moment, thread),
        Some(Instruction::Close(fd)) => note_close(&mut history.closes, at.state, at.moment, *fd),
        _ => Ok(()),
    }
}

// Returns the slot that a word of the submission ring names, by the word's free-running position.
fn slot_at(state: &State, position: u32) -> Option<u32> {
    let ring = state.submissions();
    let place = Place::Array(position & ring.size().wrapping_sub(1));
    let slot = u32::try_from(number_at(state, place)?).ok()?;
    ring.entry(slot).map(|_| slot)
}

// Records the slots of the entries that an event submitted. Words that name no slot are skipped.
fn note_origins(at: Transition<'_>, history: &mut History) -> Added {
    let base = at.setup.base;
    let consumed = at.state.submissions().head().wrapping_sub(base);
    for index in history.consumed..consumed {
        if let Some(slot) = slot_at(at.state, base.wrapping_add(index)) {
            history.origins.push(slot)?;
        }
    }
    history.consumed = consumed;
    Ok(())
}

// Returns whether an issued LINK_TIMEOUT limits the request.
fn is_limited(state: &State, number: u32) -> bool {
    let next = number.checked_add(1).and_then(|next| row_at(state, next));
    matches!(next, Some(row) if is_guard(&row) && is_issued(&row) && row.target == Some(number))
}

// Returns whether the event can have changed which issued requests could complete.
fn can_change_readiness(at: Transition<'_>) -> bool {
    match at.event {
        Event::Issue(_) | Event::Finish(_, _) | Event::Expire(_) => true,
        Event::Step(_) => matches!(
            instruction_at(at.setup, at.event, at.before.counter),
            Some(Instruction::Close(_) | Instruction::Store(_, _))
        ),
        Event::Take(_) | Event::Sleep | Event::Tick(_) => false,
    }
}

// Records since when each of these requests could complete in full.
fn note_ready(rows: &mut Vec<Times>, limited: &[u32], at: Transition<'_>) {
    for number in limited {
        let event = Event::Finish(*number, Choice::Full);
        let is_ready = at.state.refuses(event).is_none();
        if let Some(times) = rows.get_mut(*number as usize) {
            times.ready = times.ready.or(Some(at.moment)).filter(|_| is_ready);
        }
    }
}

// Records since when the requests that issued LINK_TIMEOUTs limit could complete.
fn note_limited(at: Transition<'_>, history: &mut History) -> Added {
    if let Event::Issue(number) = at.event {
        if is_limited(at.state, number) {
            history.limited.push(number)?;
        }
    }
    if !history.limited.is_empty() && can_change_readiness(at) {
        history.limited.retain(
            |number| matches!(row_at(at.state, *number), Some(row) if is_issued(&row)),
        );
        note_ready(&mut history.rows, &history.limited, at);
    }
    Ok(())
}

/// Records what an event put, reaped, closed and submitted, and which requests could complete after
/// it.
pub(crate) fn note_event(at: Transition<'_>, history: &mut History) -> Added {
    note_step(at, history)?;
    note_origins(at, history)?;
    note_limited(at, history)
}
