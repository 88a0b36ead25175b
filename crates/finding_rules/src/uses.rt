//! Findings about puts and closes while an entry or request still uses the slot or descriptor.
ghost use Rattle.std.specs.Prelude.{◌≡◌, ◌≤◌, false, is_some, slice_get, drop, option_copied};
ghost use Rattle.finding_rules.specs.{option_map_or, list_any, waiting, sub_list, is_number, number_in, changes_slot, changes_at, names_descriptor, is_sought, is_pushed, is_pushed_last, is_user, is_named, is_held};

use crate::requests::row_at;
use entries::{Phase, Row, Sqe};
use finding_kinds::descriptor_number;
use links_drains::is_issued;
use machine::{Instruction, State};
use opcodes::uses_descriptor;
use places::value::is_same;
use places::{Place, Value};
use ring_words::SubRing;

/// How many of the last pushed indexes a put or a write to memory is compared with. The limit bounds
/// the cost of a step.
pub const LOOKED_AT: u32 = 64;

/// How a request uses a descriptor.
#[derive(Clone, Copy)]
pub enum Usage {
    /// It is queued and names it.
    Names,
    /// It is issued and holds it.
    Holds,
}

/// What to search for among the indexes that wait in the submission ring.
#[derive(Clone, Copy)]
pub enum Sought {
    /// This slot.
    Named(u32),
    /// A slot whose entry uses this descriptor.
    Naming(u32),
}

// ---- slots

// Returns whether the slot's entry differs from this one.
fn differs(state: &State, slot: u32, entry: Sqe) -> bool
    ensures { result ≡ changes_slot state.now (Instruction.Put slot entry) }
{
    !is_same(state.value(Place::Slot(slot)), Some(Value::Entry(entry)))
}

/// Returns whether the instruction is a put of an entry that differs from the slot's entry.
pub(crate) fn changes_at(state: &State, instruction: Option<&Instruction>) -> bool
    ensures { result ≡ changes_at state.now (option_copied instruction.entry) }
{
    matches!(instruction, Some(Instruction::Put(slot, entry)) if differs(state, *slot, *entry))
}

// ---- descriptors

/// Returns whether an optional number is this one.
pub(crate) fn is_number(number: Option<u32>, fd: u32) -> bool
    ensures { result ≡ is_number number fd }
{
    matches!(number, Some(other) if other == fd)
}

fn names_descriptor(fd: u32, entry: &Sqe) -> bool
    ensures { result ≡ names_descriptor fd entry.now }
{
    uses_descriptor(entry.opcode) && is_number(descriptor_number(entry.fd), fd)
}

// ---- searching the submission ring

fn is_sought(ring: &SubRing, sought: Sought, word: u32) -> bool
    ensures { result ≡ is_sought ring.now.slots sought word }
{
    match sought {
        Sought::Named(slot) => word == slot,
        Sought::Naming(fd) => {
            matches!(ring.entry(word), Some(entry) if names_descriptor(fd, &entry))
        }
    }
}

// Returns the first waiting index that matches, after skipping some.
fn first_after(ring: &SubRing, sought: Sought, passed: u32) -> Option<u32>
    requires { passed ≤ waiting ring.now.head ring.now.tail }
    ensures { is_some result ≡ list_any (is_sought ring.now.slots sought)
        (drop passed (sub_list ring.now)) }
{
    for place in 0..ring.waiting() - passed {
        let word = ring.word(passed + place);
        if is_sought(ring, sought, word) {
            return Some(word);
        }
    }
    None
}

/// Returns the first waiting index that matches.
pub(crate) fn first_pushed(state: &State, sought: Sought) -> Option<u32>
    ensures { is_some result ≡ is_pushed state.now.submissions sought }
{
    first_after(state.submissions(), sought, 0)
}

/// Returns whether one of the last pushed indexes, still waiting, is this slot.
pub(crate) fn is_pushed_last(state: &State, slot: u32) -> bool
    ensures { result ≡ is_pushed_last state.now.submissions slot }
{
    let ring = state.submissions();
    let passed = ring.waiting().saturating_sub(LOOKED_AT);
    first_after(ring, Sought::Named(slot), passed).is_some()
}

// ---- closed descriptors

// Returns whether the request uses the descriptor so.
fn is_user(usage: Usage, fd: u32, row: &Row) -> bool
    ensures { result ≡ is_user usage fd row.now }
{
    match usage {
        Usage::Names => matches!(row.phase, Phase::Queued) && names_descriptor(fd, &row.entry),
        Usage::Holds => is_issued(row) && is_number(row.held, fd),
    }
}

fn is_user_at(state: &State, usage: Usage, fd: u32, number: u32) -> bool
    ensures { result
        ≡ option_map_or (is_user usage fd) (slice_get state.now.table number) false }
{
    matches!(row_at(state, number), Some(row) if is_user(usage, fd, &row))
}

// Returns whether some request does. Completed requests never do, so they are skipped.
fn has_user(state: &State, usage: Usage, fd: u32) -> bool
    ensures { result ≡ list_any (is_user usage fd) state.now.table }
{
    let mut from = 0;
    while let Some(number) = state.next_unfinished(from) {
        if is_user_at(state, usage, fd, number) {
            return true;
        }
        from = number + 1;
    }
    false
}

/// Returns whether a queued request names the descriptor, or an entry that was pushed and not yet
/// taken.
pub(crate) fn is_named(state: &State, fd: i32) -> bool
    ensures { result ≡ option_map_or (is_named state.now) (number_in fd) false }
{
    matches!(
        descriptor_number(fd),
        Some(number)
            if has_user(state, Usage::Names, number)
                || first_pushed(state, Sought::Naming(number)).is_some()
    )
}

/// Returns whether an issued request holds the descriptor.
pub(crate) fn is_held(state: &State, fd: i32) -> bool
    ensures { result ≡ option_map_or (is_held state.now) (number_in fd) false }
{
    matches!(descriptor_number(fd), Some(number) if has_user(state, Usage::Holds, number))
}
