//! What a submission does next.
ghost use Rattle.std.specs.Prelude.{◌≡◌, IfSome, IfNone, false, length, slice_get};
ghost use Rattle.std.specs.Option.{option_map_or};
ghost use Rattle.entries.specs.declared.row.Row.{Row};
ghost use Rattle.prompt_order.specs.Prompt.{ends_inline, is_inline, may_end, inline_event, prompt_event, IsFirstIn, NoneIn, IsDue, NothingDue, begun_by};

use entries::{Choice, IOSQE_ASYNC, Sqe};
use machine::{Event, State};
use opcodes::{Op, is_cancel};

/// What a submission does next.
#[derive(Clone, Copy)]
pub struct Due {
    /// The number of the request.
    pub row: u32,
    /// It is issued, or finishes in full.
    pub event: Event,
}

/// Returns what the submission of the requests from number `from` on does next, or None if it has
/// ended. Doesn't allocate, and examines no completed request.
pub fn next_due(state: &State, from: u32) -> Option<Due>
    ensures some { IfSome result (λ d. IsDue state.now from d.row d.event) }
    ensures none { IfNone result (NothingDue state.now from) }
{
    match first_in(true, state, from) {
        Some(due) => Some(due),
        None => first_in(false, state, from),
    }
}

// Returns the first request to which something is done in a turn.
fn first_in(turn: bool, state: &State, from: u32) -> Option<Due>
    ensures some { IfSome result (λ d. IsFirstIn turn state.now from d.row d.event) }
    ensures none { IfNone result (NoneIn turn state.now from) }
{
    let mut next = from;
    'rows: while let Some(row) = state.next_unfinished(next) {
        if let Some(event) = prompt_event(turn, state, row) {
            return Some(Due { row, event });
        }
        next = row + 1;
    }
    None
}

#[tactic(auto, unfolding(crate::specs::Prompt::prompt_event))]
fn prompt_event(turn: bool, state: &State, row: u32) -> Option<Event>
    ensures { result ≡ prompt_event turn state.now row }
{
    if turn && !is_inline(state, row) {
        return None;
    }
    inline_event(state, row)
}

// Returns whether a submission issues a request in its turn, if nothing else holds it back: it is
// the first of its chain, or a LINK_TIMEOUT.
fn is_inline(state: &State, row: u32) -> bool
    ensures { result ≡ is_inline state.now row }
{
    match state.row(row) {
        Some(request) => { request.unit == row || request.entry.opcode == Op::LinkTimeout as u8 }
        None => false,
    }
}

#[tactic(auto, unfolding(crate::specs::Prompt::inline_event))]
fn inline_event(state: &State, row: u32) -> Option<Event>
    ensures { result ≡ inline_event state.now row }
{
    let issue = Event::Issue(row);
    if state.refuses(issue).is_none() {
        return Some(issue);
    }
    if may_end(state, row) {
        return Some(Event::Finish(row, Choice::Full));
    }
    None
}

// Returns whether a request is issued, and completes as it is.
fn may_end(state: &State, row: u32) -> bool
    ensures { result ≡ may_end state.now row }
{
    match state.row(row) {
        Some(request) => {
            ends_inline(&request.entry) && state.refuses(Event::Finish(row, Choice::Full)).is_none()
        }
        None => false,
    }
}

fn ends_inline(entry: &Sqe) -> bool
    ensures { result ≡ ends_inline entry.now }
{
    (entry.opcode == Op::Nop as u8 || is_cancel(entry.opcode)) && entry.flags & IOSQE_ASYNC == 0
}

/// Returns the first request of the submission that an event begins, where the last one has ended.
pub fn begun_by(state: &State, event: Event) -> u32
    ensures { result ≡ begun_by state.now event }
{
    match event {
        Event::Issue(row) => row,
        _ => state.row_count(),
    }
}
