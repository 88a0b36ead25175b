//! Findings about completed cancels and removals, by the requests that they match
//! (io_uring_prep_cancel(3)).
ghost use Rattle.std.specs.Prelude.{◌≡◌};
ghost use Rattle.finding_rules.specs.{cancel_in, cancel_before, is_of_cancel};

use crate::requests::row_at;
use entries::{Row, Sqe};
use finding_kinds::CancelKind;
use machine::{Event, State, takes_all};
use opcodes::is_cancel;

/// A cancel or removal, as it is before the event that completes it.
#[derive(Clone, Copy)]
pub struct Cancel {
    /// Its request number.
    pub number: u32,
    pub entry: Sqe,
    /// How many requests it matches.
    pub matched: u32,
}

fn cancel_in(state: &State, number: u32, row: &Row) -> Option<Cancel>
    ensures { result ≡ cancel_in state.now.table number row.now }
{
    if !is_cancel(row.entry.opcode) {
        return None;
    }
    Some(Cancel {
        number,
        entry: row.entry,
        matched: state.match_count(&row.entry, number),
    })
}

/// Returns the cancel or removal that the event completes, if it completes one.
pub(crate) fn cancel_before(state: &State, event: Event) -> Option<Cancel>
    ensures { result ≡ cancel_before state.now event }
{
    let Event::Finish(number, _) = event else {
        return None;
    };
    cancel_in(state, number, &row_at(state, number)?)
}

/// Returns whether a completed cancel or removal is a finding of this kind, by the state after it.
pub fn is_of_cancel(kind: CancelKind, cancel: &Cancel, state: &State) -> bool
    ensures { result ≡ is_of_cancel kind cancel.now state.now.table }
{
    match kind {
        CancelKind::NoneFound => takes_all(&cancel.entry) && cancel.matched == 0,
        CancelKind::Several => !takes_all(&cancel.entry) && cancel.matched > 1,
        CancelKind::LeftRunning => {
            takes_all(&cancel.entry) && state.match_count(&cancel.entry, cancel.number) > 0
        }
    }
}
