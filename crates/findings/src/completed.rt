//! Computing the requests that an event completes, as far as they sever their chain or are canceled
//! (io_uring_enter(2), IOSQE_IO_LINK).
ghost use Rattle.std.specs.Prelude.{◌≡◌, ◌++◌, true, IfOk, OnOk, flat_map};
ghost use Rattle.findings.specs.{member_if, members_of, severs_chain, cancels_at, severing_in, canceled_in, depends_on_others, IsListed};

use crate::changes::pass_over;
use crate::record::{Added, row_in};
use entries::Row;
use finding_rules::{
    Completed, Member, Transition, cancels, continues, depends_on_others, is_severing, row_at,
};
use machine::State;
use places::{Change, Changes, Place, Record};
use std::alloc::{AllocError, Global};

// Appends a request if the test is true.
fn add_member(list: &mut Vec<Member>, test: bool, number: u32, row: &Row) -> Added
    ensures { OnOk result (list.new.items ≡ list.old.items ++ member_if test number row.now) }
{
    if test {
        list.push(Member {
            number,
            unit: row.unit,
        })?;
    }
    Ok(())
}

// Adds a request that the record names.
fn add_change(completed: &mut Completed, state: &State, change: Change) -> Added
    ensures severing { OnOk result (completed.new.severing.items ≡ completed.old.severing.items
        ++ members_of (severs_chain state.now.table) state.now.table change) }
    ensures canceled { OnOk result (completed.new.canceled.items ≡ completed.old.canceled.items
        ++ members_of cancels_at state.now.table change) }
{
    let Place::Request(number) = change.place else {
        return Ok(());
    };
    let Some(row) = row_at(state, number) else {
        return Ok(());
    };
    let before = row_in(change.old);
    let severing = continues(state, number, &row) && is_severing(&before, &row);
    add_member(&mut completed.severing, severing, number, &row)?;
    let canceled = cancels(&before, &row);
    add_member(&mut completed.canceled, canceled, number, &row)
}

fn add_changes(completed: &mut Completed, state: &State, rest: &mut Changes<'_>) -> Added
    ensures severing { OnOk result (completed.new.severing.items ≡ completed.old.severing.items
        ++ flat_map (members_of (severs_chain state.now.table) state.now.table) rest.old) }
    ensures canceled { OnOk result (completed.new.canceled.items ≡ completed.old.canceled.items
        ++ flat_map (members_of cancels_at state.now.table) rest.old) }
{
    while let Some(change) = rest.next() {
        add_change(completed, state, change)?;
    }
    Ok(())
}

// Returns the requests that an event completes, from its record and the state after it.
fn completed_by(alloc: Global, state: &State, past: &Record) -> Result<Completed, AllocError>
    ensures known { IfOk result (λ completed. completed.is_known ≡ true) }
    ensures severing { IfOk result (λ completed.
        completed.severing.items ≡ severing_in state.now past.now) }
    ensures canceled { IfOk result (λ completed.
        completed.canceled.items ≡ canceled_in state.now past.now) }
{
    let (mut first, mut bytes, mut last) = past.parts();
    pass_over(&mut bytes);
    let mut completed = Completed::unknown(alloc);
    add_changes(&mut completed, state, &mut first)?;
    add_changes(&mut completed, state, &mut last)?;
    completed.is_known = true;
    Ok(completed)
}

/// Computes the lists if a finding about the completion of a request depends on them, and they
/// aren't known.
pub(crate) fn prepare(
    completed: &mut Completed,
    at: Transition<'_>,
    before: &Option<Row>,
    row: &Row,
) -> Added
    requires { IsListed at.state.now at.past.now completed.old }
    ensures listed { OnOk result (IsListed at.entry.state.now at.entry.past.now completed.new) }
    ensures known { OnOk result (depends_on_others before.now row.now ≡ true →
        completed.new.is_known ≡ true) }
{
    if !completed.is_known && depends_on_others(before, row) {
        let alloc = *completed.severing.allocator();
        *completed = completed_by(alloc, at.state, at.past)?;
    }
    Ok(())
}
