//! Turns submitted entries into requests (io_uring_enter(2)).
ghost use Rattle.std.specs.Prelude.{◌≡◌, ℕ, ◌+◌, ◌-◌, ◌<◌, ◌≤◌, ◌==◌, ◌&&◌, ◌++◌, None, Some, IfOk, OnOk, OnErr, if◌then◌else◌, is_none, length, slice_get, take};
ghost use Rattle.entries.specs.declared.entry.Sqe.{Sqe};
ghost use Rattle.opcodes.specs.Check.{time_of as time_in};
ghost use Rattle.places.specs.View.{Keeps, named};
ghost use Rattle.places.specs.declared.place.Place.{Place};
ghost use Rattle.links_drains.specs.Batches.{previous_in, error_at, error_in, taken_of, target_of, rows_of, direct_of, halts};
ghost use Rattle.links_drains.specs.Rows.{table_owns, table_seen, new_row as row_with};

use crate::failing::{direct_ends, note_error, previous_at};
use crate::links::is_linked;
use crate::table::{Table, new_row};
use entries::{Row, Sqe};
use model_files::World;
use opcodes::{Context, Op, check_timed};
use places::Recorder;
use std::alloc::AllocError;

/// The outcome of a batch of entries.
#[derive(Drop)]
pub struct Batch {
    /// How many entries became requests.
    pub taken: u32,
    /// Whether the last of them failed and stopped the submission.
    pub halted: bool,
    /// The requests that complete as they are submitted, with their results, by ascending number.
    pub direct: Vec<(u32, i32)>,
}

impl Table {
    /// Adds a queued request for each entry, or, without `submit_all`, for those up to and
    /// including the first invalid one. Timeouts are read from memory (struct __kernel_timespec).
    /// The caller completes the requests in `direct`. If an allocation fails, the table is
    /// unchanged.
    pub fn take_batch(
        &mut self,
        entries: &[Sqe],
        world: &World,
        submit_all: bool,
        notes: &mut Recorder,
    ) -> Result<Batch, AllocError>
        requires { length self.old + length entries.now ≤ 65536 }
        ensures ok { OnOk result (self.new ≡ self.old
            ++ rows_of world.now (length self.old) (taken_of submit_all world.now entries.now)) }
        ensures taken { IfOk result (λ batch. batch.taken
            ≡ length (taken_of submit_all world.now entries.now)) }
        ensures halted { IfOk result (λ batch. batch.halted
            ≡ halts submit_all world.now entries.now) }
        ensures len { IfOk result (λ batch. length self.new ≡ length self.old + batch.taken) }
        ensures within { IfOk result (λ batch. batch.taken ≤ length entries.now) }
        ensures direct { IfOk result (λ batch. batch.direct.items
            ≡ direct_of world.now (length self.old) (taken_of submit_all world.now entries.now)) }
        ensures err { OnErr result (self.new ≡ self.old) }
        ensures keeps { Keeps table_owns (table_seen self.old)
            (table_seen self.new) notes.old.made notes.new.made }
        ensures numbers { notes.old.numbers ≤ notes.new.numbers }
        ensures completions { notes.old.completions ≤ notes.new.completions }
    {
        let first = self.len();
        match self.add_batch(entries, world, submit_all, notes) {
            Ok(batch) => Ok(batch),
            Err(e) => {
                self.truncate(first);
                Err(e)
            }
        }
    }

    // Adds the requests, and finds those that complete at once. If an allocation fails, some
    // requests may have been added.
    fn add_batch(
        &mut self,
        entries: &[Sqe],
        world: &World,
        submit_all: bool,
        notes: &mut Recorder,
    ) -> Result<Batch, AllocError>
        requires { length self.old + length entries.now ≤ 65536 }
        ensures ok { OnOk result (self.new ≡ self.old
            ++ rows_of world.now (length self.old) (taken_of submit_all world.now entries.now)) }
        ensures taken { IfOk result (λ batch. batch.taken
            ≡ length (taken_of submit_all world.now entries.now)) }
        ensures halted { IfOk result (λ batch. batch.halted
            ≡ halts submit_all world.now entries.now) }
        ensures direct { IfOk result (λ batch. batch.direct.items
            ≡ direct_of world.now (length self.old) (taken_of submit_all world.now entries.now)) }
        ensures before { take (length self.old) self.new ≡ self.old }
        ensures keeps { Keeps table_owns (table_seen self.old)
            (table_seen self.new) notes.old.made notes.new.made }
        ensures named { (p : Place) → named notes.new.made p ≡ None
            → named notes.old.made p ≡ None }
        ensures numbers { notes.old.numbers ≤ notes.new.numbers }
        ensures completions { notes.old.completions ≤ notes.new.completions }
    {
        let first = self.len() as u32;
        notes.expect_rows(entries.len())?;
        let (taken, halted, errors) = self.add_rows(entries, world, submit_all, notes)?;
        let direct = direct_ends(self.allocator(), &errors, first, self.rows())?;
        Ok(Batch {
            taken: taken as u32,
            halted,
            direct,
        })
    }

    // Checks each entry, and adds its request. Returns how many became requests, whether the last
    // of them failed and stopped the submission, and the errors up to the last entry that fails.
    fn add_rows(
        &mut self,
        entries: &[Sqe],
        world: &World,
        submit_all: bool,
        notes: &mut Recorder,
    ) -> Result<(usize, bool, Vec<Option<i32>>), AllocError>
        requires { length self.old + length entries.now ≤ 65536 }
        ensures ok { OnOk result (self.new ≡ self.old
            ++ rows_of world.now (length self.old) (taken_of submit_all world.now entries.now)) }
        ensures taken { IfOk result (λ added. added.0
            ≡ length (taken_of submit_all world.now entries.now)) }
        ensures halted { IfOk result (λ added. added.1
            ≡ halts submit_all world.now entries.now) }
        ensures errors { IfOk result (λ added. (i : ℕ) → error_in added.2.items i
            ≡ error_at world.now (taken_of submit_all world.now entries.now) i) }
        ensures before { take (length self.old) self.new ≡ self.old }
        ensures keeps { Keeps table_owns (table_seen self.old)
            (table_seen self.new) notes.old.made notes.new.made }
        ensures named { (p : Place) → named notes.new.made p ≡ None
            → named notes.old.made p ≡ None }
        ensures numbers { notes.old.numbers ≤ notes.new.numbers }
        ensures completions { notes.old.completions ≤ notes.new.completions }
    {
        let first = self.len() as u32;
        let mut errors = Vec::new(self.allocator());
        let mut unit = first;
        for i in 0..entries.len() {
            let (row, error) = row_at(world, entries, i, first, unit);
            self.push(row, notes)?;
            note_error(&mut errors, i, error)?;
            if error.is_some() && !submit_all {
                return Ok((i + 1, true, errors));
            }
            if !is_linked(&entries[i]) {
                unit = first + i as u32 + 1;
            }
        }
        Ok((entries.len(), false, errors))
    }
}

// Checks entry i, and builds its request. Also returns the error with which it fails, if any. The
// batch's requests are numbered from `first`.
fn row_at(world: &World, entries: &[Sqe], i: usize, first: u32, unit: u32) -> (Row, Option<i32>)
    requires within { i < length entries.now }
    requires few { first + length entries.now ≤ 65536 }
    ensures row { (entry : Sqe) → slice_get entries.now i ≡ Some entry
        → result.0 ≡ row_with entry unit (time_in world.now (previous_in entries.now i) entry)
        (target_of world.now first entries.now i entry) }
    ensures error { result.1 ≡ error_at world.now entries.now i }
{
    let context = Context {
        previous: previous_at(entries, i),
        world,
    };
    let (checked, time) = check_timed(&entries[i], context);
    let error = checked.err();
    let target = target_at(&entries[i], first + i as u32, error);
    (new_row(entries[i], unit, time, target), error)
}

// Returns the request before request r, if the entry is a valid linked timeout.
fn target_at(entry: &Sqe, r: u32, error: Option<i32>) -> Option<u32>
    ensures { result
        ≡ (if (entry.now.opcode == 15) && is_none error then Some (r - 1) else None) }
{
    if entry.opcode != Op::LinkTimeout as u8 || error.is_some() {
        return None;
    }
    Some(r.saturating_sub(1))
}
