//! Consumes entries of the submission ring (io_uring_enter(2)).
ghost use Rattle.std.specs.Prelude.{◌≡◌, ◌+◌, ◌≤◌, if◌then◌else◌, IfOk, OnOk, None, length};
ghost use Rattle.places.specs.View.{Keeps};
ghost use Rattle.ring_words.specs.Rings.{sub_list};
ghost use Rattle.links_drains.specs.Batches.{direct_of};
ghost use Rattle.machine.specs.Submission.{items_of, offered, offered_entries, entries_at, up_to_entry};
ghost use Rattle.machine.specs.Steps.{entries_for, submission_refusal, submitted, taken};
ghost use Rattle.machine.specs.Whole.{view, everywhere, Grows, WellFormed};

use crate::whole::Machine;
use entries::Sqe;
use links_drains::Batch;
use places::Recorder;
use std::alloc::AllocError;
use std::slice::from_ref;

impl Machine {
    /// Submits at most `to_submit` entries. Returns how many became requests.
    pub(crate) fn submit(&mut self, to_submit: u32, notes: &mut Recorder) -> Result<u32, AllocError>
        requires accepted { submission_refusal self.old to_submit ≡ None }
        requires formed { WellFormed self.old }
        ensures ok { OnOk result (self.new ≡ submitted self.old to_submit) }
        ensures count { IfOk result (λ n. n ≡ length (entries_for self.old to_submit)) }
        ensures grows { Grows self.old self.new }
        ensures keeps { Keeps everywhere (view self.old)
            (view self.new) notes.old.made notes.new.made }
    {
        let batch = self.take(to_submit, notes)?;
        if batch.direct.is_empty() {
            return Ok(batch.taken);
        }
        self.cascade(&batch.direct, notes)?;
        Ok(batch.taken)
    }

    // Consumes index words of the ring, and turns their entries into requests.
    fn take(&mut self, to_submit: u32, notes: &mut Recorder) -> Result<Batch, AllocError>
        requires { length self.old.table + length (offered self.old.submissions to_submit) ≤ 65536 }
        ensures ok { OnOk result (self.new ≡ taken self.old to_submit) }
        ensures count { IfOk result (λ batch. batch.taken
            ≡ length (entries_for self.old to_submit)) }
        ensures direct { IfOk result (λ batch. batch.direct.items
            ≡ direct_of self.old.world (length self.old.table) (entries_for self.old to_submit)) }
        ensures grows { Grows self.old self.new }
        ensures keeps { Keeps everywhere (view self.old)
            (view self.new) notes.old.made notes.new.made }
    {
        let offered = self.offered(to_submit);
        let entries = self.entries_named(offered)?;
        let batch = self
            .table
            .take_batch(entries.as_slice(), &self.world, self.submit_all, notes)?;
        let count = self.word_count(offered, batch.taken, batch.halted);
        notes.room_for_numbers(2)?;
        self.submissions
            .take_first(count, count - batch.taken, notes);
        Ok(batch)
    }

    // How many of the offered words a submission consumes: all, or, if an invalid entry stopped it,
    // those up to and including the word of the last entry taken.
    fn word_count(&self, most: u32, taken: u32, halted: bool) -> u32
        requires offered { most ≤ length (sub_list self.now.submissions) }
        requires named { taken ≤ length (offered_entries self.now.submissions most) }
        ensures words { offered self.now.submissions result
            ≡ (if halted then up_to_entry self.now.submissions.slots taken
            (offered self.now.submissions most) else offered self.now.submissions most) }
        ensures within { result ≤ most }
        ensures enough { taken ≤ result }
    {
        if halted {
            self.words_up_to(most, taken)
        } else {
            most
        }
    }

    // How many words there are up to and including that of the n-th entry.
    fn words_up_to(&self, most: u32, n: u32) -> u32
        requires offered { most ≤ length (sub_list self.now.submissions) }
        requires named { n ≤ length (offered_entries self.now.submissions most) }
        ensures words { offered self.now.submissions result
            ≡ up_to_entry self.now.submissions.slots n (offered self.now.submissions most) }
        ensures within { result ≤ most }
        ensures enough { n ≤ result }
    {
        let mut count = 0;
        let mut left = n;
        while left > 0 {
            if self
                .submissions
                .entry(self.submissions.word(count))
                .is_some()
            {
                left -= 1;
            }
            count += 1;
        }
        count
    }

    // Returns the entries that the first `count` words refer to. Words out of range refer to none.
    fn entries_named(&self, count: u32) -> Result<Entries, AllocError>
        requires { count ≤ length (sub_list self.now.submissions) }
        ensures { IfOk result (λ entries. items_of entries
            ≡ entries_at self.now.submissions.slots (offered self.now.submissions count)) }
    {
        if count == 1 {
            if let Some(entry) = self.submissions.entry(self.submissions.word(0)) {
                return Ok(Entries::One(entry));
            }
        }
        Ok(Entries::Many(self.list_entries(count)?))
    }

    fn list_entries(&self, count: u32) -> Result<Vec<Sqe>, AllocError>
        requires { count ≤ length (sub_list self.now.submissions) }
        ensures { IfOk result (λ entries. entries.items
            ≡ entries_at self.now.submissions.slots (offered self.now.submissions count)) }
    {
        let mut entries = Vec::with_capacity(self.table.allocator(), count as usize)?;
        for i in 0..count {
            if let Some(entry) = self.submissions.entry(self.submissions.word(i)) {
                entries.push(entry)?;
            }
        }
        Ok(entries)
    }
}

/// The entries of a submission. A single one needs no allocation.
#[derive(Drop)]
enum Entries {
    One(Sqe),
    Many(Vec<Sqe>),
}

impl Entries {
    fn as_slice(&self) -> &[Sqe]
        ensures { result.now ≡ items_of self.now }
    {
        match self {
            Entries::One(entry) => from_ref(entry),
            Entries::Many(entries) => entries.as_slice(),
        }
    }
}
