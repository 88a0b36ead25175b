//! Completes requests: posts and counts their completions.
ghost use Rattle.std.specs.Prelude.{◌≡◌, ◌+◌, ◌<◌, ◌≤◌, ◌^◌, IfOk, OnOk, length};
ghost use Rattle.places.specs.View.{Keeps};
ghost use Rattle.machine.specs.Steps.{all_ended, cascaded, completion_of, completions_of, delivery, posted};
ghost use Rattle.overflow.specs.Backlogs.{DeliveryFormed};
ghost use Rattle.links_drains.specs.Endings.{Direct};
ghost use Rattle.timeouts_cancel.specs.Cascades.{counted_in, GuardsAreLinked};
ghost use Rattle.machine.specs.Whole.{view, everywhere, Grows, Mostly};

use crate::whole::Machine;
use entries::{Cqe, Row};
use overflow::post_all;
use places::{Place, Recorder};
use std::alloc::AllocError;
use timeouts_cancel::{count, fall, falls_alone};

impl Machine {
    /// Completes the requests in `direct` and their cascade. Most cascades are empty, and then no
    /// list of more requests is made.
    #[tactic(auto, unfolding(crate::specs::Steps::cascaded))]
    pub(crate) fn cascade(
        &mut self,
        direct: &[(u32, i32)],
        notes: &mut Recorder,
    ) -> Result<(), AllocError>
        requires direct { Direct self.old.table direct.now }
        requires guards { GuardsAreLinked self.old.table }
        requires mostly { Mostly self.old }
        ensures ok { OnOk result (self.new ≡ cascaded self.old direct.now) }
        ensures grows { Grows self.old self.new }
        ensures keeps { Keeps everywhere (view self.old)
            (view self.new) notes.old.made notes.new.made }
    {
        if let Some(counted) = falls_alone(&self.table, self.counted, direct) {
            return self.end_all(direct, counted, notes);
        }
        let endings = fall(&self.table, self.counted, direct)?;
        let counted = count(&self.table, &endings);
        self.end_all(&endings, counted, notes)
    }

    // Completes requests together, each with its result. Their completions are posted in the order
    // of the list; `counted` of them count for TIMEOUTs.
    fn end_all(
        &mut self,
        endings: &[(u32, i32)],
        counted: u32,
        notes: &mut Recorder,
    ) -> Result<(), AllocError>
        requires direct { Direct self.old.table endings.now }
        requires counted { counted ≡ counted_in self.old.table endings.now }
        requires mostly { Mostly self.old }
        ensures ok { OnOk result (self.new ≡ all_ended self.old endings.now) }
        ensures grows { Grows self.old self.new }
        ensures keeps { Keeps everywhere (view self.old)
            (view self.new) notes.old.made notes.new.made }
    {
        self.post_each(endings, notes)?;
        self.table.end_all(endings, notes)?;
        self.count(counted, notes)
    }

    // Posts the completions of requests. That of one request needs no list.
    fn post_each(&mut self, endings: &[(u32, i32)], notes: &mut Recorder) -> Result<(), AllocError>
        requires direct { Direct self.old.table endings.now }
        requires mostly { Mostly self.old }
        ensures ok { OnOk result (self.new
            ≡ posted self.old (completions_of self.old.table endings.now)) }
        ensures grows { Grows self.old self.new }
        ensures keeps { Keeps everywhere (view self.old)
            (view self.new) notes.old.made notes.new.made }
    {
        if endings.len() == 1 {
            let (r, res) = endings[0];
            let completion = completion_of(res, self.table.row_ref(r));
            return self.post(&[completion], notes);
        }
        let completions = self.completions_of(endings)?;
        self.post(&completions, notes)
    }

    // The completions of requests, in the order of the list.
    fn completions_of(&self, endings: &[(u32, i32)]) -> Result<Vec<Cqe>, AllocError>
        requires { Direct self.now.table endings.now }
        ensures { IfOk result (λ list. list.items ≡ completions_of self.now.table endings.now) }
    {
        let mut completions = Vec::with_capacity(self.table.allocator(), endings.len())?;
        for i in 0..endings.len() {
            let (r, res) = endings[i];
            completions.push(completion_of(res, self.table.row_ref(r)))?;
        }
        Ok(completions)
    }

    // Posts completions to the ring or, if they don't fit, to the backlog.
    fn post(&mut self, completions: &[Cqe], notes: &mut Recorder) -> Result<(), AllocError>
        requires delivery { DeliveryFormed (delivery self.old) }
        requires room { length self.old.backlog.items + length completions.now ≤ 65536 }
        ensures ok { OnOk result (self.new ≡ posted self.old completions.now) }
        ensures grows { Grows self.old self.new }
        ensures keeps { Keeps everywhere (view self.old)
            (view self.new) notes.old.made notes.new.made }
    {
        post_all(
            &mut self.submissions,
            &mut self.completions,
            &mut self.backlog,
            completions,
            notes,
        )
    }

    // Counts n more completions for TIMEOUTs.
    fn count(&mut self, n: u32, notes: &mut Recorder) -> Result<(), AllocError>
        requires { self.old.counted + n < 2 ^ 32 }
        ensures ok { OnOk result (self.new
            ≡ record self.old { counted = self.old.counted + n }) }
        ensures grows { Grows self.old self.new }
        ensures keeps { Keeps everywhere (view self.old)
            (view self.new) notes.old.made notes.new.made }
    {
        notes.note_number(Place::Counted, self.counted as u64)?;
        self.counted += n;
        Ok(())
    }
}

// The completion of a request with this result.
fn completion_of(res: i32, row: &Row) -> Cqe
    ensures { result ≡ completion_of res row.now }
{
    Cqe {
        user_data: row.entry.user_data,
        res,
        flags: 0,
    }
}
