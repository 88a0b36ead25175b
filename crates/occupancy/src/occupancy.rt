//! Queue occupancy at each moment of a run, and the lifetime of each request.
ghost use Rattle.std.specs.Prelude.{◌≡◌, ◌≤◌, ◌++◌, ◌∷◌, ◌-◌, ◌<◌, [], length, IfOk, OnOk};
ghost use Rattle.occupancy.specs.{filling_of as filling_at, stamps_after};

use crate::filling::{Filling, count_overflowed, filling_of};
use crate::stamps::{Stamps, add_rows, stamp_changes};
use machine::State;
use places::Record;
use std::alloc::{AllocError, Global};

/// Queue occupancy and request lifetimes, recorded step by step.
#[derive(Drop)]
pub struct Occupancy {
    /// One element per moment, from moment 0 on.
    pub fillings: Vec<Filling>,
    /// One element per request.
    pub stamps: Vec<Stamps>,
    // How many completions have overflowed so far.
    overflowed: u32,
}

impl Occupancy {
    /// Returns the record of a run at moment 0.
    pub(crate) fn new(alloc: Global, state: &State) -> Result<Occupancy, AllocError>
        requires none_kept { state.now.backlog.items ≡ [] }
        ensures fillings { IfOk result (λ c. c.fillings.items ≡ filling_at state.now ∷ []) }
        ensures stamps { IfOk result (λ c. c.stamps.items ≡ []) }
        ensures overflowed { IfOk result (λ c. c.overflowed ≡ 0) }
    {
        let mut fillings = Vec::new(alloc);
        fillings.push(filling_of(state, 0))?;
        Ok(Occupancy {
            fillings,
            stamps: Vec::new(alloc),
            overflowed: 0,
        })
    }

    /// Records the moment after a step, from the step's undo record. After an allocation failure
    /// the record may be incomplete.
    pub(crate) fn note(
        &mut self,
        past: &Record,
        state: &State,
        moment: u32,
    ) -> Result<(), AllocError>
        requires rows { length self.old.stamps.items ≤ length state.now.table }
        requires kept { self.old.overflowed ≤ length state.now.backlog.items }
        ensures fillings { OnOk result (self.new.fillings.items ≡ self.old.fillings.items
            ++ filling_at state.now ∷ []) }
        ensures stamps { OnOk result (self.new.stamps.items
            ≡ stamps_after state.now.table moment past.now self.old.stamps.items) }
        ensures overflowed { OnOk result (self.new.overflowed ≡ length state.now.backlog.items) }
    {
        self.overflowed = count_overflowed(state, self.overflowed);
        self.fillings.push(filling_of(state, self.overflowed))?;
        add_rows(&mut self.stamps, state, moment)?;
        stamp_changes(&mut self.stamps, past, state, moment);
        Ok(())
    }
}
