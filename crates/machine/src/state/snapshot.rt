//! Copies of a state that share what neither has written since.
ghost use Rattle.std.specs.Prelude.{◌≡◌, IfOk};

use super::State;
use crate::sharing::SharedMachine;
use crate::whole::Machine;
use places::Recorder;
use std::alloc::{AllocError, Global};
use std::marker::Model;

/// A copy of a state. It shares with the state, and with other copies, the requests and the bytes
/// that were not written in between. Contracts see it as the machine.
pub struct Snapshot {
    machine: SharedMachine,
}

// Written by hand, so that dropping a copy is one step of a proof.
impl Drop for Snapshot {
    fn drop(self) {
        let Snapshot { machine: _ } = self;
    }
}

impl Model for Snapshot {
    ghost use Rattle.machine.specs.declared.whole.Machine.{Machine};
    ghost use Rattle.machine.specs.Sharing.{machine_in};
    ghost use Rattle.machine.specs.Whole.{WellFormed};

    ghost Value = { Machine };

    ghost view = { λ a. machine_in a.machine };

    ghost invariant = { λ a. WellFormed (machine_in a.machine) };
}

impl State {
    /// Returns a copy. Of what it shares, copies only pages that were written since the last one.
    pub fn snapshot(&mut self, alloc: Global) -> Result<Snapshot, AllocError>
        ensures ok { IfOk result (λ copy. copy ≡ self.old) }
        ensures same { self.new ≡ self.old }
    {
        let machine = self.machine.share(alloc)?;
        Ok(Snapshot { machine })
    }

    fn into_machine(self) -> Machine {
        let State {
            machine,
            notes: _notes,
        } = self;
        machine
    }
}

impl Snapshot {
    /// Returns the state that was copied, with storage of its own.
    pub fn to_state(&self, alloc: Global) -> Result<State, AllocError>
        ensures { IfOk result (λ state. state ≡ self.now) }
    {
        let machine = self.machine.to_machine(alloc)?;
        Ok(State {
            machine,
            notes: Recorder::new(alloc),
        })
    }

    /// The same, in the storage of `room` as far as that fits.
    pub fn restore(&self, alloc: Global, room: State) -> Result<State, AllocError>
        ensures { IfOk result (λ state. state ≡ self.now) }
    {
        let machine = self.machine.restore(alloc, room.into_machine())?;
        Ok(State {
            machine,
            notes: Recorder::new(alloc),
        })
    }
}
