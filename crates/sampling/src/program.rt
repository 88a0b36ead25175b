//! A program, prepared for random runs.
ghost use Rattle.std.specs.Prelude.{◌≡◌, None, IfOk};
ghost use Rattle.scenario.specs.Setups.{setup_refusal};

use crate::locks::sections_of;
use machine::Setup;
use places::Items;
use std::alloc::{AllocError, Global};
use std::marker::Model;

/// A setup from which a run can start, and its locked sections. All runs share it.
pub struct Program<'a> {
    setup: &'a Setup,
    // For each thread and instruction, whether a thread that executes it next holds the lock.
    sections: Items<Items<bool>>,
}

// Written by hand, so that dropping a program is one step of a proof.
impl Drop for Program<'_> {
    fn drop(self) {
        let Program {
            setup: _,
            sections: _,
        } = self;
    }
}

impl<'a> Model for Program<'a> {
    ghost use Rattle.std.specs.Prelude.{◌≡◌, None, map};
    ghost use Rattle.scenario.specs.Setups.{setup_refusal};
    ghost use Rattle.scenario.specs.declared.setup.Setup.{Setup};
    ghost use Rattle.sampling.specs.Locks.{sections as sections_of};

    ghost Value = { Setup };

    ghost view = { λ p. p.setup.now };

    ghost invariant = { λ p. (setup_refusal p.setup.now ≡ None)
        × (p.sections ≡ map sections_of p.setup.now.threads) };
}

impl<'a> Program<'a> {
    ghost use Rattle.std.specs.Prelude.{◌≡◌, ◌≤◌, None, false, IfOk, length, slice_get, unwrap_or};
    ghost use Rattle.std.specs.Option.{option_map_or};
    ghost use Rattle.scenario.specs.Setups.{setup_refusal};
    ghost use Rattle.sampling.specs.Locks.{sections};

    /// Prepares a setup from which a run can start.
    pub fn new(alloc: Global, setup: &'a Setup) -> Result<Program<'a>, AllocError>
        requires { setup_refusal setup.now ≡ None }
        ensures { IfOk result (λ p. p ≡ setup.now) }
    {
        let mut sections = Vec::new(alloc);
        for program in setup.threads.as_slice() {
            sections.push(sections_of(alloc, program.as_slice())?)?;
        }
        Ok(Program {
            setup,
            sections: Items::from_vec(sections),
        })
    }

    /// Returns the setup.
    pub fn setup(&self) -> &Setup
        ensures { result.now ≡ self.now }
    {
        self.setup
    }

    /// Returns how many threads the program has.
    pub(crate) fn thread_count(&self) -> u32
        ensures value { result ≡ length self.now.threads }
        ensures few { result ≤ 16 }
    {
        self.setup.threads.len() as u32
    }

    /// Returns whether a thread that executes an instruction next has put or pushed and not
    /// entered.
    pub(crate) fn is_inside(&self, thread: u32, counter: u64) -> bool
        ensures { result ≡ option_map_or (λ p. unwrap_or (slice_get (sections p) counter) false)
            (slice_get self.now.threads thread) false }
    {
        match self.sections.as_slice().get(thread as usize) {
            Some(sections) => match sections.as_slice().get(counter as usize) {
                Some(is_inside) => *is_inside,
                None => false,
            },
            None => false,
        }
    }
}
