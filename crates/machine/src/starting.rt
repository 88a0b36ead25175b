//! Builds the initial machine of a setup.
ghost use Rattle.std.specs.Prelude.{◌≡◌, ℕ, IfOk, Some, None, map, slice_get};
ghost use Rattle.scenario.specs.Programs.{HasWidths, HaveWidths};
ghost use Rattle.machine.specs.Threads.{thread_start};
ghost use Rattle.scenario.specs.declared.setup.Instruction.{Instruction};
ghost use Rattle.scenario.specs.Setups.{setup_refusal};
ghost use Rattle.machine.specs.Runs.{start};

use crate::threads::{Thread, Threads};
use crate::whole::Machine;
use links_drains::Table;
use model_files::World;
use overflow::Backlog;
use places::Items;
use ring_words::{ComRing, SubRing};
use scenario::{Instruction, Setup, completion_entries};
use sqpoll::Poller;
use std::alloc::{AllocError, Global};

impl Machine {
    /// Builds the initial machine of a valid setup.
    pub fn new(alloc: Global, setup: &Setup) -> Result<Machine, AllocError>
        requires { setup_refusal setup.now ≡ None }
        ensures start { IfOk result (λ m. m ≡ start setup.now) }
        ensures widths { IfOk result (λ m. HaveWidths setup.now.threads) }
    {
        let completions = completion_entries(setup.entries, setup.cq);
        let Ok(submissions) = SubRing::new(alloc, setup.entries, setup.base) else {
            return Err(AllocError);
        };
        let Ok(completions) = ComRing::new(alloc, completions, setup.base) else {
            return Err(AllocError);
        };
        Ok(Machine {
            submissions,
            completions,
            backlog: Backlog::new(alloc),
            world: World::new(
                alloc,
                setup.memory.as_slice(),
                setup.objects.as_slice(),
                setup.fds.as_slice(),
            )?,
            table: Table::new(alloc),
            submit_all: setup.submit_all,
            poller: if setup.sqpoll {
                Some(Poller::Awake)
            } else {
                None
            },
            threads: start_threads(alloc, setup.threads.as_slice())?,
            clock: 0,
            counted: 0,
        })
    }

    /// Copies the machine.
    pub fn copy(&self, alloc: Global) -> Result<Machine, AllocError>
        ensures { IfOk result (λ m. m ≡ self.now) }
    {
        Ok(Machine {
            submissions: self.submissions.copy(alloc)?,
            completions: self.completions.copy(alloc)?,
            backlog: self.backlog.copy(alloc)?,
            world: self.world.copy(alloc)?,
            table: self.table.copy(alloc)?,
            poller: self.poller,
            submit_all: self.submit_all,
            threads: self.threads.copy(alloc)?,
            clock: self.clock,
            counted: self.counted,
        })
    }
}

fn start_threads(alloc: Global, programs: &[Items<Instruction>]) -> Result<Threads, AllocError>
    ensures start { IfOk result (λ threads. threads ≡ map thread_start programs.now) }
    ensures widths { IfOk result (λ threads. HaveWidths programs.now) }
{
    let mut threads = Vec::new(alloc);
    for program in programs {
        threads.push(start_thread(alloc, program.as_slice())?)?;
    }
    Ok(Threads::new(threads))
}

fn start_thread(alloc: Global, program: &[Instruction]) -> Result<Thread, AllocError>
    ensures start { IfOk result (λ thread. thread ≡ thread_start program.now) }
    ensures widths { IfOk result (λ thread. (i : ℕ) (x : Instruction)
        → slice_get program.now i ≡ Some x → HasWidths x) }
{
    let mut copies = Vec::with_capacity(alloc, program.len())?;
    for instruction in program {
        copies.push(instruction.copy(alloc)?)?;
    }
    let thread = Thread::new(alloc, Items::from_vec(copies))?;
    Ok(thread)
}
