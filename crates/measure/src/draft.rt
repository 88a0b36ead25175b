//! Builds the setup, the programs and the events of a measured run.

use entries::Sqe;
use machine::{Event, Instruction, Setup};
use opcodes::Choice;
use places::Items;
use std::alloc::{AllocError, Global};
use std::mem::replace;

/// The maximum number of instructions in a program, and of submission entries. The poller takes up
/// to this many at once.
pub const BATCH: u32 = 4096;

/// A setup and its events, under construction. The first thread executes instructions until its
/// program is full, then the next one.
#[derive(Drop)]
pub struct Draft {
    pub alloc: Global,
    pub setup: Setup,
    programs: Vec<Items<Instruction>>,
    // The program under construction, and its thread.
    program: Vec<Instruction>,
    thread: u32,
    pub events: Vec<Event>,
}

impl Draft {
    /// Creates a setup with rings of the maximum size and a poller. It has no memory, objects,
    /// descriptors or events.
    pub fn new(alloc: Global) -> Draft {
        let setup = Setup {
            entries: BATCH,
            cq: None,
            sqpoll: true,
            submit_all: false,
            base: 0,
            memory: Items::new(alloc),
            objects: Items::new(alloc),
            fds: Items::new(alloc),
            threads: Items::new(alloc),
        };
        Draft {
            alloc,
            setup,
            programs: Vec::new(alloc),
            program: Vec::new(alloc),
            thread: 0,
            events: Vec::new(alloc),
        }
    }

    /// Ends the program of the current thread.
    fn end_program(&mut self) -> Result<(), AllocError> {
        let program = replace(&mut self.program, Vec::new(self.alloc));
        self.programs.push(Items::from_vec(program))?;
        self.thread = self.thread.saturating_add(1);
        Ok(())
    }

    /// Ends the last program, and stores all programs in the setup.
    pub fn end(&mut self) -> Result<(), AllocError> {
        self.end_program()?;
        self.setup.threads = Items::from_vec(replace(&mut self.programs, Vec::new(self.alloc)));
        Ok(())
    }

    /// Appends an instruction of the current thread, and the event that executes it.
    pub fn step(&mut self, instruction: Instruction) -> Result<(), AllocError> {
        if self.program.len() == BATCH as usize {
            self.end_program()?;
        }
        self.program.push(instruction)?;
        self.events.push(Event::Step(self.thread))?;
        Ok(())
    }

    /// Puts entries into the slots from 0 on.
    pub fn put(&mut self, entries: &[Sqe]) -> Result<(), AllocError> {
        for (slot, entry) in (0..BATCH).zip(entries) {
            self.step(Instruction::Put(slot, *entry))?;
        }
        Ok(())
    }

    /// Pushes slots, and lets the poller take them.
    pub fn submit(&mut self, slots: &[u32]) -> Result<(), AllocError> {
        for slot in slots {
            self.step(Instruction::Push(*slot))?;
        }
        self.events.push(Event::Take(BATCH))?;
        Ok(())
    }

    /// Issues and completes a request.
    pub fn end_row(&mut self, row: u32) -> Result<(), AllocError> {
        self.events.push(Event::Issue(row))?;
        self.events.push(Event::Finish(row, Choice::Full))?;
        Ok(())
    }
}
