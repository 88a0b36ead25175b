//! The threads of the program: their code, and how far they have run.
ghost use Rattle.std.specs.Prelude.{◌≡◌, ◌<◌, ◌+◌, ◌^◌, IfOk, OnOk, Some, None, IsSome, length, slice_get, map};
ghost use Rattle.std.specs.Option.{option_copied};
ghost use Rattle.places.specs.Lists.{updated};
ghost use Rattle.places.specs.View.{Keeps, put_at};
ghost use Rattle.places.specs.declared.place.Place.{Place};
ghost use Rattle.places.specs.declared.value.Stage.TheVariants.{Ready};

use entries::Cqe;
use places::{At, Items, Part, Place, Recorder, Stage, Value};
use scenario::Instruction;
use std::alloc::{AllocError, Global};
use std::marker::Model;
use std::sync::Arc;

/// A thread.
#[derive(Drop)]
pub struct Thread {
    /// Never changes, so copies of the thread share it.
    program: Arc<Items<Instruction>>,
    counter: u32,
    stage: Stage,
    last: i64,
    got: Option<Cqe>,
}

impl Model for Thread {
    ghost use Rattle.std.specs.Arc.{arc_value};
    ghost use Rattle.machine.specs.Threads.{ThreadState};

    ghost Value = { ThreadState };

    ghost view = { λ a. record {
      program = arc_value a.program;
      counter = a.counter;
      stage = a.stage;
      last = a.last;
      got =
          a.got;
    } };
}

impl Thread {
    ghost use Rattle.machine.specs.Threads.{thread_start};

    /// Builds a thread at the start of its program.
    pub fn new(alloc: Global, program: Items<Instruction>) -> Result<Thread, AllocError>
        ensures { IfOk result (λ thread. thread ≡ thread_start program) }
    {
        Ok(Thread {
            program: Arc::new(alloc, program)?,
            counter: 0,
            stage: Stage::Ready,
            last: 0,
            got: None,
        })
    }

    /// Copies the thread. The copy shares the program.
    pub fn copy(&self) -> Result<Thread, AllocError>
        ensures { IfOk result (λ thread. thread ≡ self.now) }
    {
        Ok(Thread {
            program: Arc::try_clone(&self.program)?,
            counter: self.counter,
            stage: self.stage,
            last: self.last,
            got: self.got,
        })
    }

    /// Returns whether the thread is ready or waits in Enter.
    pub fn stage(&self) -> Stage
        ensures { result ≡ self.now.stage }
    {
        self.stage
    }

    /// Returns the next instruction, or none at the end of the program.
    pub fn next(&self) -> Option<&Instruction>
        ensures { option_copied result ≡ slice_get self.now.program self.now.counter }
    {
        self.program.as_slice().get(self.counter as usize)
    }
}

/// All threads of a run.
#[derive(Drop)]
pub struct Threads {
    threads: Vec<Thread>,
}

impl Model for Threads {
    ghost use Rattle.std.specs.Prelude.{List};
    ghost use Rattle.machine.specs.Threads.{ThreadState};

    ghost Value = { List ThreadState };

    ghost view = { λ a. a.threads.items };
}

impl At for Threads {
    ghost use Rattle.machine.specs.Threads.{threads_seen};

    ghost seen = { threads_seen };

    #[inline(always)]
    fn at(&self, place: Place) -> Option<Value> {
        match place {
            Place::ProgramCounter(t) => match self.threads.get(t as usize) {
                Some(thread) => Some(Value::Number(thread.counter as u64)),
                None => None,
            },
            Place::ThreadStage(t) => match self.threads.get(t as usize) {
                Some(thread) => Some(Value::Staged(thread.stage)),
                None => None,
            },
            Place::Last(t) => match self.threads.get(t as usize) {
                Some(thread) => Some(Value::Signed(thread.last)),
                None => None,
            },
            Place::Got(t) => match self.threads.get(t as usize) {
                Some(thread) => Some(Value::Reaped(thread.got)),
                None => None,
            },
            _ => None,
        }
    }

    fn number_at(&self, place: Place) -> Option<u64> {
        match place {
            Place::ProgramCounter(t) => match self.threads.get(t as usize) {
                Some(thread) => Some(thread.counter as u64),
                None => None,
            },
            _ => None,
        }
    }
}

impl Part for Threads {
    ghost use Rattle.machine.specs.Threads.{program_of, threads_owns, threads_seen, threads_can_put};

    ghost owns = { threads_owns };

    ghost can_put = { threads_can_put };

    fn put(&mut self, place: Place, value: Option<Value>)
        requires { threads_can_put self.old place value }
        ensures put { (q : Place)
            → threads_seen self.new q ≡ put_at (threads_seen self.old) place value q }
        ensures programs { map program_of self.new ≡ map program_of self.old }
    {
        match (place, value) {
            (Place::ProgramCounter(t), Some(Value::Number(n))) => {
                let thread = &mut self.threads[t as usize];
                thread.counter = n as u32;
            }
            (Place::ThreadStage(t), Some(Value::Staged(stage))) => {
                let thread = &mut self.threads[t as usize];
                thread.stage = stage;
            }
            (Place::Last(t), Some(Value::Signed(n))) => {
                let thread = &mut self.threads[t as usize];
                thread.last = n;
            }
            (Place::Got(t), Some(Value::Reaped(got))) => {
                let thread = &mut self.threads[t as usize];
                thread.got = got;
            }
            // `can_put` allows no other place, and any would be left alone.
            _ => {}
        }
    }
}

impl Threads {
    ghost use Rattle.machine.specs.Steps.{next_of};
    ghost use Rattle.machine.specs.Threads.{ThreadState, program_of, threads_owns, threads_seen, threads_can_put};
    ghost use Rattle.places.specs.declared.place.Place.TheVariants.{ProgramCounter};
    ghost use Rattle.places.specs.declared.value.Value.TheVariants.{Number};

    /// Sets the index of a thread's next instruction.
    pub(crate) fn put_counter(&mut self, t: u32, counter: u64)
        requires { threads_can_put self.old (ProgramCounter t) (Some (Number counter)) }
        ensures put { (q : Place) → threads_seen self.new q
            ≡ put_at (threads_seen self.old) (ProgramCounter t) (Some (Number counter)) q }
        ensures programs { map program_of self.new ≡ map program_of self.old }
    {
        let thread = &mut self.threads[t as usize];
        thread.counter = counter as u32;
    }

    /// Builds the list of threads.
    pub fn new(threads: Vec<Thread>) -> Threads
        ensures { result ≡ threads.items }
    {
        Threads { threads }
    }

    /// Copies the threads.
    pub fn copy(&self, alloc: Global) -> Result<Threads, AllocError>
        ensures { IfOk result (λ threads. threads ≡ self.now) }
    {
        let mut copies = Vec::new(alloc);
        for thread in &self.threads {
            copies.push(thread.copy()?)?;
        }
        Ok(Threads { threads: copies })
    }

    /// Returns a thread by its number.
    pub fn get(&self, t: u32) -> Option<&Thread>
        ensures { option_copied result ≡ slice_get self.now t }
    {
        self.threads.get(t as usize)
    }

    /// Returns the next instruction of a thread that has one.
    pub(crate) fn instruction(&self, t: u32) -> &Instruction
        requires { IsSome (next_of (slice_get self.now t)) }
        ensures { next_of (slice_get self.now t) ≡ Some result.now }
    {
        let thread = &self.threads[t as usize];
        &thread.program.as_slice()[thread.counter as usize]
    }

    /// Advances a thread to its next instruction.
    pub fn advance(&mut self, t: u32, notes: &mut Recorder) -> Result<(), AllocError>
        requires there { t < length self.old }
        requires can_advance { (x : ThreadState) → slice_get self.old t ≡ Some x
            → x.counter + 1 < 2 ^ 32 }
        ensures ok { OnOk result (self.new
            ≡ updated (λ x. record x { counter = x.counter + 1 }) self.old t) }
        ensures programs { map program_of self.new ≡ map program_of self.old }
        ensures keeps { Keeps threads_owns (threads_seen self.old)
            (threads_seen self.new) notes.old.made notes.new.made }
    {
        let thread = &mut self.threads[t as usize];
        notes.note_number(Place::ProgramCounter(t), thread.counter as u64)?;
        thread.counter += 1;
        Ok(())
    }

    // Sets the result of a thread's last Enter or Close.
    fn set_last(&mut self, t: u32, n: i64, notes: &mut Recorder) -> Result<(), AllocError>
        requires there { t < length self.old }
        ensures ok { OnOk result (self.new ≡ updated (λ x. record x { last = n }) self.old t) }
        ensures programs { map program_of self.new ≡ map program_of self.old }
        ensures keeps { Keeps threads_owns (threads_seen self.old)
            (threads_seen self.new) notes.old.made notes.new.made }
    {
        let thread = &mut self.threads[t as usize];
        notes.note(Place::Last(t), Some(Value::Signed(thread.last)))?;
        thread.last = n;
        Ok(())
    }

    // Sets the completion that a thread reaped last.
    fn set_got(&mut self, t: u32, completion: Cqe, notes: &mut Recorder) -> Result<(), AllocError>
        requires there { t < length self.old }
        ensures ok { OnOk result (self.new
            ≡ updated (λ x. record x { got = Some completion }) self.old t) }
        ensures programs { map program_of self.new ≡ map program_of self.old }
        ensures keeps { Keeps threads_owns (threads_seen self.old)
            (threads_seen self.new) notes.old.made notes.new.made }
    {
        let thread = &mut self.threads[t as usize];
        notes.note(Place::Got(t), Some(Value::Reaped(thread.got)))?;
        thread.got = Some(completion);
        Ok(())
    }

    /// Sets whether a thread is ready or waits.
    pub fn set_stage(
        &mut self,
        t: u32,
        stage: Stage,
        notes: &mut Recorder,
    ) -> Result<(), AllocError>
        requires there { t < length self.old }
        ensures ok { OnOk result (self.new ≡ updated (λ x. record x { stage = stage }) self.old t) }
        ensures programs { map program_of self.new ≡ map program_of self.old }
        ensures keeps { Keeps threads_owns (threads_seen self.old)
            (threads_seen self.new) notes.old.made notes.new.made }
    {
        let thread = &mut self.threads[t as usize];
        notes.note(Place::ThreadStage(t), Some(Value::Staged(thread.stage)))?;
        thread.stage = stage;
        Ok(())
    }

    /// Returns from a system call: sets the result, and advances the thread.
    pub fn answer(&mut self, t: u32, n: i64, notes: &mut Recorder) -> Result<(), AllocError>
        requires there { t < length self.old }
        requires can_advance { (x : ThreadState) → slice_get self.old t ≡ Some x
            → x.counter + 1 < 2 ^ 32 }
        ensures ok { OnOk result (self.new
            ≡ updated
            (λ x. record x { counter = x.counter + 1; last = n; stage = Ready }) self.old t) }
        ensures programs { map program_of self.new ≡ map program_of self.old }
        ensures keeps { Keeps threads_owns (threads_seen self.old)
            (threads_seen self.new) notes.old.made notes.new.made }
    {
        self.advance(t, notes)?;
        self.set_last(t, n, notes)?;
        self.be_ready(t, notes)
    }

    // Makes a thread that waited ready.
    fn be_ready(&mut self, t: u32, notes: &mut Recorder) -> Result<(), AllocError>
        requires there { t < length self.old }
        ensures ok { OnOk result (self.new ≡ updated (λ x. record x { stage = Ready }) self.old t) }
        ensures programs { map program_of self.new ≡ map program_of self.old }
        ensures keeps { Keeps threads_owns (threads_seen self.old)
            (threads_seen self.new) notes.old.made notes.new.made }
    {
        match self.threads[t as usize].stage {
            Stage::Ready => Ok(()),
            Stage::Waiting(_, _) => self.set_stage(t, Stage::Ready, notes),
        }
    }

    /// Hands a completion to a thread that reaps, and advances the thread.
    pub fn deliver(
        &mut self,
        t: u32,
        completion: Cqe,
        notes: &mut Recorder,
    ) -> Result<(), AllocError>
        requires there { t < length self.old }
        requires can_advance { (x : ThreadState) → slice_get self.old t ≡ Some x
            → x.counter + 1 < 2 ^ 32 }
        ensures ok { OnOk result (self.new
            ≡ updated (λ x. record x { counter = x.counter + 1; got = Some completion })
            self.old t) }
        ensures programs { map program_of self.new ≡ map program_of self.old }
        ensures keeps { Keeps threads_owns (threads_seen self.old)
            (threads_seen self.new) notes.old.made notes.new.made }
    {
        self.advance(t, notes)?;
        self.set_got(t, completion, notes)
    }
}
