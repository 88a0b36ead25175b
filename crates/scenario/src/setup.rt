//! Setups, from which runs start.
ghost use Rattle.std.specs.Prelude.{◌≡◌, IfOk};
ghost use Rattle.scenario.specs.Programs.{HasWidths};

use entries::Sqe;
use places::{Contents, Descriptor, Items, Object};
use std::alloc::{AllocError, Global};

/// An instruction, which a thread executes in one step.
#[derive(Drop)]
pub enum Instruction {
    /// Writes an entry into a slot.
    Put(u32, Sqe),
    /// Writes an index at the tail of the submission ring, and advances the tail.
    Push(u32),
    /// Stores at most 4,096 bytes in memory at an address.
    Store(u32, Items<u8>),
    /// Calls io_uring_enter(2).
    Enter {
        to_submit: u32,
        min_complete: u32,
        flags: u32,
    },
    /// Takes the oldest completion from the ring.
    Reap,
    /// Calls close(2) on a descriptor.
    Close(i32),
}

/// The start of a run: ring sizes, memory, objects, descriptors and programs.
pub struct Setup {
    /// Submission entries, 1 to 4,096, rounded up to a power of two.
    pub entries: u32,
    /// Completion entries, 1 to 8,192, also rounded up. The default is twice the size of the
    /// submission ring.
    pub cq: Option<u32>,
    /// Whether a kernel thread polls the submission ring (IORING_SETUP_SQPOLL).
    pub sqpoll: bool,
    /// Whether a submission continues after an entry that fails (IORING_SETUP_SUBMIT_ALL).
    pub submit_all: bool,
    /// The initial value of the heads and tails of both rings.
    pub base: u32,
    /// The memory from address 0 on, at most 65,536 bytes; the rest is zeros.
    pub memory: Items<u8>,
    /// At most 32.
    pub objects: Items<Object>,
    /// At most 64, numbered from 3.
    pub fds: Items<Descriptor>,
    /// The threads' programs: at most 16, of at most 4,096 instructions each.
    pub threads: Items<Items<Instruction>>,
}

// Written by hand, so that dropping it is one step of a proof.
impl Drop for Setup {
    fn drop(self) {
        let Setup {
            entries: _,
            cq: _,
            sqpoll: _,
            submit_all: _,
            base: _,
            memory: _,
            objects: _,
            fds: _,
            threads: _,
        } = self;
    }
}

/// Why a run can't start from a setup. The checks have this order.
#[derive(Clone, Copy, Debug)]
pub enum SetupRefusal {
    /// The size of a ring is out of its range.
    RingSize = 1,
    /// Another value is out of its range.
    Limit = 2,
    Memory = 3,
}

const _: () = prove!(SetupRefusal::RingSize as u32 == 1);

const _: () = prove!(SetupRefusal::Limit as u32 == 2);

const _: () = prove!(SetupRefusal::Memory as u32 == 3);

impl Setup {
    /// Returns a copy.
    pub fn copy(&self, alloc: Global) -> Result<Setup, AllocError>
        ensures { IfOk result (λ copy. copy ≡ self.now) }
    {
        Ok(Setup {
            entries: self.entries,
            cq: self.cq,
            sqpoll: self.sqpoll,
            submit_all: self.submit_all,
            base: self.base,
            memory: self.memory.copy(alloc)?,
            objects: copy_objects(alloc, self.objects.as_slice())?,
            fds: self.fds.copy(alloc)?,
            threads: copy_threads(alloc, self.threads.as_slice())?,
        })
    }
}

impl Instruction {
    /// Returns a copy.
    pub fn copy(&self, alloc: Global) -> Result<Instruction, AllocError>
        ensures same { IfOk result (λ copy. copy ≡ self.now) }
        ensures widths { HasWidths self.now }
    {
        Ok(match self {
            Instruction::Put(slot, entry) => Instruction::Put(*slot, *entry),
            Instruction::Push(index) => Instruction::Push(*index),
            Instruction::Store(address, bytes) => Instruction::Store(*address, bytes.copy(alloc)?),
            Instruction::Enter {
                to_submit,
                min_complete,
                flags,
            } => Instruction::Enter {
                to_submit: *to_submit,
                min_complete: *min_complete,
                flags: *flags,
            },
            Instruction::Reap => Instruction::Reap,
            Instruction::Close(fd) => Instruction::Close(*fd),
        })
    }
}

fn copy_threads(
    alloc: Global,
    threads: &[Items<Instruction>],
) -> Result<Items<Items<Instruction>>, AllocError>
    ensures { IfOk result (λ copy. copy ≡ threads.now) }
{
    let mut copies = Vec::new(alloc);
    for program in threads {
        copies.push(copy_program(alloc, program.as_slice())?)?;
    }
    Ok(Items::from_vec(copies))
}

fn copy_program(alloc: Global, program: &[Instruction]) -> Result<Items<Instruction>, AllocError>
    ensures { IfOk result (λ copy. copy ≡ program.now) }
{
    let mut copies = Vec::with_capacity(alloc, program.len())?;
    for instruction in program {
        copies.push(instruction.copy(alloc)?)?;
    }
    Ok(Items::from_vec(copies))
}

fn copy_objects(alloc: Global, objects: &[Object]) -> Result<Items<Object>, AllocError>
    ensures { IfOk result (λ copy. copy ≡ objects.now) }
{
    let mut copies = Vec::new(alloc);
    for object in objects {
        copies.push(copy_object(alloc, object)?)?;
    }
    Ok(Items::from_vec(copies))
}

fn copy_object(alloc: Global, object: &Object) -> Result<Object, AllocError>
    ensures { IfOk result (λ copy. copy ≡ object.now) }
{
    Ok(Object {
        name: object.name.copy(alloc)?,
        contents: copy_contents(alloc, &object.contents)?,
    })
}

fn copy_contents(alloc: Global, contents: &Contents) -> Result<Contents, AllocError>
    ensures { IfOk result (λ copy. copy ≡ contents.now) }
{
    Ok(match contents {
        Contents::File(bytes) => Contents::File(bytes.copy(alloc)?),
        Contents::Pipe(capacity) => Contents::Pipe(*capacity),
        Contents::EventFd(counter) => Contents::EventFd(*counter),
    })
}
