//! What completed requests do to memory, objects and descriptors (read(2), write(2), fsync(2),
//! pipe(7), eventfd(2)).
ghost use Rattle.std.specs.Prelude.{◌≡◌, ◌+◌, ◌-◌, ◌^◌, ◌<◌, ◌≤◌, ℕ, OnOk, OnErr, IsOk, None, Some};
ghost use Rattle.places.specs.View.{Keeps, named};
ghost use Rattle.places.specs.declared.place.Place.{Place};
ghost use Rattle.model_files.specs.Worlds.{world_owns, world_seen, WorldFormed};
ghost use Rattle.opcodes.specs.Effects.{effected, positioned, CanCarry, HasPosition};
ghost use Rattle.opcodes.specs.declared.effect.Effect.TheVariants.{ReadFile, WriteFile};

use model_files::World;
use places::Recorder;
use std::alloc::AllocError;

/// What a completed request does to memory, objects and descriptors.
#[derive(Clone, Copy)]
pub enum Effect {
    /// Nothing changes.
    Nothing,
    /// A file becomes durable.
    SyncFile(u32),
    /// Bytes of a file are read into memory.
    ReadFile(Transfer),
    /// Bytes of memory are written to a file.
    WriteFile(Transfer),
    /// The oldest bytes of a pipe move to memory.
    TakePipe {
        /// The number of the pipe.
        object: u32,
        /// How many bytes move.
        count: u32,
        /// Where they begin in memory.
        address: u32,
    },
    /// Bytes of memory are written to a pipe.
    PutPipe {
        /// The number of the pipe.
        object: u32,
        /// How many bytes are written.
        count: u32,
        /// Where they begin in memory.
        address: u32,
    },
    /// The counter of an eventfd is read into memory, and reset to 0.
    ClearEvent {
        /// The number of the eventfd.
        object: u32,
        /// Where its eight bytes begin in memory.
        address: u32,
    },
    /// A number is added to the counter of an eventfd.
    AddEvent {
        /// The number of the eventfd.
        object: u32,
        /// What is added.
        number: u64,
    },
}

/// A transfer of bytes between a file and memory.
#[derive(Clone, Copy)]
pub struct Transfer {
    /// The number of the file.
    pub object: u32,
    /// Where the bytes begin in the file.
    pub offset: u32,
    /// How many there are.
    pub count: u32,
    /// Where they begin in memory.
    pub address: u32,
    /// The descriptor whose file position changes, and its new position.
    pub moves: Option<(u32, u64)>,
}

/// Carries out an effect. If an allocation fails, the world is unchanged.
pub fn carry_out(world: &mut World, effect: Effect, notes: &mut Recorder) -> Result<(), AllocError>
    requires formed { WorldFormed world.old }
    requires can { CanCarry world.old effect }
    requires fresh { (p : Place) → named notes.old.made p ≡ None }
    ensures ok { OnOk result (world.new ≡ effected effect world.old) }
    ensures err { OnErr result (world.new ≡ world.old) }
    ensures keeps { Keeps world_owns (world_seen world.old)
        (world_seen world.new) notes.old.made notes.new.made }
{
    match effect {
        Effect::Nothing => Ok(()),
        Effect::SyncFile(object) => world.sync(object, notes),
        Effect::ReadFile(transfer) => read_bytes(world, &transfer, notes),
        Effect::WriteFile(transfer) => write_bytes(world, &transfer, notes),
        Effect::TakePipe {
            object,
            count,
            address,
        } => world.take_pipe(object, count, address, notes),
        Effect::PutPipe {
            object,
            count,
            address,
        } => world.put_pipe(object, count, address, notes),
        Effect::ClearEvent { object, address } => world.clear_event(object, address, notes),
        Effect::AddEvent { object, number } => world.add_event(object, number, notes),
    }
}

// Reads bytes of a file into memory.
#[tactic(auto, using(crate::proofs::Moving::moves))]
fn read_bytes(
    world: &mut World,
    transfer: &Transfer,
    notes: &mut Recorder,
) -> Result<(), AllocError>
    requires can { CanCarry world.old (ReadFile transfer.now) }
    requires fresh { (p : Place) → named notes.old.made p ≡ None }
    ensures ok { OnOk result (world.new ≡ effected (ReadFile transfer.now) world.old) }
    ensures err { OnErr result (world.new ≡ world.old) }
    ensures keeps { Keeps world_owns (world_seen world.old)
        (world_seen world.new) notes.old.made notes.new.made }
{
    // One note: the file position.
    notes.room_for_numbers(1)?;
    world.read_at(
        transfer.object,
        transfer.offset,
        transfer.count,
        transfer.address,
        notes,
    )?;
    move_on(world, transfer.moves, notes)
}

// Writes bytes of memory to a file.
#[tactic(auto, using(crate::proofs::Transferring::file_there, crate::proofs::Moving::moves))]
fn write_bytes(
    world: &mut World,
    transfer: &Transfer,
    notes: &mut Recorder,
) -> Result<(), AllocError>
    requires formed { WorldFormed world.old }
    requires can { CanCarry world.old (WriteFile transfer.now) }
    requires fresh { (p : Place) → named notes.old.made p ≡ None }
    ensures ok { OnOk result (world.new ≡ effected (WriteFile transfer.now) world.old) }
    ensures err { OnErr result (world.new ≡ world.old) }
    ensures keeps { Keeps world_owns (world_seen world.old)
        (world_seen world.new) notes.old.made notes.new.made }
{
    // Two notes: the file position and the length of the file.
    notes.room_for_numbers(2)?;
    world.write_at(
        transfer.object,
        transfer.offset,
        transfer.count,
        transfer.address,
        notes,
    )?;
    move_on(world, transfer.moves, notes)
}

// Sets the file position of a descriptor, if one is given.
fn move_on(
    world: &mut World,
    moves: Option<(u32, u64)>,
    notes: &mut Recorder,
) -> Result<(), AllocError>
    requires there { (m : ℕ × ℕ) → moves ≡ Some m → HasPosition world.old m.0 }
    ensures ok { OnOk result (world.new ≡ positioned moves world.old) }
    ensures there { 0 < notes.old.numbers → IsOk result }
    ensures keeps { Keeps world_owns (world_seen world.old)
        (world_seen world.new) notes.old.made notes.new.made }
{
    match moves {
        Some((fd, position)) => world.set_position(fd, position, notes),
        None => Ok(()),
    }
}
