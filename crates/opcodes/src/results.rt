//! The results of issued requests (read(2), write(2), fsync(2), poll(2)).
ghost use Rattle.std.specs.Prelude.{◌≡◌, ◌+◌, ◌<◌, ◌≤◌, ℕ, pos, negsuc, IfSome, IsSome, Some, false};
ghost use Rattle.model_files.specs.Ends.{mask_of_descriptor};
ghost use Rattle.model_files.specs.Holders.{is_held};
ghost use Rattle.model_files.specs.Worlds.{StockFits, WorldFormed, WorldState, descriptor_of, file_of, number_at};
ghost use Rattle.opcodes.specs.Check.{op_of};
ghost use Rattle.opcodes.specs.Effects.{bytes_read, bytes_written, effected, CanMove, Decides};
ghost use Rattle.opcodes.specs.Outcomes.{outcome_of, held_descriptor, stock_at, position_of, has_writer_at, has_reader_at, fixed, transferred, passes_memory, is_at_position, is_bad_offset, offset_of, event_written, file_synced, file_read, file_written, fsync_outcome, poll_outcome, read_outcome, write_outcome};
ghost use Rattle.opcodes.specs.declared.effect.Effect.TheVariants.{AddEvent, Nothing, ReadFile, WriteFile};
ghost use Rattle.opcodes.specs.declared.ending.Outcome.TheVariants.{Res};
ghost use Rattle.opcodes.specs.declared.op.Op.TheVariants.{Fsync, Read, Write};

use crate::effect::{Effect, Transfer};
use crate::ending::Outcome;
use crate::op::Op;
use crate::streams::{event_read, event_written, pipe_read, pipe_written};
use entries::{Choice, EFAULT, EFBIG, EINVAL, EIO, Row, Sqe};
use model_files::{DescriptorState, Held, Stock, World};

/// Returns the outcome of an issued request for a choice of the kernel. Allocates nothing. Not for
/// cancels, removals and timeouts, for which it returns `BadChoice`.
pub fn outcome(world: &World, held: &Held, row: &Row, choice: Choice) -> Outcome
    ensures { result ≡ outcome_of (is_held held.now) world.now row.now choice }
{
    outcome_and_effect(world, held, row, choice).0
}

/// Returns the outcome as `outcome` does, and what the request does if it completes so.
pub fn outcome_and_effect(
    world: &World,
    held: &Held,
    row: &Row,
    choice: Choice,
) -> (Outcome, Effect)
    ensures outcome { result.0 ≡ outcome_of (is_held held.now) world.now row.now choice }
    ensures effect { Decides world.now row.now result.0 result.1 }
{
    let (entry, descriptor) = (&row.entry, held_descriptor(world, row));
    match Op::from_opcode(entry.opcode) {
        Some(Op::Nop) => (fixed(0, choice), Effect::Nothing),
        Some(Op::Fsync) => sync(world, row, descriptor, choice),
        Some(Op::PollAdd) => {
            let mask = mask_of_descriptor(world, held, row);
            (poll_outcome(entry, mask, choice), Effect::Nothing)
        }
        Some(Op::Read | Op::Write) if passes_memory(entry) => {
            (fixed(-EFAULT, choice), Effect::Nothing)
        }
        Some(Op::Read) => read(world, held, row, descriptor, choice),
        Some(Op::Write) => write(world, held, row, descriptor, choice),
        _ => (Outcome::BadChoice, Effect::Nothing),
    }
}

/// Returns the descriptor that a request holds.
pub(crate) fn held_descriptor(world: &World, row: &Row) -> Option<DescriptorState>
    ensures { result ≡ held_descriptor world.now row.now }
{
    match row.held {
        Some(fd) => world.descriptor(fd),
        None => None,
    }
}

/// Returns the poll(2) events for which the object of a request's descriptor is ready.
fn mask_of_descriptor(world: &World, held: &Held, row: &Row) -> u32
    ensures mask { result ≡ mask_of_descriptor (is_held held.now) world.now
        (held_descriptor world.now row.now) }
    ensures few { result < 32 }
{
    match row.held {
        Some(fd) => world.ready_mask(fd, held),
        None => 0,
    }
}

/// Returns the file position of a descriptor, or 0 if it has none.
fn position_of(descriptor: Option<DescriptorState>) -> u64
    ensures { result ≡ position_of descriptor }
{
    match descriptor {
        Some(descriptor) => descriptor.position.unwrap_or(0),
        None => 0,
    }
}

/// Returns how much the descriptor's object holds.
pub(crate) fn stock_at(world: &World, descriptor: Option<DescriptorState>) -> Option<Stock>
    ensures value { result ≡ stock_at world.now descriptor }
    ensures fits { IfSome result StockFits }
{
    match descriptor {
        Some(descriptor) => world.stock(descriptor.object),
        None => None,
    }
}

/// Returns a result for which the kernel has no other choice than `Full`.
pub(crate) fn fixed(res: i32, choice: Choice) -> Outcome
    ensures { result ≡ fixed res choice }
{
    match choice {
        Choice::Full => Outcome::Res(res),
        _ => Outcome::BadChoice,
    }
}

fn transferred(count: u32, choice: Choice) -> Outcome
    requires { count ≤ 65536 }
    ensures { result ≡ transferred count choice }
{
    match choice {
        Choice::Full => Outcome::Res(count as i32),
        Choice::Short(n) if 0 < n && n < count => Outcome::Res(n as i32),
        Choice::Short(_) => Outcome::BadChoice,
        Choice::Eio => Outcome::Res(-EIO),
    }
}

/// Returns whether the entry's buffer exceeds the memory.
fn passes_memory(entry: &Sqe) -> bool
    ensures value { result ≡ passes_memory entry.now }
    ensures within { result ≡ false → entry.now.addr + entry.now.len ≤ 65536 }
{
    u128::from(entry.addr) + u128::from(entry.len) > 65536
}

/// Returns whether a transfer uses the file position.
fn is_at_position(entry: &Sqe) -> bool
    ensures { result ≡ is_at_position entry.now }
{
    entry.off == u64::MAX
}

fn is_bad_offset(entry: &Sqe) -> bool
    ensures { result ≡ is_bad_offset entry.now }
{
    entry.off >= 1 << 63 && !is_at_position(entry)
}

/// Returns the offset at which a transfer begins.
fn offset_of(entry: &Sqe, position: u64) -> u64
    ensures { result ≡ offset_of entry.now position }
{
    if is_at_position(entry) {
        position
    } else {
        entry.off
    }
}

// An FSYNC.
fn sync(
    world: &World,
    row: &Row,
    descriptor: Option<DescriptorState>,
    choice: Choice,
) -> (Outcome, Effect)
    requires op { op_of row.now.entry.opcode ≡ Some Fsync }
    requires held { descriptor ≡ held_descriptor world.now row.now }
    ensures outcome { result.0 ≡ fsync_outcome (stock_at world.now descriptor) choice }
    ensures effect { Decides world.now row.now result.0 result.1 }
{
    let Some(descriptor) = descriptor else {
        return (Outcome::BadChoice, Effect::Nothing);
    };
    match world.stock(descriptor.object) {
        Some(Stock::File(_)) => {
            let outcome = file_synced(choice);
            match outcome.count() {
                Some(_) => (outcome, Effect::SyncFile(descriptor.object)),
                None => (outcome, Effect::Nothing),
            }
        }
        Some(_) => (fixed(-EINVAL, choice), Effect::Nothing),
        None => (Outcome::BadChoice, Effect::Nothing),
    }
}

fn file_synced(choice: Choice) -> Outcome
    ensures { result ≡ file_synced choice }
{
    match choice {
        Choice::Full => Outcome::Res(0),
        Choice::Eio => Outcome::Res(-EIO),
        Choice::Short(_) => Outcome::BadChoice,
    }
}

/// Returns the outcome of a POLL_ADD. POLLERR (8) and POLLHUP (16) are always reported.
fn poll_outcome(entry: &Sqe, mask: u32, choice: Choice) -> Outcome
    requires { mask < 32 }
    ensures { result ≡ poll_outcome entry.now mask choice }
{
    let ready = mask & (entry.operation_flags | 24);
    if ready == 0 {
        return Outcome::Waits;
    }
    fixed(ready as i32, choice)
}

// A READ whose buffer is within the memory.
#[tactic(auto, using(crate::proofs::Nothing::bytes_read_nothing))]
fn read(
    world: &World,
    held: &Held,
    row: &Row,
    descriptor: Option<DescriptorState>,
    choice: Choice,
) -> (Outcome, Effect)
    requires op { op_of row.now.entry.opcode ≡ Some Read }
    requires within { row.now.entry.addr + row.now.entry.len ≤ 65536 }
    requires held { descriptor ≡ held_descriptor world.now row.now }
    ensures outcome { result.0 ≡ read_outcome row.now.entry (position_of descriptor)
        (has_writer_at (is_held held.now) world.now descriptor)
        (stock_at world.now descriptor) choice }
    ensures effect { Decides world.now row.now result.0 result.1 }
{
    let entry = &row.entry;
    let (Some(fd), Some(descriptor)) = (row.held, descriptor) else {
        return (Outcome::BadChoice, Effect::Nothing);
    };
    let (object, address) = (descriptor.object, entry.addr as u32);
    match world.stock(object) {
        Some(Stock::File(size)) => {
            let outcome = file_read(entry, position_of(Some(descriptor)), size, choice);
            match outcome.count() {
                Some(0) | None => (outcome, Effect::Nothing),
                Some(n) => (
                    outcome,
                    Effect::ReadFile(transfer(entry, fd, &descriptor, n)),
                ),
            }
        }
        Some(Stock::Pipe(filled, _)) => {
            let outcome = pipe_read(entry.len, world.has_writer(object, held), filled, choice);
            match outcome.count() {
                Some(0) | None => (outcome, Effect::Nothing),
                Some(count) => (
                    outcome,
                    Effect::TakePipe {
                        object,
                        count,
                        address,
                    },
                ),
            }
        }
        Some(Stock::EventFd(counter)) => {
            let outcome = event_read(entry.len, counter, choice);
            match outcome.count() {
                Some(_) => (outcome, Effect::ClearEvent { object, address }),
                None => (outcome, Effect::Nothing),
            }
        }
        None => (Outcome::BadChoice, Effect::Nothing),
    }
}

// A WRITE whose buffer is within the memory.
fn write(
    world: &World,
    held: &Held,
    row: &Row,
    descriptor: Option<DescriptorState>,
    choice: Choice,
) -> (Outcome, Effect)
    requires op { op_of row.now.entry.opcode ≡ Some Write }
    requires within { row.now.entry.addr + row.now.entry.len ≤ 65536 }
    requires held { descriptor ≡ held_descriptor world.now row.now }
    ensures outcome { result.0 ≡ write_outcome row.now.entry (position_of descriptor)
        (has_reader_at (is_held held.now) world.now descriptor)
        (number_at world.now row.now.entry.addr)
        (stock_at world.now descriptor) choice }
    ensures effect { Decides world.now row.now result.0 result.1 }
{
    let entry = &row.entry;
    let (Some(fd), Some(descriptor)) = (row.held, descriptor) else {
        return (Outcome::BadChoice, Effect::Nothing);
    };
    let (object, address) = (descriptor.object, entry.addr as u32);
    match world.stock(object) {
        Some(Stock::File(_)) => {
            let outcome = file_written(entry, position_of(Some(descriptor)), choice);
            match outcome.count() {
                Some(0) | None => (outcome, Effect::Nothing),
                Some(n) => (
                    outcome,
                    Effect::WriteFile(transfer(entry, fd, &descriptor, n)),
                ),
            }
        }
        Some(Stock::Pipe(filled, capacity)) => {
            let reader = world.has_reader(object, held);
            let outcome = pipe_written(entry.len, reader, filled, capacity, choice);
            match outcome.count() {
                Some(0) | None => (outcome, Effect::Nothing),
                Some(count) => (
                    outcome,
                    Effect::PutPipe {
                        object,
                        count,
                        address,
                    },
                ),
            }
        }
        Some(Stock::EventFd(counter)) => add(world, entry, object, counter, choice),
        None => (Outcome::BadChoice, Effect::Nothing),
    }
}

// A WRITE to an eventfd.
fn add(world: &World, entry: &Sqe, object: u32, counter: u64, choice: Choice) -> (Outcome, Effect)
    requires within { entry.now.addr + entry.now.len ≤ 65536 }
    ensures outcome { result.0 ≡ event_written entry.now.len counter
        (number_at world.now entry.now.addr) choice }
    ensures effect { (k : ℕ) → result.0 ≡ Res (pos k)
        → (result.1 ≡ AddEvent object (number_at world.now entry.now.addr)) }
    ensures failing { (n : ℕ) → result.0 ≡ Res (negsuc n) → result.1 ≡ Nothing }
{
    if entry.len < 8 {
        return (fixed(-EINVAL, choice), Effect::Nothing);
    }
    let number = world.number_at(entry.addr as u32);
    let outcome = event_written(counter, number, choice);
    match outcome.count() {
        Some(_) => (outcome, Effect::AddEvent { object, number }),
        None => (outcome, Effect::Nothing),
    }
}

// A transfer of bytes between a file and memory.
fn transfer(entry: &Sqe, fd: u32, descriptor: &DescriptorState, count: u32) -> Transfer
    requires in_file { offset_of entry.now (position_of (Some descriptor.now)) + count ≤ 65536 }
    requires in_memory { entry.now.addr + count ≤ 65536 }
    ensures read { (w : WorldState) → effected (ReadFile result) w
        ≡ bytes_read entry.now fd descriptor.now count w }
    ensures written { (w : WorldState) → effected (WriteFile result) w
        ≡ bytes_written entry.now fd descriptor.now count w }
    ensures can { (w : WorldState) → WorldFormed w → descriptor_of w fd ≡ Some descriptor.now
        → IsSome (file_of w descriptor.now.object) → CanMove w result }
{
    let offset = offset_of(entry, position_of(Some(*descriptor)));
    let moves = match descriptor.position {
        Some(position) if is_at_position(entry) => Some((fd, position + u64::from(count))),
        _ => None,
    };
    Transfer {
        object: descriptor.object,
        offset: offset as u32,
        count,
        address: entry.addr as u32,
        moves,
    }
}

fn file_read(entry: &Sqe, position: u64, len: u32, choice: Choice) -> Outcome
    requires { len ≤ 65536 }
    ensures { result ≡ file_read entry.now position len choice }
{
    if is_bad_offset(entry) {
        return fixed(-EINVAL, choice);
    }
    let rest = u64::from(len).saturating_sub(offset_of(entry, position)) as u32;
    transferred(rest.min(entry.len), choice)
}

fn file_written(entry: &Sqe, position: u64, choice: Choice) -> Outcome
    ensures { result ≡ file_written entry.now position choice }
{
    if is_bad_offset(entry) {
        return fixed(-EINVAL, choice);
    }
    if entry.len == 0 {
        return fixed(0, choice);
    }
    let offset = offset_of(entry, position);
    if offset >= 65536 {
        return fixed(-EFBIG, choice);
    }
    transferred((65536 - offset as u32).min(entry.len), choice)
}
