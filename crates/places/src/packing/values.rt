//! Values as lists of numbers, and back. An optional number is encoded as 0 if it is absent,
//! and as n + 1 if it is n.
ghost use Rattle.std.specs.Prelude.{◌≡◌, ◌<◌, ◌%◌, ◌++◌, ℕ, length, drop, slice_index, Some, IfSome};
ghost use Rattle.byteorder.specs.Endian.{little_bytes, little_number};
ghost use Rattle.compact_size.specs.CompactSizes.{number_of, after, after_many};
ghost use Rattle.places.specs.declared.value.Value.TheVariants.{Signed, Entry, Completed, Requested, Staged, Reaped, Awake};
ghost use Rattle.places.specs.Packed.{option_number, option_from, word_from, phase_number, phase_from, completion_of, entry_of, row_of, stage_of, reaped_of, Spells};

use crate::value::Stage;
use byteorder::{ByteOrder, LittleEndian};
use compact_size::CompactSizes;
use entries::{Cqe, Phase, Row, Sqe};

// Encodes a time in nanoseconds; returns `None` if it is 2^64 - 1 or more.
fn time_number(time: Option<u128>) -> Option<u64>
    ensures { IfSome result (λ n. n ≡ option_number time) }
{
    match time {
        None => Some(0),
        Some(time) => u64::try_from(time).ok()?.checked_add(1),
    }
}

fn index_number(index: Option<u32>) -> u64
    ensures number { result ≡ option_number index }
    ensures again { word_from result ≡ index }
{
    match index {
        None => 0,
        Some(index) => index as u64 + 1,
    }
}

fn phase_number(phase: Phase) -> u64
    ensures number { result ≡ phase_number phase }
    ensures again { phase_from result ≡ phase }
{
    match phase {
        Phase::Queued => 0,
        Phase::Issued => 1,
        Phase::Ended(result) => result.cast_unsigned() as u64 + 2,
    }
}

fn time_from(number: u64) -> Option<u128>
    ensures { result ≡ option_from number }
{
    number.checked_sub(1).map(u128::from)
}

fn index_from(number: u64) -> Option<u32>
    ensures { result ≡ word_from number }
{
    if number == 0 {
        None
    } else {
        Some(((number - 1) % 4_294_967_296) as u32)
    }
}

fn phase_from(number: u64) -> Phase
    ensures { result ≡ phase_from number }
{
    match number {
        0 => Phase::Queued,
        1 => Phase::Issued,
        _ => Phase::Ended((((number - 2) % 4_294_967_296) as u32).cast_signed()),
    }
}

/// Returns the numbers of a signed number.
pub fn signed_numbers(number: i64) -> [u64; 1]
    ensures { Spells 2 result (Signed number) }
{
    [number.cast_unsigned()]
}

/// Returns the numbers of a completion.
pub fn completion_numbers(completion: Cqe) -> [u64; 3]
    ensures { Spells 4 result (Completed completion) }
{
    [
        completion.user_data,
        completion.res.cast_unsigned() as u64,
        completion.flags as u64,
    ]
}

/// Splits 16 bytes into two little-endian numbers.
fn halves_of(rest: &[u8]) -> (u64, u64)
    requires { length rest.now ≡ 16 }
    ensures first { result.0 ≡ little_number 8 rest.now }
    ensures second { result.1 ≡ little_number 8 (drop 8 rest.now) }
    ensures bytes { (k : ℕ) → slice_index rest.now k < 256 }
{
    (
        LittleEndian::read_u64(rest),
        LittleEndian::read_u64(&rest[8..]),
    )
}

/// Returns the numbers of an entry.
pub fn entry_numbers(entry: Sqe) -> [u64; 14]
    ensures { Spells 3 result (Entry entry) }
{
    let (first, second) = halves_of(&entry.rest);
    [
        entry.user_data,
        entry.opcode as u64,
        entry.fd.cast_unsigned() as u64,
        entry.len as u64,
        entry.addr,
        entry.off,
        entry.flags as u64,
        entry.operation_flags as u64,
        entry.ioprio as u64,
        entry.buf_index as u64,
        entry.personality as u64,
        entry.splice_fd_in.cast_unsigned() as u64,
        first,
        second,
    ]
}

/// Returns the numbers of a row, or `None` if a time is 2^64 - 1 nanoseconds or more.
pub fn row_numbers(row: Row) -> Option<[u64; 21]>
    ensures { IfSome result (λ ns. Spells 5 ns (Requested row)) }
{
    let entry = row.entry;
    let (first, second) = halves_of(&entry.rest);
    let time = time_number(row.time)?;
    let deadline = time_number(row.deadline)?;
    Some([
        row.unit as u64,
        phase_number(row.phase),
        entry.user_data,
        entry.opcode as u64,
        entry.fd.cast_unsigned() as u64,
        entry.len as u64,
        entry.addr,
        entry.off,
        entry.flags as u64,
        entry.operation_flags as u64,
        entry.ioprio as u64,
        entry.buf_index as u64,
        entry.personality as u64,
        entry.splice_fd_in.cast_unsigned() as u64,
        first,
        second,
        index_number(row.held),
        row.base as u64,
        time,
        deadline,
        index_number(row.target),
    ])
}

/// Returns the numbers of a stage.
pub fn stage_numbers(stage: Stage) -> [u64; 2]
    ensures { Spells 6 result (Staged stage) }
{
    match stage {
        Stage::Ready => [0, 0],
        Stage::Waiting(submitted, needed) => [submitted as u64 + 1, needed as u64],
    }
}

/// Returns the numbers of the last reaped completion: 1 and its own, or zeros if there is none.
pub fn reaped_numbers(reaped: Option<Cqe>) -> [u64; 4]
    ensures { Spells 7 result (Reaped reaped) }
{
    match reaped {
        None => [0; 4],
        Some(completion) => [
            1,
            completion.user_data,
            completion.res.cast_unsigned() as u64,
            completion.flags as u64,
        ],
    }
}

/// Returns the number of whether the poller is awake.
pub fn awake_numbers(awake: bool) -> [u64; 1]
    ensures { Spells 8 result (Awake awake) }
{
    if awake { [1] } else { [0] }
}

/// Reads a completion.
pub fn read_completion(bytes: &mut CompactSizes<'_>) -> Cqe
    ensures value { result ≡ completion_of bytes.old }
    ensures left { bytes.new ≡ after_many 3 bytes.old }
{
    Cqe {
        user_data: bytes.number(),
        res: bytes.signed(),
        flags: bytes.word(),
    }
}

/// Reads an entry.
#[tactic(auto, unfolding(crate::specs::Packed::entry_of))]
pub fn read_entry(bytes: &mut CompactSizes<'_>) -> Sqe
    ensures value { result ≡ entry_of bytes.old }
    ensures left { bytes.new ≡ after_many 14 bytes.old }
{
    Sqe {
        user_data: bytes.number(),
        opcode: bytes.byte(),
        fd: bytes.signed(),
        len: bytes.word(),
        addr: bytes.number(),
        off: bytes.number(),
        flags: bytes.byte(),
        operation_flags: bytes.word(),
        ioprio: bytes.half(),
        buf_index: bytes.half(),
        personality: bytes.half(),
        splice_fd_in: bytes.signed(),
        rest: read_rest(bytes),
    }
}

fn read_rest(bytes: &mut CompactSizes<'_>) -> [u8; 16]
    ensures value { result ≡ little_bytes 8 (number_of bytes.old)
        ++ little_bytes 8 (number_of (after bytes.old)) }
    ensures left { bytes.new ≡ after_many 2 bytes.old }
{
    let first = bytes.number();
    let second = bytes.number();
    let mut rest = [0; 16];
    LittleEndian::write_u64(&mut rest, first);
    LittleEndian::write_u64(&mut rest[8..], second);
    rest
}

/// Reads a row.
#[tactic(auto, unfolding(crate::specs::Packed::row_of))]
pub fn read_row(bytes: &mut CompactSizes<'_>) -> Row
    ensures value { result ≡ row_of bytes.old }
    ensures left { bytes.new ≡ after_many 21 bytes.old }
{
    Row {
        unit: bytes.word(),
        phase: phase_from(bytes.number()),
        entry: read_entry(bytes),
        held: index_from(bytes.number()),
        base: bytes.word(),
        time: time_from(bytes.number()),
        deadline: time_from(bytes.number()),
        target: index_from(bytes.number()),
    }
}

/// Reads a stage.
pub fn read_stage(bytes: &mut CompactSizes<'_>) -> Stage
    ensures value { result ≡ stage_of bytes.old }
    ensures left { bytes.new ≡ after_many 2 bytes.old }
{
    let submitted = index_from(bytes.number());
    let needed = bytes.word();
    match submitted {
        None => Stage::Ready,
        Some(submitted) => Stage::Waiting(submitted, needed),
    }
}

/// Reads the last reaped completion, if any.
pub fn read_reaped(bytes: &mut CompactSizes<'_>) -> Option<Cqe>
    ensures value { result ≡ reaped_of bytes.old }
    ensures left { bytes.new ≡ after_many 4 bytes.old }
{
    let there = bytes.number() != 0;
    let completion = read_completion(bytes);
    if there { Some(completion) } else { None }
}
