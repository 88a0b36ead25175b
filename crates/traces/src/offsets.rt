//! Reads numbers and bytes. Each function takes an offset, and returns the one after what it read.
ghost use Rattle.std.specs.Prelude.{◌≡◌, ◌<◌, nat_lt, length, drop, IfOk};
ghost use Rattle.traces.specs.Cursors.{at_offset};
ghost use Rattle.traces.specs.Reading.{Gives, number_at, number_in, bytes_at, count_at};
ghost use Rattle.traces.specs.Limits.{is_within};

use crate::fault::TraceFault;
use byteorder::{ByteOrder, LittleEndian};

/// Returns the bytes from an offset on.
#[tactic(auto, using(std::proofs::lemmas::List::drop_min))]
pub(crate) fn rest_of(bytes: &[u8], offset: usize) -> &[u8]
    ensures { result.now ≡ drop offset bytes.now }
{
    &bytes[offset.min(bytes.len())..]
}

/// Reads `count` bytes.
pub(crate) fn bytes_at(
    bytes: &[u8],
    offset: usize,
    count: usize,
) -> Result<(&[u8], usize), TraceFault>
    ensures read { Gives (λ x. (x.0.now, at_offset bytes.now x.1)) result
        (bytes_at count (at_offset bytes.now offset)) }
    ensures size { IfOk result (λ x. length x.0.now ≡ count) }
{
    let rest = rest_of(bytes, offset);
    if rest.len() < count {
        return Err(TraceFault::Truncated);
    }
    Ok((&rest[..count], offset + count))
}

pub(crate) fn u8_at(bytes: &[u8], offset: usize) -> Result<(u8, usize), TraceFault>
    ensures { Gives (λ x. (x.0, at_offset bytes.now x.1)) result
        (number_at 1 (at_offset bytes.now offset)) }
{
    let rest = rest_of(bytes, offset);
    if rest.is_empty() {
        return Err(TraceFault::Truncated);
    }
    Ok((rest[0], offset + 1))
}

pub(crate) fn u16_at(bytes: &[u8], offset: usize) -> Result<(u16, usize), TraceFault>
    ensures { Gives (λ x. (x.0, at_offset bytes.now x.1)) result
        (number_at 2 (at_offset bytes.now offset)) }
{
    let rest = rest_of(bytes, offset);
    if rest.len() < 2 {
        return Err(TraceFault::Truncated);
    }
    Ok((LittleEndian::read_u16(rest), offset + 2))
}

pub(crate) fn u32_at(bytes: &[u8], offset: usize) -> Result<(u32, usize), TraceFault>
    ensures { Gives (λ x. (x.0, at_offset bytes.now x.1)) result
        (number_at 4 (at_offset bytes.now offset)) }
{
    let rest = rest_of(bytes, offset);
    if rest.len() < 4 {
        return Err(TraceFault::Truncated);
    }
    Ok((LittleEndian::read_u32(rest), offset + 4))
}

pub(crate) fn u64_at(bytes: &[u8], offset: usize) -> Result<(u64, usize), TraceFault>
    ensures { Gives (λ x. (x.0, at_offset bytes.now x.1)) result
        (number_at 8 (at_offset bytes.now offset)) }
{
    let rest = rest_of(bytes, offset);
    if rest.len() < 8 {
        return Err(TraceFault::Truncated);
    }
    Ok((LittleEndian::read_u64(rest), offset + 8))
}

/// Reads a number within least..=most.
#[tactic(auto, unfolding(crate::specs::Reading::number_in))]
pub(crate) fn u8_within(
    bytes: &[u8],
    offset: usize,
    least: u8,
    most: u8,
) -> Result<(u8, usize), TraceFault>
    ensures { Gives (λ x. (x.0, at_offset bytes.now x.1)) result
        (number_in 1 (is_within least most) (at_offset bytes.now offset)) }
{
    let (number, after) = u8_at(bytes, offset)?;
    if number < least || number > most {
        return Err(TraceFault::Setup(offset));
    }
    Ok((number, after))
}

/// Reads a number below a limit.
#[tactic(auto, unfolding(crate::specs::Reading::number_in))]
pub(crate) fn u8_below(bytes: &[u8], offset: usize, limit: usize) -> Result<(u8, usize), TraceFault>
    ensures read { Gives (λ x. (x.0, at_offset bytes.now x.1)) result
        (number_in 1 (λ n. nat_lt n limit) (at_offset bytes.now offset)) }
    ensures below { IfOk result (λ x. x.0 < limit) }
{
    let (number, after) = u8_at(bytes, offset)?;
    if usize::from(number) >= limit {
        return Err(TraceFault::Setup(offset));
    }
    Ok((number, after))
}

/// Reads a number within least..=most.
#[tactic(auto, unfolding(crate::specs::Reading::number_in))]
pub(crate) fn u32_within(
    bytes: &[u8],
    offset: usize,
    least: u32,
    most: u32,
) -> Result<(u32, usize), TraceFault>
    ensures { Gives (λ x. (x.0, at_offset bytes.now x.1)) result
        (number_in 4 (is_within least most) (at_offset bytes.now offset)) }
{
    let (number, after) = u32_at(bytes, offset)?;
    if number < least || number > most {
        return Err(TraceFault::Setup(offset));
    }
    Ok((number, after))
}

/// Reads a number below a limit.
#[tactic(auto, unfolding(crate::specs::Reading::number_in))]
pub(crate) fn u32_below(bytes: &[u8], offset: usize, limit: u32) -> Result<(u32, usize), TraceFault>
    ensures { Gives (λ x. (x.0, at_offset bytes.now x.1)) result
        (number_in 4 (λ n. nat_lt n limit) (at_offset bytes.now offset)) }
{
    let (number, after) = u32_at(bytes, offset)?;
    if number >= limit {
        return Err(TraceFault::Setup(offset));
    }
    Ok((number, after))
}

/// Reads a length of 32 bits, at most `most`.
pub(crate) fn count_at(bytes: &[u8], offset: usize, most: u32) -> Result<(u32, usize), TraceFault>
    ensures { Gives (λ x. (x.0, at_offset bytes.now x.1)) result
        (count_at most (at_offset bytes.now offset)) }
{
    u32_within(bytes, offset, 0, most)
}
