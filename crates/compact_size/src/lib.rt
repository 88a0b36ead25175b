//! A compact encoding of unsigned integers, in 1, 3, 5 or 9 bytes. Undo records are stored in it.
#![tactic(auto)]

ghost use Rattle.std.specs.Prelude.{◌≡◌, ℕ, ◌-◌, ◌<◌, ◌≤◌, ◌∷◌, ◌++◌, [], take, drop, length, slice_index, slice_set, OnOk};
ghost use Rattle.byteorder.specs.Endian.{little_bytes};
ghost use Rattle.compact_size.specs.Reading.{Puts};
ghost use Rattle.compact_size.specs.CompactSizes.{number_of, after, wide_number, byte_of, half_of, word_of, signed_of, long_of};
ghost use Rattle.compact_size.specs.Frames.{framed, past_frame, Frames};

use byteorder::{ByteOrder, LittleEndian};
use std::alloc::AllocError;
use std::marker::Model;

/// The first byte of a number that the 2 bytes after it hold. A smaller first
/// byte is the number itself.
const TWO: u8 = 253;

/// The first byte of a number that the 4 bytes after it hold.
const FOUR: u8 = 254;

/// The first byte of a number that the 8 bytes after it hold.
const EIGHT: u8 = 255;

/// A cursor over encoded numbers. Contracts see it as the bytes that are left.
///
/// Each read consumes one number. At the end, or where bytes are missing, it reads 0. A read of a
/// narrower type truncates the number, as a cast with `as` does.
#[derive(Drop)]
pub struct CompactSizes<'a> {
    bytes: &'a [u8],
}

impl<'a> Model for CompactSizes<'a> {
    ghost use Rattle.std.specs.Prelude.{ℕ, List};

    ghost Value = { List ℕ };

    ghost view = { λ a. a.bytes.now };
}

impl<'a> CompactSizes<'a> {
    /// Returns a cursor at the start of the bytes.
    pub fn new(bytes: &'a [u8]) -> CompactSizes<'a>
        ensures { result ≡ bytes.now }
    {
        CompactSizes { bytes }
    }

    /// Returns the next number without consuming it.
    pub fn first(&self) -> u64
        ensures { result ≡ number_of self.now }
    {
        first_number(self.bytes).0
    }

    /// Reads the next number.
    pub fn number(&mut self) -> u64
        ensures value { result ≡ number_of self.old }
        ensures left { self.new ≡ after self.old }
    {
        let (number, left) = first_number(self.bytes);
        self.bytes = left;
        number
    }

    /// Reads the next number as a `u8`.
    pub fn byte(&mut self) -> u8
        ensures value { result ≡ byte_of self.old }
        ensures left { self.new ≡ after self.old }
    {
        (self.number() % 256) as u8
    }

    /// Reads the next number as a `u16`.
    pub fn half(&mut self) -> u16
        ensures value { result ≡ half_of self.old }
        ensures left { self.new ≡ after self.old }
    {
        (self.number() % 65_536) as u16
    }

    /// Reads the next number as a `u32`.
    pub fn word(&mut self) -> u32
        ensures value { result ≡ word_of self.old }
        ensures left { self.new ≡ after self.old }
    {
        (self.number() % 4_294_967_296) as u32
    }

    /// Reads the next number as a `u32`, and returns its bits as an `i32`.
    pub fn signed(&mut self) -> i32
        ensures value { result ≡ signed_of self.old }
        ensures left { self.new ≡ after self.old }
    {
        self.word().cast_signed()
    }

    /// Reads the next number, and returns its bits as an `i64`.
    pub fn long(&mut self) -> i64
        ensures value { result ≡ long_of self.old }
        ensures left { self.new ≡ after self.old }
    {
        self.number().cast_signed()
    }

    /// Reads a frame. The cursor returned reads its numbers, and 0 after them.
    pub fn frame(&mut self) -> CompactSizes<'a>
        ensures value { result ≡ framed self.old }
        ensures left { self.new ≡ past_frame self.old }
    {
        let size = self.number() as usize;
        let bytes = self.bytes;
        self.bytes = past(bytes, size);
        CompactSizes {
            bytes: up_to(bytes, size),
        }
    }

    /// Skips a frame.
    pub fn skip_frame(&mut self)
        ensures { self.new ≡ past_frame self.old }
    {
        let size = self.number() as usize;
        self.bytes = past(self.bytes, size);
    }
}

// Returns the number at the start of the bytes and the bytes after it.
#[tactic(auto, unfolding(crate::specs::CompactSizes::number_of, crate::specs::CompactSizes::after))]
fn first_number(bytes: &[u8]) -> (u64, &[u8])
    ensures value { result.0 ≡ number_of bytes.now }
    ensures left { result.1.now ≡ after bytes.now }
{
    match bytes {
        [] => (0, bytes),
        [first, rest @ ..] => match *first {
            TWO => (two_of(rest), past(rest, 2)),
            FOUR => (four_of(rest), past(rest, 4)),
            EIGHT => (eight_of(rest), past(rest, 8)),
            _ => (u64::from(*first), rest),
        },
    }
}

fn two_of(bytes: &[u8]) -> u64
    ensures { result ≡ wide_number 2 bytes.now }
{
    if bytes.len() < 2 {
        0
    } else {
        u64::from(LittleEndian::read_u16(bytes))
    }
}

fn four_of(bytes: &[u8]) -> u64
    ensures { result ≡ wide_number 4 bytes.now }
{
    if bytes.len() < 4 {
        0
    } else {
        u64::from(LittleEndian::read_u32(bytes))
    }
}

fn eight_of(bytes: &[u8]) -> u64
    ensures { result ≡ wide_number 8 bytes.now }
{
    if bytes.len() < 8 {
        0
    } else {
        LittleEndian::read_u64(bytes)
    }
}

// Returns the bytes after the first n, or none if there are fewer.
fn past(bytes: &[u8], n: usize) -> &[u8]
    ensures { result.now ≡ drop n bytes.now }
{
    if bytes.len() < n { &[] } else { &bytes[n..] }
}

// Returns the first n bytes, or all if there are fewer.
fn up_to(bytes: &[u8], n: usize) -> &[u8]
    ensures { result.now ≡ take n bytes.now }
{
    if bytes.len() < n { bytes } else { &bytes[..n] }
}

/// Appends a number. Fails only if an allocation fails.
pub fn put_number(out: &mut Vec<u8>, number: u64) -> Result<(), AllocError>
    ensures { OnOk result (Puts number_of after out.old.items (number ∷ []) out.new.items) }
{
    if number < u64::from(TWO) {
        out.push(number as u8)?;
        Ok(())
    } else {
        put_wide(out, number)
    }
}

/// Appends a number of 253 or more. A function of its own, so that the test
/// for one byte is inlined.
#[inline(never)]
fn put_wide(out: &mut Vec<u8>, number: u64) -> Result<(), AllocError>
    ensures { OnOk result (Puts number_of after out.old.items (number ∷ []) out.new.items) }
{
    if number < 65_536 {
        put_two(out, number as u16)?;
        Ok(())
    } else if number < 4_294_967_296 {
        put_four(out, number as u32)?;
        Ok(())
    } else {
        put_eight(out, number)?;
        Ok(())
    }
}

fn put_two(out: &mut Vec<u8>, number: u16) -> Result<(), AllocError>
    ensures { OnOk result (out.new.items ≡ out.old.items ++ (253 ∷ little_bytes 2 number)) }
{
    let mut bytes = [TWO, 0, 0];
    LittleEndian::write_u16(&mut bytes[1..], number);
    out.extend_from_slice(&bytes)
}

fn put_four(out: &mut Vec<u8>, number: u32) -> Result<(), AllocError>
    ensures { OnOk result (out.new.items ≡ out.old.items ++ (254 ∷ little_bytes 4 number)) }
{
    let mut bytes = [FOUR, 0, 0, 0, 0];
    LittleEndian::write_u32(&mut bytes[1..], number);
    out.extend_from_slice(&bytes)
}

fn put_eight(out: &mut Vec<u8>, number: u64) -> Result<(), AllocError>
    ensures { OnOk result (out.new.items ≡ out.old.items ++ (255 ∷ little_bytes 8 number)) }
{
    let mut bytes = [EIGHT, 0, 0, 0, 0, 0, 0, 0, 0];
    LittleEndian::write_u64(&mut bytes[1..], number);
    out.extend_from_slice(&bytes)
}

/// Appends numbers. If an allocation fails, some of them may have been appended.
#[inline(always)]
pub fn put_numbers(out: &mut Vec<u8>, numbers: &[u64]) -> Result<(), AllocError>
    ensures { OnOk result (Puts number_of after out.old.items numbers.now out.new.items) }
{
    for number in numbers {
        put_number(out, *number)?;
    }
    Ok(())
}

/// Appends numbers as a frame: the length of their bytes, and then the numbers. Zeros at the end
/// are left out. Fails if an allocation fails, or if the bytes are 253 or more.
pub fn put_frame(out: &mut Vec<u8>, numbers: &[u64]) -> Result<(), AllocError>
    ensures { OnOk result (Frames out.old.items numbers.now out.new.items) }
{
    let used = used_len(numbers);
    out.push(0)?;
    let start = out.len();
    put_numbers(out, &numbers[..used])?;
    set_size(out, start)?;
    Ok(())
}

// Returns how many numbers are left without the zeros at the end.
fn used_len(numbers: &[u64]) -> usize
    ensures within { result ≤ length numbers.now }
    ensures zeros { (j : ℕ) → result ≤ j → slice_index numbers.now j ≡ 0 }
{
    let mut len = numbers.len();
    while len > 0 && numbers[len - 1] == 0 {
        len -= 1;
    }
    len
}

// Writes the length of a frame's bytes, which begin at `start`, into the byte before them.
fn set_size(out: &mut Vec<u8>, start: usize) -> Result<(), AllocError>
    requires first { 0 < start }
    requires within { start ≤ length out.old.items }
    ensures size { OnOk result (length out.old.items - start < 253) }
    ensures items { OnOk result (out.new.items
        ≡ slice_set out.old.items (start - 1) (length out.old.items - start)) }
{
    let size = out.len() - start;
    if size >= usize::from(TWO) {
        return Err(AllocError);
    }
    out[start - 1] = size as u8;
    Ok(())
}
