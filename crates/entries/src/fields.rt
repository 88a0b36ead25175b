//! Reads and writes little-endian integers at an offset of a byte slice.
ghost use Rattle.std.specs.Prelude.{◌≡◌, ◌+◌, ◌≤◌, length};
ghost use Rattle.std.specs.Int.{w32, cast_unsigned};
ghost use Rattle.byteorder.specs.Endian.{little_bytes};
ghost use Rattle.entries.specs.Layout.{NumberAt, SignedAt, put_at};

use byteorder::{ByteOrder, LittleEndian};

pub(crate) fn u16_at(bytes: &[u8], offset: usize) -> u16
    requires { offset + 2 ≤ length bytes.now }
    ensures { NumberAt offset 2 result bytes.now }
{
    LittleEndian::read_u16(&bytes[offset..])
}

pub(crate) fn u32_at(bytes: &[u8], offset: usize) -> u32
    requires { offset + 4 ≤ length bytes.now }
    ensures { NumberAt offset 4 result bytes.now }
{
    LittleEndian::read_u32(&bytes[offset..])
}

pub(crate) fn i32_at(bytes: &[u8], offset: usize) -> i32
    requires { offset + 4 ≤ length bytes.now }
    ensures { SignedAt offset 4 result bytes.now }
{
    LittleEndian::read_i32(&bytes[offset..])
}

pub(crate) fn u64_at(bytes: &[u8], offset: usize) -> u64
    requires { offset + 8 ≤ length bytes.now }
    ensures { NumberAt offset 8 result bytes.now }
{
    LittleEndian::read_u64(&bytes[offset..])
}

pub(crate) fn put_u8(bytes: &mut [u8], offset: usize, number: u8)
    requires { offset + 1 ≤ length bytes.old }
    ensures { bytes.new ≡ put_at offset (little_bytes 1 number) bytes.old }
{
    bytes[offset] = number;
}

pub(crate) fn put_u16(bytes: &mut [u8], offset: usize, number: u16)
    requires { offset + 2 ≤ length bytes.old }
    ensures { bytes.new ≡ put_at offset (little_bytes 2 number) bytes.old }
{
    LittleEndian::write_u16(&mut bytes[offset..], number);
}

pub(crate) fn put_u32(bytes: &mut [u8], offset: usize, number: u32)
    requires { offset + 4 ≤ length bytes.old }
    ensures { bytes.new ≡ put_at offset (little_bytes 4 number) bytes.old }
{
    LittleEndian::write_u32(&mut bytes[offset..], number);
}

pub(crate) fn put_i32(bytes: &mut [u8], offset: usize, number: i32)
    requires { offset + 4 ≤ length bytes.old }
    ensures { bytes.new ≡ put_at offset (little_bytes 4 (cast_unsigned w32 number)) bytes.old }
{
    LittleEndian::write_i32(&mut bytes[offset..], number);
}

pub(crate) fn put_u64(bytes: &mut [u8], offset: usize, number: u64)
    requires { offset + 8 ≤ length bytes.old }
    ensures { bytes.new ≡ put_at offset (little_bytes 8 number) bytes.old }
{
    LittleEndian::write_u64(&mut bytes[offset..], number);
}
