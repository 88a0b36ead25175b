//! Little-endian numbers at offsets.
ghost use Rattle.std.specs.Prelude.{◌≡◌, ◌+◌, ◌≤◌, length, drop};
ghost use Rattle.byteorder.specs.Endian.{little_bytes, little_number};
ghost use Rattle.entries.specs.Layout.{NumberAt, put_at};

use byteorder::{ByteOrder, LittleEndian};

pub(crate) fn u32_at(bytes: &[u8], offset: usize) -> u32
    requires { offset + 4 ≤ length bytes.now }
    ensures number { result ≡ little_number 4 (drop offset bytes.now) }
    ensures bytes { NumberAt offset 4 result bytes.now }
{
    LittleEndian::read_u32(&bytes[offset..])
}

pub(crate) fn u64_at(bytes: &[u8], offset: usize) -> u64
    requires { offset + 8 ≤ length bytes.now }
    ensures number { result ≡ little_number 8 (drop offset bytes.now) }
    ensures bytes { NumberAt offset 8 result bytes.now }
{
    LittleEndian::read_u64(&bytes[offset..])
}

pub(crate) fn put_u32(bytes: &mut [u8], offset: usize, number: u32)
    requires { offset + 4 ≤ length bytes.old }
    ensures { bytes.new ≡ put_at offset (little_bytes 4 number) bytes.old }
{
    LittleEndian::write_u32(&mut bytes[offset..], number);
}

pub(crate) fn put_u64(bytes: &mut [u8], offset: usize, number: u64)
    requires { offset + 8 ≤ length bytes.old }
    ensures { bytes.new ≡ put_at offset (little_bytes 8 number) bytes.old }
{
    LittleEndian::write_u64(&mut bytes[offset..], number);
}
