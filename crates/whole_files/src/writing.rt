//! Writes all of some bytes to a writer.
ghost use Rattle.std.specs.Prelude.{OnErr, OnOk};
ghost use Rattle.std.specs.Io.KnownBytes.{Appends};
ghost use Rattle.whole_files.specs.Writes.{WritesFront};

use std::io::Write;

/// The bytes were not written, or only a prefix of them.
#[derive(Clone, Copy)]
pub struct NotWritten;

// Writes all bytes. After an error, a prefix may have been written.
fn write_bytes<W: Write>(writer: &mut W, bytes: &[u8]) -> Result<(), NotWritten>
    ensures ok { OnOk result (Appends (W.contents writer.old) (W.contents writer.new) bytes.now) }
    ensures err { OnErr result
        (WritesFront (W.contents writer.old) (W.contents writer.new) bytes.now) }
{
    let mut at = 0;
    while at < bytes.len() {
        match writer.write(&bytes[at..]) {
            Ok(0) => return Err(NotWritten),
            Ok(n) => at += n,
            Err(_) => return Err(NotWritten),
        }
    }
    Ok(())
}

/// Writes all bytes and flushes them. A write that accepts no bytes is an error.
pub fn write_out<W: Write>(writer: &mut W, bytes: &[u8]) -> Result<(), NotWritten>
    ensures ok { OnOk result (Appends (W.contents writer.old) (W.contents writer.new) bytes.now) }
    ensures err { OnErr result
        (WritesFront (W.contents writer.old) (W.contents writer.new) bytes.now) }
{
    write_bytes(writer, bytes)?;
    match writer.flush() {
        Ok(()) => Ok(()),
        Err(_) => Err(NotWritten),
    }
}
