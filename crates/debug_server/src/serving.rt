//! The loop that reads lines, replies to them, and writes the replies.
ghost use Rattle.std.specs.Prelude.{◌≡◌, ◌≢◌, ◌↔◌, ◌++◌, ◌∷◌, [], List, true, false, option_map, IsTrue, IfOk, IfErr, OnOk, OnErr, IsErrOf};
ghost use Rattle.std.specs.Io.KnownBytes.{Appends, Keeps};
ghost use Rattle.whole_files.specs.Writes.{WritesFront};
ghost use Rattle.debug_server.specs.Replies.{Answer, reply};
ghost use Rattle.debug_server.specs.Transcripts.{asks, Asked, streams, Served, BrokeBy};
ghost use Rattle.debug_server.specs.SessionStates.{Runs};
ghost use Rattle.debug_server.specs.Pending.{IsPending, IsOfReplying, Gave, FillsBy, BreaksBy, EndsBy, FrontBy};

use crate::answering::reply_to_line;
use crate::faults::ServeFault;
use crate::lines::Line;
use crate::session::Session;
use crate::source::Source;
use crate::visitor::Visitor;
use machine::Event;
use std::alloc::Global;
use std::io::{Read, Write};

// Writes all of the bytes, and flushes them.
fn write_out<W: Write>(writer: &mut W, bytes: &[u8]) -> Result<(), ServeFault>
    ensures ok { OnOk result (Appends (W.contents writer.old) (W.contents writer.new) bytes.now) }
    ensures err { OnErr result
        (WritesFront (W.contents writer.old) (W.contents writer.new) bytes.now) }
    ensures fault { IfErr result (λ fault. fault ≡ ServeFault.Write) }
{
    match whole_files::write_out(writer, bytes) {
        Ok(()) => Ok(()),
        Err(_) => Err(ServeFault::Write),
    }
}

// Queries the source if the line is `sync`. Returns `None` for any other line.
fn ask<S: Source>(source: &mut S, line: &[u8]) -> Result<Option<Vec<Event>>, ServeFault>
    ensures ok { IfOk result
        (λ answer. Gave S.gives line.now source.old (option_map (λ v. v.items) answer) source.new) }
    ensures err { IfErr result (λ fault. (fault ≡ ServeFault.Memory) × (asks line.now ≡ true)
        × S.fails source.old source.new) }
    ensures fault { IfErr result IsOfReplying }
{
    if line != b"sync".as_slice() {
        return Ok(None);
    }
    match source.trace() {
        Ok(answer) => Ok(answer),
        Err(_) => Err(ServeFault::Memory),
    }
}

fn lent(answer: &Option<Vec<Event>>) -> Option<&[Event]>
    ensures { option_map (λ es. es.now) result ≡ option_map (λ v. v.items) answer.now }
{
    match answer {
        Some(events) => Some(events.as_slice()),
        None => None,
    }
}

// Writes the reply to one line, given the source's answer. Returns whether the line ends the
// session.
fn answer_line<W: Write>(
    alloc: Global,
    visitor: &mut Visitor,
    line: &[u8],
    answer: Option<&[Event]>,
    writer: &mut W,
) -> Result<bool, ServeFault>
    ensures written { OnOk result
        (Appends (W.contents writer.old) (W.contents writer.new)
        (reply visitor.old line.now (option_map (λ es. es.now) answer.entry)).text) }
    ensures next { OnOk result (visitor.new
        ≡ (reply visitor.old line.now (option_map (λ es. es.now) answer.entry)).next) }
    ensures quits { IfOk result (λ q. q
        ≡ (reply visitor.old line.now (option_map (λ es. es.now) answer.entry)).quits) }
    ensures err { OnErr result
        (WritesFront (W.contents writer.old) (W.contents writer.new)
        (reply visitor.old line.now (option_map (λ es. es.now) answer.entry)).text) }
    ensures fault { IfErr result IsOfReplying }
{
    let Ok((text, quits)) = reply_to_line(alloc, visitor, line, answer) else {
        return Err(ServeFault::Memory);
    };
    write_out(writer, &text)?;
    Ok(quits)
}

// Appends a byte to the line or, if it is a newline, replies to the line. Returns whether that
// ended the session.
fn take_byte<W: Write, S: Source>(
    alloc: Global,
    visitor: &mut Visitor,
    line: &mut Line,
    byte: u8,
    writer: &mut W,
    source: &mut S,
) -> Result<bool, ServeFault>
    ensures ok { IfOk result
        (λ q. FillsBy S.gives source.old source.new visitor.old (line.old ++ byte ∷ [])
        (W.contents writer.old) (W.contents writer.new) q visitor.new line.new) }
    ensures err { IfErr result
        (λ fault. BreaksBy S.gives S.fails source.old source.new fault visitor.old (line.old ++ byte
        ∷ []) (W.contents writer.old) (W.contents writer.new)) }
    ensures fault { IfErr result IsOfReplying }
{
    if byte != b'\n' {
        line.push(byte);
        return Ok(false);
    }
    let text = line.as_slice();
    let answer = ask(source, text)?;
    let quits = answer_line(alloc, visitor, text, lent(&answer), writer)?;
    line.clear();
    Ok(quits)
}

// Processes bytes up to a line that ends the session. The bytes after that line are ignored.
fn feed<W: Write, S: Source>(
    alloc: Global,
    visitor: &mut Visitor,
    line: &mut Line,
    bytes: &[u8],
    writer: &mut W,
    source: &mut S,
) -> Result<bool, ServeFault>
    ensures ok { IfOk result
        (λ q. FillsBy S.gives source.old source.new visitor.old (line.old ++ bytes.now)
        (W.contents writer.old) (W.contents writer.new) q visitor.new line.new) }
    ensures err { IfErr result
        (λ fault. BreaksBy S.gives S.fails source.old source.new fault visitor.old (line.old
        ++ bytes.now) (W.contents writer.old) (W.contents writer.new)) }
    ensures fault { IfErr result IsOfReplying }
{
    for byte in bytes {
        if take_byte(alloc, visitor, line, *byte, writer, source)? {
            return Ok(true);
        }
    }
    Ok(false)
}

// Replies to the last line if the input ends without a newline. Returns whether it ended the
// session.
fn finish<W: Write, S: Source>(
    alloc: Global,
    visitor: &mut Visitor,
    line: &[u8],
    writer: &mut W,
    source: &mut S,
) -> Result<bool, ServeFault>
    requires { IsPending line.now }
    ensures ok { IfOk result
        (λ q. EndsBy S.gives source.old source.new visitor.old line.now (W.contents writer.old)
        (W.contents writer.new) q visitor.new) }
    ensures err { IfErr result
        (λ fault. FrontBy S.gives S.fails source.old source.new fault visitor.old line.now
        (W.contents writer.old) (W.contents writer.new)) }
    ensures fault { IfErr result IsOfReplying }
{
    if line.len() == 0 {
        return Ok(false);
    }
    let answer = ask(source, line)?;
    let quits = answer_line(alloc, visitor, line, lent(&answer), writer)?;
    Ok(quits)
}

// Replies to lines up to the end of the input or `quit`. Returns whether a line ended the session.
fn converse<R: Read, W: Write, S: Source>(
    alloc: Global,
    visitor: &mut Visitor,
    reader: &mut R,
    writer: &mut W,
    source: &mut S,
) -> Result<bool, ServeFault>
    ensures ok { IfOk result (λ q. (answers : List Answer)
        × Asked S.gives source.old answers source.new
        × Served visitor.old (streams (R.remaining reader.old) (W.contents writer.old))
        (streams (R.remaining reader.new) (W.contents writer.new)) answers visitor.new q) }
    ensures err { IfErr result
        (λ fault. BrokeBy S.gives S.fails source.old source.new fault visitor.old
        (streams (R.remaining reader.old) (W.contents writer.old))
        (streams (R.remaining reader.new) (W.contents writer.new))) }
    ensures open { result ≢ Err ServeFault.Closed }
{
    let mut line = Line::new();
    let mut buffer = [0u8; 512];
    'reads: for _ in 0..u64::MAX {
        // For the proof: the buffer has no newline, since every complete line was answered.
        let _unended = line.as_slice();
        let Ok(count) = reader.read(&mut buffer) else {
            return Err(ServeFault::Read);
        };
        if count == 0 {
            return finish(alloc, visitor, line.as_slice(), writer, source);
        }
        if feed(alloc, visitor, &mut line, &buffer[..count], writer, source)? {
            return Ok(true);
        }
    }
    let _unended = line.as_slice();
    Err(ServeFault::Read)
}

/// Replies to lines up to the end of the input or `quit`. Writes and flushes each reply before the
/// next read, and queries the source for each `sync`. A fault or `quit` closes the session; later
/// calls return `ServeFault::Closed`.
pub fn serve<R: Read, W: Write, S: Source>(
    session: &mut Session,
    reader: &mut R,
    writer: &mut W,
    source: &mut S,
) -> Result<(), ServeFault>
    // Fails with `Closed` exactly if the session was closed. Then nothing is read or written, and
    // the source isn't queried.
    ensures closed { IsErrOf result ServeFault.Closed ↔ IsTrue session.old.is_closed }
    ensures untouched { session.old.is_closed ≡ true → (session.new ≡ session.old)
        × Keeps (R.remaining reader.old) (R.remaining reader.new)
        × Keeps (W.contents writer.old) (W.contents writer.new) }
    ensures unasked { session.old.is_closed ≡ true → source.new ≡ source.old }

    // The bytes written are the output for what was read, up to the end or past `quit`.
    ensures ok { OnOk result ((answers : List Answer) × Asked S.gives source.old answers source.new
        × Served session.old.state (streams (R.remaining reader.old) (W.contents writer.old))
        (streams (R.remaining reader.new)
        (W.contents writer.new)) answers session.new.state session.new.is_closed) }

    // After an error they are a prefix of that output, and each answer of the source was used by
    // one `sync`. If an allocation failed, the source may have been queried once more, for a line
    // without a reply.
    ensures err { OnErr result (session.new.is_closed ≡ true) }
    ensures begins { session.old.is_closed ≡ false
        → IfErr result
        (λ fault. BrokeBy S.gives S.fails source.old source.new fault session.old.state
        (streams (R.remaining reader.old) (W.contents writer.old))
        (streams (R.remaining reader.new) (W.contents writer.new))) }

    // The session's events run from the setup's start, and its position is within them.
    ensures ran { Runs session.old.state.walk }
    ensures runs { Runs session.new.state.walk }
{
    let _before = session.visitor.position();
    if session.is_closed {
        return Err(ServeFault::Closed);
    }
    let served = converse(session.alloc, &mut session.visitor, reader, writer, source);
    let _after = session.visitor.position();
    match served {
        Ok(quits) => {
            session.is_closed = quits;
            Ok(())
        }
        Err(fault) => {
            session.is_closed = true;
            Err(fault)
        }
    }
}
