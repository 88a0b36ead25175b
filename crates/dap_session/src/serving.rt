//! The loop that reads messages, answers them, and writes the answers.
ghost use Rattle.std.specs.Prelude.{◌≡◌, [], List, ℕ, IfOk, OnOk};
ghost use Rattle.std.specs.Io.KnownBytes.{Appends};
ghost use Rattle.dap_frames.specs.Decoding.{start};
ghost use Rattle.dap_frames.specs.Views.{contents};
ghost use Rattle.dap_session.specs.Serving.{Converses, Served, StepsTo, Takes, fresh_adapter};

use crate::adapter::Adapter;
use dap_answers::Outbox;
use dap_frames::{Decoder, FrameFault};
use std::alloc::Global;
use std::io::{Read, Write};
use std::marker::Model;
use std::mem;
use std::rt::Files;
use whole_files::write_out;

/// Why a session ended early.
#[derive(Clone, Copy)]
pub enum SessionFault {
    /// A read failed.
    Read,
    /// A write or a flush failed, or a write accepted no bytes.
    Write,
    /// An allocation failed.
    Memory,
    /// The input isn't a sequence of messages.
    Frame(FrameFault),
}

/// The state of a session between reads.
#[derive(Drop)]
struct Serving {
    adapter: Adapter,
    decoder: Decoder,
    outbox: Outbox,
}

impl Model for Serving {
    ghost use Rattle.dap_session.specs.Serving.{ServingState};

    ghost Value = { ServingState };

    ghost view = { λ s. record { adapter = s.adapter; decoder = s.decoder; outbox = s.outbox } };
}

// Writes the messages of the outbox.
fn flush<W: Write>(outbox: &mut Outbox, writer: &mut W) -> Result<(), SessionFault>
    ensures written { OnOk result
        (Appends (W.contents writer.old) (W.contents writer.new) outbox.old.bytes) }
    ensures cleared { OnOk result
        (outbox.new ≡ record { next = outbox.old.next; bytes = [] }) }
{
    match write_out(writer, outbox.bytes()) {
        Ok(()) => {
            outbox.clear();
            Ok(())
        }
        Err(_) => Err(SessionFault::Write),
    }
}

impl Serving {
    fn new(alloc: Global) -> Serving
        ensures { result ≡ record {
          adapter = fresh_adapter;
          decoder = start;
          outbox = record { next = 1; bytes = [] };
        } }
    {
        Serving {
            adapter: Adapter::new(alloc),
            decoder: Decoder::new(alloc),
            outbox: Outbox::new(alloc),
        }
    }

    // Answers a message. Returns whether the session ends.
    fn answer<W: Write>(
        &mut self,
        rt: &(impl Files + AllocGlobal),
        body: &[u8],
        writer: &mut W,
    ) -> Result<bool, SessionFault>
        requires { self.old.outbox.bytes ≡ [] }
        ensures ok { IfOk result (λ ends. (written : List ℕ)
            × StepsTo self.old.adapter self.old.outbox.next body.now written
            self.new.adapter self.new.outbox.next ends
            × Appends (W.contents writer.old) (W.contents writer.new) written) }
        ensures empty { OnOk result (self.new.outbox.bytes ≡ []) }
        ensures decoder { self.new.decoder ≡ self.old.decoder }
    {
        let Ok(answer) = self.adapter.answer(rt, body) else {
            return Err(SessionFault::Memory);
        };
        let Ok(ends) = self.outbox.post(answer) else {
            return Err(SessionFault::Memory);
        };
        flush(&mut self.outbox, writer)?;
        Ok(ends)
    }

    // Answers messages up to one that ends the session. Returns whether there was one.
    fn answer_all<W: Write>(
        &mut self,
        rt: &(impl Files + AllocGlobal),
        bodies: &[Vec<u8>],
        writer: &mut W,
    ) -> Result<bool, SessionFault>
        requires { self.old.outbox.bytes ≡ [] }
        ensures ok { IfOk result (λ ends. (written : List ℕ)
            × Converses self.old.adapter self.old.outbox.next (contents bodies.now) written
            self.new.adapter self.new.outbox.next ends
            × Appends (W.contents writer.old) (W.contents writer.new) written) }
        ensures empty { OnOk result (self.new.outbox.bytes ≡ []) }
        ensures decoder { self.new.decoder ≡ self.old.decoder }
    {
        match bodies {
            [] => Ok(false),
            [body, rest @ ..] => {
                if self.answer(rt, body.as_slice(), writer)? {
                    return Ok(true);
                }
                self.answer_all(rt, rest, writer)
            }
        }
    }

    // Answers the messages that end in a piece of the input. Returns whether one ended the session.
    fn take<W: Write>(
        &mut self,
        rt: &(impl Files + AllocGlobal),
        piece: &[u8],
        writer: &mut W,
    ) -> Result<bool, SessionFault>
        requires { self.old.outbox.bytes ≡ [] }
        ensures ok { IfOk result (Takes self.old piece.now self.new
            (W.contents writer.old) (W.contents writer.new)) }
        ensures empty { OnOk result (self.new.outbox.bytes ≡ []) }
    {
        let mut bodies = Vec::new(rt.alloc());
        let fed = self.decoder.feed(&mut bodies, piece);
        let ends = self.answer_all(rt, bodies.as_slice(), writer)?;
        match fed {
            Ok(()) => Ok(ends),
            Err(_) if ends => Ok(true),
            Err(FrameFault::Memory) => Err(SessionFault::Memory),
            Err(fault) => Err(SessionFault::Frame(fault)),
        }
    }

    // Answers messages up to the end of the input, or to one that ends the session.
    fn run<R: Read, W: Write>(
        &mut self,
        rt: &(impl Files + AllocGlobal),
        reader: &mut R,
        writer: &mut W,
    ) -> Result<(), SessionFault>
        requires { self.old ≡ record {
          adapter = fresh_adapter;
          decoder = start;
          outbox = record { next = 1; bytes = [] };
        } }
        ensures { OnOk result (Served (R.remaining reader.old) (R.remaining reader.new)
            (W.contents writer.old) (W.contents writer.new)) }
    {
        let mut buffer = [0u8; 4096];
        'reads: for _ in 0..u64::MAX {
            let Ok(count) = reader.read(&mut buffer) else {
                return Err(SessionFault::Read);
            };
            if count == 0 {
                return Ok(());
            }
            if self.take(rt, &buffer[..count], writer)? {
                return Ok(());
            }
        }
        Err(SessionFault::Read)
    }
}

/// Serves an editor: answers its messages up to the end of the input, or to `disconnect`. The
/// program ends after that, so that the run is forgotten, and not freed record by record.
pub fn serve<R: Read, W: Write>(
    rt: &(impl Files + AllocGlobal),
    reader: &mut R,
    writer: &mut W,
) -> Result<(), SessionFault>
    ensures { OnOk result (Served (R.remaining reader.old) (R.remaining reader.new)
        (W.contents writer.old) (W.contents writer.new)) }
{
    let mut serving = Serving::new(rt.alloc());
    let served = serving.run(rt, reader, writer);
    mem::forget(serving);
    served
}
