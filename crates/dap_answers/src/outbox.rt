//! Messages for the editor, as frames.
ghost use Rattle.std.specs.Prelude.{◌≡◌, ◌≢◌, ◌+◌, ◌++◌, [], List, ℕ, codes, false, string_bytes, IfOk, IfErr, OnOk, Ok};
ghost use Rattle.serde_json.specs.View.{view};
ghost use Rattle.serde_json.specs.Written.{has_float, compact_text};
ghost use Rattle.dap_frames.specs.Decoding.{frame};
ghost use Rattle.dap_messages.specs.Messages.{error_value};
ghost use Rattle.dap_answers.specs.Posting.{Emits, EmitsAll, EmitsIf, EmitsIfAny, IsTooLong, Posts, Refuses, Responds, RespondsBy, RespondsIfAny, Sends};

use crate::answer::{Answer, Asked, Events, Response};
use crate::refusal::{Reason, Refusal};
use dap_frames::{WriteFault, frame_of};
use dap_messages::{error_response, event, response};
use serde_json::Value;
use std::alloc::{AllocError, Global};
use std::marker::Model;

/// Frames that are to be written, and the number of the next message.
#[derive(Drop)]
pub struct Outbox {
    alloc: Global,
    next: u64,
    bytes: Vec<u8>,
}

impl Model for Outbox {
    ghost use Rattle.dap_answers.specs.Posting.{Posted};

    ghost Value = { Posted };

    ghost view = { λ o. record { next = o.next; bytes = o.bytes.items } };
}

// Returns the frame of a message.
fn framed(alloc: Global, message: &Value) -> Result<String, WriteFault>
    ensures framed { IfOk result (λ text. (body : List ℕ)
        × (has_float (view message.now) ≡ false → body ≡ compact_text (view message.now))
        × (string_bytes text ≡ frame body)) }
    ensures refused { IfErr result (λ fault.
        fault ≢ WriteFault.Memory → IsTooLong (view message.now)) }
{
    let body = message.to_string(alloc)?;
    frame_of(alloc, body.as_str())
}

// Returns the response that a request is refused.
fn refusal_of(
    alloc: Global,
    seq: u64,
    asked: &Asked,
    refusal: &Refusal,
) -> Result<Value, AllocError>
    ensures { IfOk result (λ v. (kind : ℕ) × (sentence : List ℕ)
        × (view v ≡ error_value seq asked.now.seq asked.now.command kind sentence)) }
{
    let text = refusal.sentence(alloc)?;
    let (kind, command) = (refusal.number(), asked.command.as_str());
    error_response(alloc, seq, asked.seq, command, kind, text.as_str())
}

impl Outbox {
    /// Returns an outbox without frames, whose first message has the number 1.
    pub fn new(alloc: Global) -> Outbox
        ensures { result ≡ record { next = 1; bytes = [] } }
    {
        Outbox {
            alloc,
            next: 1,
            bytes: Vec::new(alloc),
        }
    }

    /// Returns the frames.
    pub fn bytes(&self) -> &[u8]
        ensures { result.now ≡ self.now.bytes }
    {
        self.bytes.as_slice()
    }

    /// Removes the frames.
    pub fn clear(&mut self)
        ensures { self.new ≡ record { next = self.old.next; bytes = [] } }
    {
        self.bytes.clear();
    }

    // Adds a frame, and counts it.
    fn add(&mut self, frame: &str) -> Result<(), AllocError>
        ensures { OnOk result (self.new ≡ record {
          next = self.old.next + 1;
          bytes = self.old.bytes ++ frame.now;
        }) }
    {
        let Some(next) = self.next.checked_add(1) else {
            return Err(AllocError);
        };
        self.bytes.extend_from_slice(frame.as_bytes())?;
        self.next = next;
        Ok(())
    }

    // Adds a message that is short enough.
    fn send(&mut self, message: &Value) -> Result<(), AllocError>
        ensures { OnOk result (Sends self.old self.new (view message.now)) }
    {
        match framed(self.alloc, message) {
            Ok(frame) => self.add(frame.as_str()),
            Err(_) => Err(AllocError),
        }
    }

    // Adds the response that a request is refused.
    fn refuse(&mut self, asked: &Asked, refusal: &Refusal) -> Result<(), AllocError>
        ensures { OnOk result (Refuses self.old asked.now self.new) }
    {
        let message = refusal_of(self.alloc, self.next, asked, refusal)?;
        self.send(&message)
    }

    // Adds the response to a request that succeeded. If it is too long, adds a refusal.
    fn succeed(&mut self, asked: &Asked, body: Option<Value>) -> Result<(), AllocError>
        ensures { OnOk result (RespondsBy self.old asked.now (Ok body) self.new) }
    {
        let command = asked.command.as_str();
        let message = response(self.alloc, self.next, asked.seq, command, body)?;
        match framed(self.alloc, &message) {
            Ok(frame) => self.add(frame.as_str()),
            Err(WriteFault::Memory) => Err(AllocError),
            Err(WriteFault::BodyTooLong) => {
                self.refuse(asked, &Refusal::Reason(Reason::TooLong))
            }
        }
    }

    // Adds a response.
    fn respond(&mut self, answer: Response) -> Result<(), AllocError>
        ensures { OnOk result (Responds self.old answer self.new) }
    {
        let Response { asked, outcome } = answer;
        match outcome {
            Ok(body) => self.succeed(&asked, body),
            Err(refusal) => self.refuse(&asked, &refusal),
        }
    }

    // Adds an event. One that is too long is left out.
    fn emit(&mut self, name: &str, body: Option<Value>) -> Result<(), AllocError>
        ensures { OnOk result (Emits self.old name.now body self.new) }
    {
        let message = event(self.alloc, self.next, name, body)?;
        match framed(self.alloc, &message) {
            Ok(frame) => self.add(frame.as_str()),
            Err(WriteFault::Memory) => Err(AllocError),
            Err(WriteFault::BodyTooLong) => Ok(()),
        }
    }

    // Adds an event, if it has a body.
    fn emit_if_any(&mut self, name: &str, body: Option<Value>) -> Result<(), AllocError>
        ensures { OnOk result (EmitsIfAny self.old name.now body self.new) }
    {
        match body {
            Some(body) => self.emit(name, Some(body)),
            None => Ok(()),
        }
    }

    // Adds an event without a body, if `is_due`.
    fn emit_if(&mut self, is_due: bool, name: &str) -> Result<(), AllocError>
        ensures { OnOk result (EmitsIf is_due self.old name.now self.new) }
    {
        if is_due {
            self.emit(name, None)
        } else {
            Ok(())
        }
    }

    fn emit_all(&mut self, events: Events) -> Result<(), AllocError>
        ensures { OnOk result (EmitsAll self.old events self.new) }
    {
        let Events {
            initialized,
            continued,
            output,
            stopped,
        } = events;
        self.emit_if(initialized, "initialized")?;
        self.emit_if_any("continued", continued)?;
        self.emit_if_any("output", output)?;
        self.emit_if_any("stopped", stopped)?;
        Ok(())
    }

    fn respond_if_any(&mut self, answer: Option<Response>) -> Result<(), AllocError>
        ensures { OnOk result (RespondsIfAny self.old answer self.new) }
    {
        match answer {
            Some(answer) => self.respond(answer),
            None => Ok(()),
        }
    }

    /// Adds the messages of an answer. Returns whether the session ends.
    pub fn post(&mut self, answer: Answer) -> Result<bool, AllocError>
        ensures posted { OnOk result (Posts self.old answer self.new) }
        ensures ends { IfOk result (λ ends. ends ≡ answer.ends) }
    {
        let Answer {
            first,
            second,
            events,
            ends,
        } = answer;
        self.respond_if_any(first)?;
        self.respond_if_any(second)?;
        self.emit_all(events)?;
        Ok(ends)
    }
}
