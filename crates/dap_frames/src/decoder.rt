//! Decodes a stream, piece by piece.
ghost use Rattle.std.specs.Prelude.{◌≡◌, ◌≤◌, ◌⊎◌, ◌++◌, [], IsTrue, length, Some, None, Err, option_map, option_to_list, MatchResult, IfOk, IfErr, OnOk, OnErr};
ghost use Rattle.dap_frames.specs.Decoding.{AddsPrefix, Failed, Feeds, after_line, decode, fault_of, has_length_name, number, start, step, without_body};
ghost use Rattle.dap_frames.specs.Views.{contents, partial_of};

use crate::fault::FrameFault;
use std::alloc::{AllocError, Global};
use std::marker::Model;
use std::mem;

const MOST_BODY_BYTES: usize = 1_048_576;

const MOST_HEADER_BYTES: usize = 1024;
/// The name of the field that has the length, which is matched in any case.
const LENGTH_NAME: &[u8] = b"Content-Length: ";

/// A header that is partly read.
#[derive(Drop)]
struct Header {
    /// The number of its bytes.
    seen: usize,
    /// The current line.
    line: Vec<u8>,
    /// The length, if an earlier line has it.
    length: Option<usize>,
}

/// A frame that is partly read.
#[derive(Drop)]
enum State {
    Line(Header),
    /// After a carriage return.
    Return(Header),
    /// The number of bytes that are missing, and those that were read.
    Body(usize, Vec<u8>),
    Failed(FrameFault),
}

/// A decoder of a stream.
#[derive(Drop)]
pub struct Decoder {
    alloc: Global,
    state: State,
}

impl Model for Decoder {
    ghost use Rattle.dap_frames.specs.Decoding.{Partial};
    ghost use Rattle.dap_frames.specs.Views.{partial_of};

    ghost Value = { Partial };

    ghost view = { λ a. partial_of a.state };
}

// Returns the number that decimal digits write, if it is at most `MOST_BODY_BYTES`.
fn number(digits: &[u8]) -> Option<usize>
    ensures { result ≡ number digits.now }
{
    if digits.is_empty() {
        return None;
    }
    let mut number = 0;
    for digit in digits {
        if !digit.is_ascii_digit() {
            return None;
        }
        let next = 10 * number + (*digit - b'0') as usize;
        if next > MOST_BODY_BYTES {
            return None;
        }
        number = next;
    }
    Some(number)
}

#[tactic(auto, unfolding(crate::specs::Decoding::has_length_name))]
fn has_length_name(line: &[u8]) -> bool
    ensures value { result ≡ has_length_name line.now }
    ensures long { IsTrue result → 16 ≤ length line.now }
{
    line.len() >= 16 && line[..16].eq_ignore_ascii_case(LENGTH_NAME)
}

// Returns the state at the start of a frame.
fn start(alloc: Global) -> State
    ensures { partial_of result ≡ start }
{
    State::Line(Header {
        seen: 0,
        line: Vec::new(alloc),
        length: None,
    })
}

// Ends a header line. Returns what follows it, and the body if it is empty.
fn end_line(alloc: Global, header: Header) -> Result<(State, Option<Vec<u8>>), FrameFault>
    ensures step { MatchResult result
        (λ r. after_line header.seen header.line.items header.length
        ≡ record { next = partial_of r.0; body = option_map (λ v. v.items) r.1 })
        (λ fault. after_line header.seen header.line.items header.length
        ≡ without_body (Failed fault)) }
    ensures good { IfOk result (λ r. fault_of (partial_of r.0) ≡ None) }
{
    if header.line.is_empty() {
        return match header.length {
            None => Err(FrameFault::LengthMissing),
            Some(0) => Ok((start(alloc), Some(Vec::new(alloc)))),
            Some(length) => Ok((State::Body(length, Vec::new(alloc)), None)),
        };
    }
    let mut length = header.length;
    if has_length_name(&header.line) {
        if length.is_some() {
            return Err(FrameFault::LengthRepeated);
        }
        length = number(&header.line[16..]);
        if length.is_none() {
            return Err(FrameFault::LengthInvalid);
        }
    }
    Ok((
        State::Line(Header {
            seen: header.seen,
            line: Vec::new(alloc),
            length,
        }),
        None,
    ))
}

// Reads a byte. Returns what follows it, and the body that ends with it.
fn step(alloc: Global, state: State, byte: u8) -> Result<(State, Option<Vec<u8>>), FrameFault>
    ensures step { MatchResult result
        (λ r. step (partial_of state) byte
        ≡ record { next = partial_of r.0; body = option_map (λ v. v.items) r.1 })
        (λ fault. (fault ≡ FrameFault.Memory)
        ⊎ (step (partial_of state) byte ≡ without_body (Failed fault))) }
    ensures good { IfOk result (λ r. fault_of (partial_of r.0) ≡ None) }
    ensures stays { (fault : FrameFault) → partial_of state ≡ Failed fault → result ≡ Err fault }
{
    match state {
        State::Line(mut header) => {
            if header.seen >= MOST_HEADER_BYTES {
                return Err(FrameFault::HeaderTooLong);
            }
            header.seen += 1;
            match byte {
                b'\r' => Ok((State::Return(header), None)),
                b'\n' => Err(FrameFault::BareLineEnd),
                _ => {
                    if header.line.push(byte).is_err() {
                        return Err(FrameFault::Memory);
                    }
                    Ok((State::Line(header), None))
                }
            }
        }
        State::Return(mut header) => {
            if header.seen >= MOST_HEADER_BYTES {
                return Err(FrameFault::HeaderTooLong);
            }
            if byte != b'\n' {
                return Err(FrameFault::BareLineEnd);
            }
            header.seen += 1;
            end_line(alloc, header)
        }
        State::Body(left, mut body) => {
            if body.push(byte).is_err() {
                return Err(FrameFault::Memory);
            }
            if left <= 1 {
                Ok((start(alloc), Some(body)))
            } else {
                Ok((State::Body(left - 1, body), None))
            }
        }
        State::Failed(fault) => Err(fault),
    }
}

// Appends the body, if there is one.
fn add(bodies: &mut Vec<Vec<u8>>, body: Option<Vec<u8>>) -> Result<(), AllocError>
    ensures ok { OnOk result (contents bodies.new.items
        ≡ contents bodies.old.items ++ option_to_list (option_map (λ v. v.items) body)) }
    ensures err { OnErr result (contents bodies.new.items ≡ contents bodies.old.items) }
{
    if let Some(body) = body {
        if bodies.push(body).is_err() {
            return Err(AllocError);
        }
    }
    Ok(())
}

impl Decoder {
    /// Creates a decoder at the start of a stream.
    pub fn new(alloc: Global) -> Decoder
        ensures { result ≡ start }
    {
        Decoder {
            alloc,
            state: start(alloc),
        }
    }

    // Reads the next byte. Returns the body that ends with it, if there is one.
    fn read_byte(&mut self, byte: u8) -> Result<Option<Vec<u8>>, FrameFault>
        ensures ok { IfOk result (λ body. step self.old byte
            ≡ record { next = self.new; body = option_map (λ v. v.items) body }) }
        ensures err { IfErr result (λ fault. self.new ≡ Failed fault) }
        ensures fault { IfErr result (λ fault. (fault ≡ FrameFault.Memory)
            ⊎ (step self.old byte ≡ without_body (Failed fault))) }
        ensures good { OnOk result (fault_of self.new ≡ None) }
        ensures stays { (fault : FrameFault) → self.old ≡ Failed fault → result ≡ Err fault }
    {
        let state = mem::replace(&mut self.state, State::Failed(FrameFault::Memory));
        match step(self.alloc, state, byte) {
            Ok((next, body)) => {
                self.state = next;
                Ok(body)
            }
            Err(fault) => {
                self.state = State::Failed(fault);
                Err(fault)
            }
        }
    }

    /// Reads the next piece of the stream, and appends the bodies that end in it. After an error,
    /// each later call fails with the same error.
    pub fn feed(&mut self, bodies: &mut Vec<Vec<u8>>, piece: &[u8]) -> Result<(), FrameFault>
        ensures ok { OnOk result (Feeds self.old piece.now (contents bodies.old.items)
            (contents bodies.new.items) self.new []) }
        ensures good { OnOk result (fault_of self.new ≡ None) }
        ensures err { IfErr result (λ fault. self.new ≡ Failed fault) }
        ensures fault { IfErr result (λ fault. (fault ≡ FrameFault.Memory)
            ⊎ Feeds self.old piece.now (contents bodies.old.items) (contents bodies.new.items)
            self.new []) }
        ensures front { AddsPrefix (contents bodies.old.items) (contents bodies.new.items)
            (decode self.old piece.now).bodies }
        ensures stays { (fault : FrameFault) → self.old ≡ Failed fault → result ≡ Err fault }
    {
        if let State::Failed(fault) = self.state {
            return Err(fault);
        }
        for byte in piece {
            let body = match self.read_byte(*byte) {
                Ok(body) => body,
                Err(fault) => return Err(fault),
            };
            if add(bodies, body).is_err() {
                self.state = State::Failed(FrameFault::Memory);
                return Err(FrameFault::Memory);
            }
        }
        Ok(())
    }
}
