//! Events and their 16 bytes.
ghost use Rattle.std.specs.Prelude.{◌≡◌, ◌≤◌, ◌^◌, take, drop, Some, None, IfOk, IfErr, IsTrue};
ghost use Rattle.traces.specs.Spelling.{kind_of, word_of, wide_of, choice_number, event_bytes, ChoiceFits, Fits, has_transfer};
ghost use Rattle.traces.specs.Faults.{is_kind, has_numbers, event_fault};

use crate::fault::TraceFault;
use crate::fields::{put_u32, put_u64, u32_at, u64_at};
use entries::Choice;
use scenario::Event;

// The number of `Choice::Eio`, which no short transfer can have.
const EIO: u64 = 4_294_967_296;

fn choice_number(choice: Choice) -> u64
    ensures { result ≡ choice_number choice }
{
    match choice {
        Choice::Full => 0,
        Choice::Short(bytes) => u64::from(bytes),
        Choice::Eio => EIO,
    }
}

fn kind_of(event: Event) -> u8
    ensures { result ≡ kind_of event }
{
    match event {
        Event::Step(_) => 1,
        Event::Take(_) => 2,
        Event::Sleep => 3,
        Event::Issue(_) => 4,
        Event::Finish(_, _) => 5,
        Event::Expire(_) => 6,
        Event::Tick(_) => 7,
    }
}

fn word_of(event: Event) -> u32
    ensures { result ≡ word_of event }
{
    match event {
        Event::Step(number)
        | Event::Take(number)
        | Event::Issue(number)
        | Event::Finish(number, _)
        | Event::Expire(number) => number,
        Event::Sleep | Event::Tick(_) => 0,
    }
}

fn wide_of(event: Event) -> u64
    ensures { result ≡ wide_of event }
{
    match event {
        Event::Finish(_, choice) => choice_number(choice),
        Event::Tick(nanoseconds) => nanoseconds,
        _ => 0,
    }
}

/// Returns the 16 bytes of an event.
pub(crate) fn event_bytes(event: Event) -> [u8; 16]
    ensures spelled { result ≡ event_bytes event }
    ensures fits { IsTrue (has_transfer event) → Fits event }
{
    let mut bytes = [0; 16];
    bytes[0] = kind_of(event);
    put_u32(&mut bytes, 4, word_of(event));
    put_u64(&mut bytes, 8, wide_of(event));
    bytes
}

fn has_numbers(kind: u8, word: u32, wide: u64) -> bool
    ensures { result ≡ has_numbers kind word wide }
{
    match kind {
        3 => word == 0 && wide == 0,
        5 => wide <= EIO,
        7 => word == 0,
        _ => wide == 0,
    }
}

fn choice_of(number: u64) -> Choice
    requires { number ≤ 2 ^ 32 }
    ensures number { choice_number result ≡ number }
    ensures fits { ChoiceFits result }
{
    match number {
        0 => Choice::Full,
        EIO => Choice::Eio,
        bytes => Choice::Short(bytes as u32),
    }
}

fn event_of(kind: u8, word: u32, wide: u64) -> Event
    requires kind { IsTrue (is_kind kind) }
    requires numbers { IsTrue (has_numbers kind word wide) }
    ensures kind { kind_of result ≡ kind }
    ensures word { word_of result ≡ word }
    ensures wide { wide_of result ≡ wide }
    ensures fits { Fits result }
{
    match kind {
        1 => Event::Step(word),
        2 => Event::Take(word),
        3 => Event::Sleep,
        4 => Event::Issue(word),
        5 => Event::Finish(word, choice_of(wide)),
        6 => Event::Expire(word),
        _ => Event::Tick(wide),
    }
}

/// Reads the first event of the bytes, and returns it with the rest.
pub(crate) fn first_event(bytes: &[u8]) -> Result<(Event, &[u8]), TraceFault>
    ensures fits { IfOk result (λ first. Fits first.0) }
    ensures spelled { IfOk result (λ first. take 16 bytes.now ≡ event_bytes first.0) }
    ensures rest { IfOk result (λ first. first.1.now ≡ drop 16 bytes.now) }
    ensures clean { IfOk result (λ first. event_fault bytes.now ≡ None) }
    ensures fault { IfErr result (λ fault. event_fault bytes.now ≡ Some fault) }
{
    if bytes.len() < 16 {
        return Err(TraceFault::Truncated);
    }
    let kind = bytes[0];
    if kind < 1 || kind > 7 {
        return Err(TraceFault::Kind);
    }
    if bytes[1] != 0 || bytes[2] != 0 || bytes[3] != 0 {
        return Err(TraceFault::Padding);
    }
    let word = u32_at(bytes, 4);
    let wide = u64_at(bytes, 8);
    if !has_numbers(kind, word, wide) {
        return Err(TraceFault::Padding);
    }
    Ok((event_of(kind, word, wide), &bytes[16..]))
}
