//! Puts whose entry is a JSON object of whole numbers, compared with ranges of a text.
ghost use Rattle.std.specs.Prelude.{◌≡◌, ◌<◌, [], ◌∷◌, ◌++◌, IfSome, IsTrue, List, get_or, decimal, false, true, ℕ};
ghost use Rattle.json.specs.Token.{end_array, end_object, key, number, Token};
ghost use Rattle.json.specs.Print.{separator, token_text};
ghost use Rattle.scenario.specs.declared.setup.Instruction.TheVariants.{Put};
ghost use Rattle.script.specs.Instructions.{instruction_at};
ghost use Rattle.source_map.specs.Maps.{IsRange};
ghost use Rattle.source_map.specs.ListTexts.{HasTokens};
ghost use Rattle.source_map.specs.PutTexts.{EndsPut, HasNumbers, entry_key, natural_in, put_tokens};

use crate::span::Span;
use crate::spelling::{after, after_gap, after_number, range_of};
use entries::Sqe;

/// The most members of an entry that is compared.
const MOST_MEMBERS: u32 = 16;

// Returns a number, if it isn't negative.
fn natural(number: i32) -> Option<u32>
    ensures value { result ≡ natural_in number }
    ensures small { IfSome result (λ n. n < 2147483648) }
{
    if number < 0 {
        return None;
    }
    Some(number as u32)
}

// Returns the numbers of an entry, or `None` if one is negative or if a byte is set that has no
// key.
fn numbers_of(entry: &Sqe) -> Option<[u64; 9]>
    ensures { IfSome result (λ numbers. HasNumbers entry.now numbers) }
{
    let Some(fd) = natural(entry.fd) else {
        return None;
    };
    let plain = Sqe {
        opcode: entry.opcode,
        flags: entry.flags,
        ioprio: entry.ioprio,
        fd: entry.fd,
        off: entry.off,
        addr: entry.addr,
        len: entry.len,
        operation_flags: entry.operation_flags,
        user_data: entry.user_data,
        buf_index: 0,
        personality: 0,
        splice_fd_in: 0,
        rest: [0; 16],
    };
    if !entry.equals(&plain) {
        return None;
    }
    Some([
        u64::from(entry.opcode),
        u64::from(entry.flags),
        u64::from(entry.ioprio),
        u64::from(fd),
        entry.off,
        entry.addr,
        u64::from(entry.len),
        u64::from(entry.operation_flags),
        entry.user_data,
    ])
}

// Returns the key of a number of an entry, in quotes and with its colon.
fn key_text(index: usize) -> &'static [u8]
    requires { index < 9 }
    ensures { result.now ≡ token_text (key (entry_key index)) }
{
    match index {
        0 => b"\"op\":",
        1 => b"\"flags\":",
        2 => b"\"ioprio\":",
        3 => b"\"fd\":",
        4 => b"\"off\":",
        5 => b"\"addr\":",
        6 => b"\"len\":",
        7 => b"\"opflags\":",
        _ => b"\"ud\":",
    }
}

// Returns the index of the key at the start of a text, and the text after its colon.
fn key_at(text: &[u8]) -> Option<(usize, &[u8])>
    ensures index { IfSome result (λ found. found.0 < 9) }
    ensures rest { IfSome result (λ found.
        text.now ≡ token_text (key (entry_key found.0)) ++ found.1.now) }
{
    for index in 0..9 {
        if let Some(rest) = after(text, key_text(index)) {
            return Some((index, rest));
        }
    }
    None
}

// Returns a text after its comma, which it has if a value comes before it.
fn after_comma(text: &[u8], after_value: bool) -> Option<&[u8]>
    ensures { IfSome result (λ rest. (word : List ℕ)
        → text.now ≡ separator after_value (key word) ++ rest.now) }
{
    if after_value {
        after(text, b",")
    } else {
        Some(text)
    }
}

// Returns the index of the key of a member at the start of a text, and the text after the member,
// which has the number of its key.
fn after_member<'a>(
    text: &'a [u8],
    after_value: bool,
    numbers: &[u64; 9],
) -> Option<(usize, &'a [u8])>
    ensures index { IfSome result (λ found. found.0 < 9) }
    ensures tokens { IfSome result (λ found. (ts : List Token) → HasTokens true found.1.now ts
        → HasTokens after_value text.now
        (key (entry_key found.0) ∷ number (decimal (get_or numbers.now found.0 0)) ∷ ts)) }
{
    let rest = after_comma(text, after_value)?;
    let (index, rest) = key_at(after_gap(rest))?;
    let rest = after_number(after_gap(rest), numbers[index])?;
    Some((index, rest))
}

// Returns whether a text is the closing brackets of a put.
fn is_end(text: &[u8], after_value: bool) -> bool
    ensures { IsTrue result → HasTokens after_value text.now (end_object ∷ end_array ∷ []) }
{
    match after(after_gap(text), b"}") {
        Some(rest) => matches!(after(after_gap(rest), b"]"), Some([])),
        None => false,
    }
}

// Returns whether a text is the rest of a put, at most `most` members. Each has the number of its
// key, and the numbers that are left and that no member has are 0.
fn ends_put(text: &[u8], after_value: bool, numbers: &[u64; 9], left: [u64; 9], most: u32) -> bool
    ensures { IsTrue result → EndsPut after_value text.now numbers.now left }
{
    if is_end(text, after_value) {
        return left == [0; 9];
    }
    if most == 0 {
        return false;
    }
    let Some((index, rest)) = after_member(text, after_value, numbers) else {
        return false;
    };
    let mut left = left;
    left[index] = 0;
    ends_put(rest, true, numbers, left, most - 1)
}

// Returns a text after the opening brackets of a put.
fn after_start(text: &[u8], slot: u32) -> Option<&[u8]>
    ensures { IfSome result (λ rest. (ts : List Token) → HasTokens false rest.now ts
        → HasTokens false text.now (put_tokens slot ts)) }
{
    let rest = after(text, b"[")?;
    let rest = after(after_gap(rest), b"\"put\"")?;
    let rest = after(rest, b",")?;
    let rest = after_number(after_gap(rest), u64::from(slot))?;
    let rest = after(rest, b",")?;
    after(after_gap(rest), b"{")
}

/// Returns whether a range is a put, written as most programs write it. An entry of hex digits, or
/// with a negative number, has to be read.
pub(crate) fn spells_put(text: &[u8], span: Span, size: u32, slot: u32, entry: &Sqe) -> bool
    ensures { IsTrue result → (thread index : ℕ)
        → IsRange (instruction_at size thread) text.now span index (Put slot entry.now) }
{
    if size <= slot {
        return false;
    }
    let Some(numbers) = numbers_of(entry) else {
        return false;
    };
    let Some(range) = range_of(text, span) else {
        return false;
    };
    let Some(rest) = after_start(range, slot) else {
        return false;
    };
    ends_put(rest, false, &numbers, numbers, MOST_MEMBERS)
}
