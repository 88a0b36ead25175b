//! Parses the `break` command: a place, the mark `=`, and a value.
ghost use Rattle.std.specs.Prelude.{◌≡◌, ◌+◌, ◌<◌, map, length, count_by, IfSome};
ghost use Rattle.std.specs.List.{position};
ghost use Rattle.commands.specs.Commands.{is_mark, mark_of, value_in, break_named, breaking};

use crate::command::{Command, CommandFault, parse_place};
use crate::values::value_of;
use places::{Place, Value};
use scenario::Setup;

// Parses the words of a `break` command.
pub(crate) fn parse_break(setup: &Setup, words: &[&[u8]]) -> Result<Command, CommandFault>
    ensures { result ≡ breaking setup.now (map (λ w. w.now) words.now) }
{
    match mark_of(words) {
        Some(at) => parse_parts(setup, &words[..at], &words[at + 1..]),
        None => Err(CommandFault::Command),
    }
}

// Parses the place before the mark, and the value after it.
fn parse_parts(setup: &Setup, name: &[&[u8]], words: &[&[u8]]) -> Result<Command, CommandFault>
    ensures { result ≡ break_named setup.now (map (λ w. w.now) name.now)
        (map (λ w. w.now) words.now) }
{
    let place = parse_place(setup, name)?;
    match value_in(place, words) {
        Some(value) => Ok(Command::Break(place, value)),
        None => Err(CommandFault::Value),
    }
}

// Returns the value of a place, if it is a single word.
fn value_in(place: Place, words: &[&[u8]]) -> Option<Value>
    ensures { result ≡ value_in place (map (λ w. w.now) words.now) }
{
    match words {
        [word] => value_of(place, word),
        _ => None,
    }
}

// Returns the position of the mark, if exactly one mark is followed by a word.
fn mark_of(words: &[&[u8]]) -> Option<usize>
    ensures value { result ≡ mark_of (map (λ w. w.now) words.now) }
    ensures followed { IfSome result (λ at. at + 1 < length words.now) }
{
    let followed = &words[..words.len().saturating_sub(1)];
    if count_marks(followed) == 1 {
        first_mark(followed)
    } else {
        None
    }
}

fn count_marks(words: &[&[u8]]) -> usize
    ensures { result ≡ count_by (λ w. is_mark w.now) words.now }
{
    words.iter().filter(|word| is_mark(word)).count()
}

fn first_mark(words: &[&[u8]]) -> Option<usize>
    ensures value { result ≡ position (λ w. is_mark w.now) words.now }
    ensures within { IfSome result (λ at. at < length words.now) }
{
    words.iter().position(|word| is_mark(word))
}

fn is_mark(word: &[u8]) -> bool
    ensures { result ≡ is_mark word.now }
{
    word == b"=".as_slice()
}
