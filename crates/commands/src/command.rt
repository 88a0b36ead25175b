//! Parses command lines.
ghost use Rattle.std.specs.Prelude.{◌≡◌, map, Ok, IfOk};
ghost use Rattle.scenario.specs.Names.{place_named};
ghost use Rattle.commands.specs.Commands.{alone, only_number, placed, command_by, command_of_words, command_of};

use crate::breaks::parse_break;
use crate::verb::{Verb, parse_verb};
use crate::words::words;
use places::{Place, Value};
use scenario::{PlaceFault, Setup, place_of, read_number};
use std::alloc::{AllocError, Global};

/// The maximum length of a command line, in bytes.
pub const LIMIT: usize = 256;

/// A command of the debugger.
#[derive(Clone, Copy)]
pub enum Command {
    Where,
    Show(Place),
    Goto(u32),
    Back(u32),
    On(u32),
    Watch(Place),
    Break(Place, Value),
    Unwatch,
    Cont,
    Rcont,
    Sync,
    Quit,
}

/// Why a line isn't a command. The discriminant is the number that is reported.
#[derive(Clone, Copy)]
pub enum CommandFault {
    /// There is no such command, or it has another number of words.
    Command = 1,
    /// A word isn't a number, but a number is required.
    Number = 2,
    /// There is no such place.
    Place = 3,
    /// The line is too long.
    Long = 4,
    /// The place can't have such a value.
    Value = 5,
    /// There are too many watches or breaks.
    Many = 6,
}

// Parses the name of a place.
pub(crate) fn parse_place(setup: &Setup, name: &[&[u8]]) -> Result<Place, CommandFault>
    ensures { result ≡ placed (place_named setup.now (map (λ w. w.now) name.now)) (λ p. Ok p) }
{
    match place_of(setup, name) {
        Ok(place) => Ok(place),
        Err(PlaceFault::Place) => Err(CommandFault::Place),
        Err(PlaceFault::Number) => Err(CommandFault::Number),
    }
}

// Parses the rest of a `show` command.
fn parse_show(setup: &Setup, name: &[&[u8]]) -> Result<Command, CommandFault>
    ensures { result ≡ placed (place_named setup.now (map (λ w. w.now) name.now))
        (λ p. Ok (Command.Show p)) }
{
    Ok(Command::Show(parse_place(setup, name)?))
}

// Parses the rest of a `watch` command.
fn parse_watch(setup: &Setup, name: &[&[u8]]) -> Result<Command, CommandFault>
    ensures { result ≡ placed (place_named setup.now (map (λ w. w.now) name.now))
        (λ p. Ok (Command.Watch p)) }
{
    Ok(Command::Watch(parse_place(setup, name)?))
}

// Returns a command that is its verb alone.
fn alone(words: &[&[u8]], command: Command) -> Result<Command, CommandFault>
    ensures { result ≡ alone command (map (λ w. w.now) words.now) }
{
    if words.is_empty() {
        Ok(command)
    } else {
        Err(CommandFault::Command)
    }
}

// Parses the number that is the only word after a verb.
fn parse_number(words: &[&[u8]]) -> Result<u32, CommandFault>
    ensures { result ≡ only_number (map (λ w. w.now) words.now) }
{
    match words {
        [word] => read_number(word).ok_or(CommandFault::Number),
        _ => Err(CommandFault::Command),
    }
}

// Parses the words after a verb.
fn parse_rest(setup: &Setup, verb: Verb, words: &[&[u8]]) -> Result<Command, CommandFault>
    ensures { result ≡ command_by setup.now verb (map (λ w. w.now) words.now) }
{
    match verb {
        Verb::Where => alone(words, Command::Where),
        Verb::Show => parse_show(setup, words),
        Verb::Goto => parse_number(words).map(Command::Goto),
        Verb::Back => parse_number(words).map(Command::Back),
        Verb::On => parse_number(words).map(Command::On),
        Verb::Watch => parse_watch(setup, words),
        Verb::Break => parse_break(setup, words),
        Verb::Unwatch => alone(words, Command::Unwatch),
        Verb::Cont => alone(words, Command::Cont),
        Verb::Rcont => alone(words, Command::Rcont),
        Verb::Sync => alone(words, Command::Sync),
        Verb::Quit => alone(words, Command::Quit),
        Verb::Other => Err(CommandFault::Command),
    }
}

// Parses the words of a command.
fn parse_command(setup: &Setup, words: &[&[u8]]) -> Result<Command, CommandFault>
    ensures { result ≡ command_of_words setup.now (map (λ w. w.now) words.now) }
{
    match words {
        [first, rest @ ..] => parse_rest(setup, parse_verb(first), rest),
        [] => Err(CommandFault::Command),
    }
}

/// Parses a command line. The setup has the names of the objects.
#[tactic(auto, unfolding(crate::specs::Commands::command_of))]
pub fn parse_line(
    alloc: Global,
    setup: &Setup,
    line: &[u8],
) -> Result<Result<Command, CommandFault>, AllocError>
    ensures { IfOk result (λ command. command ≡ command_of setup.now line.now) }
{
    if line.len() > LIMIT {
        return Ok(Err(CommandFault::Long));
    }
    let words = words(alloc, line)?;
    Ok(parse_command(setup, &words))
}
