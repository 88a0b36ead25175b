//! Replies to single lines.
ghost use Rattle.std.specs.Prelude.{◌≡◌, ◌≤◌, length, option_map, IfOk, OnOk, OnErr};
ghost use Rattle.inverse_log.specs.Walks.{jumped};
ghost use Rattle.debug_server.specs.Replies.{at_text, goes_to, reply_to, reply};
ghost use Rattle.debug_server.specs.Quitting.{is_quit};
ghost use Rattle.debug_server.specs.SessionStates.{Runs};

use crate::stops::{break_at, jump_to, stop_back, stop_on, unwatch, watch};
use crate::syncing::sync;
use crate::texts::{at_line, fault_line, value_line};
use crate::visitor::Visitor;
use commands::{Command, CommandFault, parse_line};
use inverse_log::Walker;
use machine::Event;
use std::alloc::{AllocError, Global};

// Moves to a moment and reports it. The text is built first, so that an `Err` changes nothing.
fn jump(alloc: Global, walker: &mut Walker, moment: usize) -> Result<Vec<u8>, AllocError>
    requires { moment ≤ length walker.old.events }
    ensures text { IfOk result (λ text. text.items ≡ at_text moment (length walker.old.events)) }
    ensures moved { OnOk result (walker.new ≡ jumped walker.old moment) }
    ensures err { OnErr result (walker.new ≡ walker.old) }
{
    let text = at_line(alloc, moment, walker.len())?;
    jump_to(walker, moment)?;
    Ok(text)
}

// Does the same, or refuses if the run has no such moment.
fn go_to(alloc: Global, visitor: &mut Visitor, moment: usize) -> Result<Vec<u8>, AllocError>
    ensures text { IfOk result (λ text. text.items ≡ (goes_to visitor.old moment).text) }
    ensures next { OnOk result (visitor.new ≡ (goes_to visitor.old moment).next) }
    ensures err { OnErr result (visitor.new ≡ visitor.old) }
{
    if moment <= visitor.walker.len() {
        jump(alloc, &mut visitor.walker, moment)
    } else {
        Vec::from_slice(alloc, b"refused 1 moment\n")
    }
}

// Executes a command and returns its reply.
fn text_of(
    alloc: Global,
    visitor: &mut Visitor,
    command: Result<Command, CommandFault>,
    answer: Option<&[Event]>,
) -> Result<Vec<u8>, AllocError>
    ensures text { IfOk result (λ text. text.items
        ≡ (reply_to visitor.old command (option_map (λ es. es.now) answer.entry)).text) }
    ensures next { OnOk result (visitor.new
        ≡ (reply_to visitor.old command (option_map (λ es. es.now) answer.entry)).next) }
    ensures err { OnErr result (visitor.new ≡ visitor.old) }
{
    let (at, len) = (visitor.walker.at(), visitor.walker.len());
    match command {
        Err(fault) => fault_line(alloc, fault),
        Ok(Command::Where) => at_line(alloc, at, len),
        Ok(Command::Show(place)) => value_line(alloc, visitor.walker.state().value(place)),
        Ok(Command::Goto(n)) => go_to(alloc, visitor, n as usize),
        Ok(Command::Back(n)) => jump(alloc, &mut visitor.walker, at.saturating_sub(n as usize)),
        Ok(Command::On(n)) => jump(alloc, &mut visitor.walker, (at + n as usize).min(len)),
        Ok(Command::Watch(place)) => watch(alloc, visitor, place),
        Ok(Command::Break(place, value)) => break_at(alloc, visitor, place, value),
        Ok(Command::Unwatch) => unwatch(alloc, visitor),
        Ok(Command::Cont) => stop_on(alloc, visitor),
        Ok(Command::Rcont) => stop_back(alloc, visitor),
        Ok(Command::Sync) => sync(alloc, visitor, answer),
        Ok(Command::Quit) => Vec::from_slice(alloc, b"bye\n"),
    }
}

// Returns whether the command ends the session.
fn is_quit(command: Result<Command, CommandFault>) -> bool
    ensures { result ≡ is_quit command }
{
    matches!(command, Ok(Command::Quit))
}

// Replies to one line, given the source's answer. Returns the text, and whether the line ends the
// session.
pub(crate) fn reply_to_line(
    alloc: Global,
    visitor: &mut Visitor,
    line: &[u8],
    answer: Option<&[Event]>,
) -> Result<(Vec<u8>, bool), AllocError>
    ensures text { IfOk result (λ r. r.0.items
        ≡ (reply visitor.old line.now (option_map (λ es. es.now) answer.entry)).text) }
    ensures next { OnOk result (visitor.new
        ≡ (reply visitor.old line.now (option_map (λ es. es.now) answer.entry)).next) }
    ensures quits { IfOk result (λ r. r.1
        ≡ (reply visitor.old line.now (option_map (λ es. es.now) answer.entry)).quits) }
    ensures err { OnErr result (visitor.new ≡ visitor.old) }
    ensures runs { Runs visitor.old.walk }
{
    // For the proof: the walk's events run from the setup's start.
    let _position = visitor.position();
    let command = parse_line(alloc, visitor.walker.setup(), line)?;
    let text = text_of(alloc, visitor, command, answer)?;
    Ok((text, is_quit(command)))
}
