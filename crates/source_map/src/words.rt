//! Events and instructions that are a word and numbers, compared with ranges of a text.
ghost use Rattle.std.specs.Prelude.{IsTrue, ℕ};
ghost use Rattle.script.specs.Events.{event_at};
ghost use Rattle.script.specs.Instructions.{instruction_at};
ghost use Rattle.source_map.specs.Maps.{IsRange};

use crate::span::Span;
use crate::spelling::is_list;
use entries::Choice;
use scenario::{Event, Instruction};

/// Returns whether a range is an event, written as most programs write it. An event with a choice
/// has to be read.
pub(crate) fn spells_event(text: &[u8], span: Span, event: &Event) -> bool
    ensures { IsTrue result → (index : ℕ) → IsRange event_at text.now span index event.now }
{
    match *event {
        Event::Step(thread) => is_list(text, span, b"\"step\"", &[u64::from(thread)]),
        Event::Take(entries) => is_list(text, span, b"\"take\"", &[u64::from(entries)]),
        Event::Sleep => is_list(text, span, b"\"sleep\"", &[]),
        Event::Issue(row) => is_list(text, span, b"\"issue\"", &[u64::from(row)]),
        Event::Finish(row, choice) => match choice {
            Choice::Full => is_list(text, span, b"\"finish\"", &[u64::from(row)]),
            Choice::Short(_) | Choice::Eio => false,
        },
        Event::Expire(row) => is_list(text, span, b"\"expire\"", &[u64::from(row)]),
        Event::Tick(nanoseconds) => is_list(text, span, b"\"tick\"", &[nanoseconds]),
    }
}

/// Returns whether a range is an instruction, written as most programs write it. A store and a
/// close have to be read, and a put is compared apart.
pub(crate) fn spells_instruction(text: &[u8], span: Span, instruction: &Instruction) -> bool
    ensures { IsTrue result → (size thread index : ℕ)
        → IsRange (instruction_at size thread) text.now span index instruction.now }
{
    match instruction {
        Instruction::Push(index) => is_list(text, span, b"\"push\"", &[u64::from(*index)]),
        Instruction::Enter {
            to_submit,
            min_complete,
            flags,
        } => {
            let numbers = [
                u64::from(*to_submit),
                u64::from(*min_complete),
                u64::from(*flags),
            ];
            is_list(text, span, b"\"enter\"", &numbers)
        }
        Instruction::Reap => is_list(text, span, b"\"reap\"", &[]),
        Instruction::Put(_, _) | Instruction::Store(_, _) | Instruction::Close(_) => false,
    }
}
