//! Events as text, in the words of a script's schedule.

use entries::Choice;
use scenario::Event;
use std::fmt;

/// Formats an event as a schedule writes it, without quotes and brackets.
#[derive(Clone, Copy)]
pub struct EventText(pub Event);

impl fmt::Display for EventText {
    ghost use Rattle.std.specs.Prelude.{Some};
    ghost use Rattle.script.specs.EventTexts.{event_text};

    ghost output = { λ text. Some (event_text text.0) };

    fn fmt<W: fmt::Write>(&self, f: &mut fmt::Formatter<W>) -> fmt::Result {
        let EventText(event) = self;
        match event {
            Event::Step(thread) => write!(f, "step {thread}"),
            Event::Take(entries) => write!(f, "take {entries}"),
            Event::Sleep => write!(f, "sleep"),
            Event::Issue(row) => write!(f, "issue {row}"),
            Event::Finish(row, choice) => write!(f, "finish {row}{}", ChoiceText(*choice)),
            Event::Expire(row) => write!(f, "expire {row}"),
            Event::Tick(nanoseconds) => write!(f, "tick {nanoseconds}"),
        }
    }
}

// Formats a choice after a space. A full success has no text.
#[derive(Clone, Copy)]
struct ChoiceText(Choice);

impl fmt::Display for ChoiceText {
    ghost use Rattle.std.specs.Prelude.{Some};
    ghost use Rattle.script.specs.EventTexts.{choice_text};

    ghost output = { λ text. Some (choice_text text.0) };

    fn fmt<W: fmt::Write>(&self, f: &mut fmt::Formatter<W>) -> fmt::Result {
        let ChoiceText(choice) = self;
        match choice {
            Choice::Full => Ok(()),
            Choice::Short(bytes) => write!(f, " short {bytes}"),
            Choice::Eio => write!(f, " eio"),
        }
    }
}
