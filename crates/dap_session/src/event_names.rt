//! Names of events, as function breakpoints have them.

use machine::Event;
use scenario::read_number;

/// The kind of an event.
#[derive(Clone, Copy, PartialEq, Eq)]
enum Word {
    Step,
    Take,
    Sleep,
    Issue,
    Finish,
    Expire,
    Tick,
}

/// A name of events: a word, and a number if only some events are meant.
#[derive(Clone, Copy)]
pub(crate) struct EventName {
    word: Word,
    number: Option<u32>,
}

// Returns the kind of event that a word names.
fn read_word(word: &str) -> Option<Word> {
    match word {
        "step" => Some(Word::Step),
        "take" => Some(Word::Take),
        "sleep" => Some(Word::Sleep),
        "issue" => Some(Word::Issue),
        "finish" => Some(Word::Finish),
        "expire" => Some(Word::Expire),
        "tick" => Some(Word::Tick),
        _ => None,
    }
}

fn word_of(event: Event) -> Word {
    match event {
        Event::Step(_) => Word::Step,
        Event::Take(_) => Word::Take,
        Event::Sleep => Word::Sleep,
        Event::Issue(_) => Word::Issue,
        Event::Finish(_, _) => Word::Finish,
        Event::Expire(_) => Word::Expire,
        Event::Tick(_) => Word::Tick,
    }
}

// Returns the number of an event, if it has one.
fn number_of(event: Event) -> Option<u64> {
    match event {
        Event::Step(number)
        | Event::Take(number)
        | Event::Issue(number)
        | Event::Finish(number, _)
        | Event::Expire(number) => Some(u64::from(number)),
        Event::Tick(number) => Some(number),
        Event::Sleep => None,
    }
}

impl EventName {
    /// Reads a name, such as `finish 2` or `sleep`.
    pub(crate) fn read(name: &str) -> Option<EventName> {
        let (word, number) = match name.split_once(' ') {
            Some((word, number)) => match read_number(number.as_bytes()) {
                Some(number) => (word, Some(number)),
                None => return None,
            },
            None => (name, None),
        };
        match read_word(word) {
            Some(word) => Some(EventName { word, number }),
            None => None,
        }
    }

    /// Returns whether an event has this name.
    pub(crate) fn names(self, event: Event) -> bool {
        if word_of(event) != self.word {
            return false;
        }
        match (self.number, number_of(event)) {
            (None, _) => true,
            (Some(number), Some(other)) => u64::from(number) == other,
            (Some(_), None) => false,
        }
    }
}
