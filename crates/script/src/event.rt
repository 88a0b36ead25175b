//! The events of a schedule.
ghost use Rattle.std.specs.Prelude.{◌≡◌, ◌≤◌, map, length};
ghost use Rattle.serde_json.specs.View.{view};
ghost use Rattle.script.specs.Faults.{Gives};
ghost use Rattle.script.specs.Lists.{each};
ghost use Rattle.script.specs.declared.event.EventForm.TheVariants.{Finish};
ghost use Rattle.script.specs.Events.{event_of_number, choice_by, choice_words, event_by, event_words, event_form, choice_in_range, event_in_range, event_at};

use crate::fault::{Key, ScriptFault};
use crate::keys::item_path;
use crate::number::{Whole, between, long, whole_of, word};
use entries::Choice;
use scenario::Event;
use serde_json::Value;
use std::alloc::Global;

/// The choice of a Finish, before the range of its number is checked.
#[derive(Clone, Copy)]
pub enum ChoiceForm {
    Full,
    Short(Whole),
    Eio,
}

/// An event, before the ranges of its numbers are checked.
#[derive(Clone, Copy)]
pub enum EventForm {
    Step(Whole),
    Take(Whole),
    Sleep,
    Issue(Whole),
    Finish(Whole, ChoiceForm),
    Expire(Whole),
    Tick(Whole),
}

// Returns the event that has a word and one number.
fn event_of_number(word: &str, n: Whole) -> Option<EventForm>
    ensures { result ≡ event_of_number word.now n }
{
    match word {
        "step" => Some(EventForm::Step(n)),
        "take" => Some(EventForm::Take(n)),
        "issue" => Some(EventForm::Issue(n)),
        "finish" => Some(EventForm::Finish(n, ChoiceForm::Full)),
        "expire" => Some(EventForm::Expire(n)),
        "tick" => Some(EventForm::Tick(n)),
        _ => None,
    }
}

fn choice_by(word: &str, rest: &[Value]) -> Option<ChoiceForm>
    ensures { result ≡ choice_by word.now (map view rest.now) }
{
    match rest {
        [] => match word {
            "eio" => Some(ChoiceForm::Eio),
            _ => None,
        },
        [bytes] => match word {
            "short" => Some(ChoiceForm::Short(whole_of(bytes)?)),
            _ => None,
        },
        _ => None,
    }
}

fn choice_words(items: &[Value]) -> Option<ChoiceForm>
    ensures { result ≡ choice_words (map view items.now) }
{
    let (first, rest) = items.split_first()?;
    choice_by(first.as_str()?, rest)
}

// Returns the event by its word and the items after it.
fn event_by(word: &str, rest: &[Value]) -> Option<EventForm>
    ensures { result ≡ event_by word.now (map view rest.now) }
{
    match rest {
        [] => match word {
            "sleep" => Some(EventForm::Sleep),
            _ => None,
        },
        [n] => event_of_number(word, whole_of(n)?),
        [row, choice @ ..] => match word {
            "finish" => Some(EventForm::Finish(whole_of(row)?, choice_words(choice)?)),
            _ => None,
        },
    }
}

fn event_words(items: &[Value]) -> Option<EventForm>
    ensures { result ≡ event_words (map view items.now) }
{
    let (first, rest) = items.split_first()?;
    event_by(first.as_str()?, rest)
}

fn event_form(value: &Value) -> Option<EventForm>
    ensures { result ≡ event_form (view value.now) }
{
    match value.as_array() {
        Some(items) => event_words(items),
        None => None,
    }
}

fn choice_in_range(form: &ChoiceForm) -> Option<Choice>
    ensures { result ≡ choice_in_range form.now }
{
    match form {
        ChoiceForm::Full => Some(Choice::Full),
        ChoiceForm::Short(bytes) => match between(1, 4294967295, *bytes) {
            Some(n) => Some(Choice::Short(n as u32)),
            None => None,
        },
        ChoiceForm::Eio => Some(Choice::Eio),
    }
}

fn finish_in_range(row: Whole, choice: &ChoiceForm) -> Option<Event>
    ensures { result ≡ event_in_range (Finish row choice.now) }
{
    Some(Event::Finish(word(row)?, choice_in_range(choice)?))
}

fn event_in_range(form: &EventForm) -> Option<Event>
    ensures { result ≡ event_in_range form.now }
{
    match form {
        EventForm::Step(n) => word(*n).map(Event::Step),
        EventForm::Take(n) => word(*n).map(Event::Take),
        EventForm::Sleep => Some(Event::Sleep),
        EventForm::Issue(n) => word(*n).map(Event::Issue),
        EventForm::Finish(row, choice) => finish_in_range(*row, choice),
        EventForm::Expire(n) => word(*n).map(Event::Expire),
        EventForm::Tick(n) => long(*n).map(Event::Tick),
    }
}

/// Reads the event at an index of the schedule.
pub fn read_event(index: u32, value: &Value) -> Result<Event, ScriptFault>
    ensures { result ≡ event_at index (view value.now) }
{
    let path = item_path(Key::Schedule, index);
    let Some(form) = event_form(value) else {
        return Err(ScriptFault::Shape(path));
    };
    match event_in_range(&form) {
        Some(event) => Ok(event),
        None => Err(ScriptFault::Range(path)),
    }
}

/// Reads the events of a list, up to the first fault.
pub fn read_events(alloc: Global, items: &[Value]) -> Result<Vec<Event>, ScriptFault>
    requires { length items.now ≤ 65536 }
    ensures { Gives (λ v. v.items) result (each event_at 0 (map view items.now)) }
{
    let mut events = Vec::new(alloc);
    for (i, item) in items.iter().enumerate() {
        let event = read_event(i as u32, item)?;
        if events.push(event).is_err() {
            return Err(ScriptFault::Memory);
        }
    }
    Ok(events)
}
