//! Parsing of the names of places. A name has one to three words.
ghost use Rattle.std.specs.Prelude.{◌≡◌, map, true};
ghost use Rattle.std.specs.Char.{is_ascii_digit};
ghost use Rattle.std.specs.List.{list_all, find};
ghost use Rattle.scenario.specs.PlaceTexts.{is_word_of};
ghost use Rattle.scenario.specs.Names.{is_numeral, number_of, singles, has_single, single_named, kind_named, pair_named, byte_named, byte_place_named, place_named};

use crate::numbered::{kind_of_name, member};
use crate::owned::{byte_of_name, byte_place, object_place, object_place_of_name};
use crate::place_text::is_word_of;
use crate::setup::Setup;
use places::Place;

/// What is wrong with the name of a place.
#[derive(Clone, Copy)]
pub enum PlaceFault {
    /// No name of this many words, or an object, a descriptor, a thread or an index that doesn't
    /// exist.
    Place,
    /// A word that should be a number isn't one.
    Number,
}

// The places with names of one word.
const SINGLES: [Place; 10] = [
    Place::SubmissionHead,
    Place::SubmissionTail,
    Place::SubmissionFlags,
    Place::SubmissionDropped,
    Place::CompletionHead,
    Place::CompletionTail,
    Place::Clock,
    Place::Counted,
    Place::BacklogFront,
    Place::PollerStage,
];

/// Returns the place that the words name. The checks have this order: the name and the number of
/// words, the object and its kind, the syntax of numbers, their ranges. The numbers of descriptors
/// and threads are checked as ranges.
pub fn place_of(setup: &Setup, words: &[&[u8]]) -> Result<Place, PlaceFault>
    ensures { result ≡ place_named setup.now (map (λ w. w.now) words.now) }
{
    match words {
        [name] => single(setup, name).ok_or(PlaceFault::Place),
        [name, word] => pair(setup, name, word),
        [name, object, index] => triple(setup, name, object, index),
        _ => Err(PlaceFault::Place),
    }
}

// Parses a name that is followed by a number, or by an object's name.
fn pair(setup: &Setup, name: &[u8], word: &[u8]) -> Result<Place, PlaceFault>
    ensures { result ≡ pair_named setup.now (kind_named name.now) name.now word.now }
{
    if let Some(kind) = kind_of_name(name) {
        return member(setup, kind, word);
    }
    match object_place_of_name(name) {
        Some(place) => object_place(setup, place, word).ok_or(PlaceFault::Place),
        None => Err(PlaceFault::Place),
    }
}

// Parses a name that is followed by an object's name and a number.
fn triple(setup: &Setup, name: &[u8], object: &[u8], index: &[u8]) -> Result<Place, PlaceFault>
    ensures { result ≡ byte_named setup.now (byte_place_named name.now) object.now index.now }
{
    match byte_of_name(name) {
        Some(place) => byte_place(setup, place, object, index),
        None => Err(PlaceFault::Place),
    }
}

/// Parses a decimal number without leading zeros, at most 4294967295.
pub fn read_number(word: &[u8]) -> Option<u32>
    ensures { result ≡ number_of word.now }
{
    if !is_numeral(word) {
        return None;
    }
    read_digits(word)
}

// Returns whether a word consists of decimal digits.
fn is_digits(word: &[u8]) -> bool
    ensures { result ≡ list_all is_ascii_digit word.now }
{
    word.iter().all(|b| b.is_ascii_digit())
}

// Returns whether a word is a decimal number without leading zeros.
fn is_numeral(word: &[u8]) -> bool
    ensures { result ≡ is_numeral word.now }
{
    is_digits(word) && !word.is_empty() && (word.len() < 2 || word[0] != b'0')
}

fn read_digits(word: &[u8]) -> Option<u32>
    requires { is_numeral word.now ≡ true }
    ensures { result ≡ number_of word.now }
{
    match std::str::from_utf8(word) {
        Ok(text) => text.parse::<u32>().ok(),
        Err(_) => None,
    }
}

// Returns the place with a name of one word, whether or not the setup has it.
fn single_of_name(name: &[u8]) -> Option<Place>
    ensures { result ≡ find (is_word_of name.now) singles }
{
    SINGLES
        .iter()
        .find(|place| is_word_of(name, **place))
        .copied()
}

fn has_single(setup: &Setup, place: Place) -> bool
    ensures { result ≡ has_single setup.now place }
{
    match place {
        Place::PollerStage => setup.sqpoll,
        _ => true,
    }
}

// Parses a name of one word.
fn single(setup: &Setup, name: &[u8]) -> Option<Place>
    ensures { result ≡ single_named setup.now name.now }
{
    let place = single_of_name(name)?;
    has_single(setup, place).then_some(place)
}
