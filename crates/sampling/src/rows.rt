//! The events that requests offer.
ghost use Rattle.std.specs.Prelude.{◌≡◌, ◌<◌, ◌+◌, Some, None};
ghost use Rattle.sampling.specs.Offers.{row_offer, finish_offer, drawn_choice, choice_by, short_of, short_bytes};

use crate::choosing::FIRST_ROW;
use crate::draws::{Source, below, draw, mixed};
use entries::{Choice, Phase};
use machine::{Event, State};
use opcodes::is_timer;

/// Returns what happens to a request next.
#[tactic(auto, unfolding(crate::specs::Offers::row_offer))]
pub(crate) fn row_offer(state: &State, source: &Source, r: u32) -> Option<Event>
    requires small { r < 65536 }
    ensures { result ≡ row_offer source.now state.now r }
{
    let row = state.row(r)?;
    match row.phase {
        Phase::Queued => Some(Event::Issue(r)),
        Phase::Issued => {
            if is_timer(row.entry.opcode) {
                Some(Event::Expire(r))
            } else {
                Some(finish_offer(state, source, r))
            }
        }
        Phase::Ended(_) => None,
    }
}

// Finishes a request as drawn, or in full if that is refused.
fn finish_offer(state: &State, source: &Source, r: u32) -> Event
    requires small { r < 65536 }
    ensures { result ≡ finish_offer source.now state.now r }
{
    let event = Event::Finish(r, drawn_choice(state, source, r));
    if state.refuses(event).is_none() {
        event
    } else {
        Event::Finish(r, Choice::Full)
    }
}

#[tactic(auto, unfolding(crate::specs::Offers::drawn_choice))]
fn drawn_choice(state: &State, source: &Source, r: u32) -> Choice
    requires small { r < 65536 }
    ensures { result ≡ drawn_choice source.now state.now r }
{
    let word = mixed(source.key, FIRST_ROW + r as u64, 1);
    if below(10, draw(word, 0)) < source.eio_tenths {
        Choice::Eio
    } else if below(10, draw(word, 1)) < source.short_tenths {
        short_of(state.full_bytes(r), word)
    } else {
        Choice::Full
    }
}

// Draws a short transfer, where the request transfers `full` bytes in full.
fn short_of(full: Option<u32>, word: u64) -> Choice
    ensures { result ≡ short_of full word }
{
    match full {
        Some(k) if k >= 2 => Choice::Short(short_bytes(k, word)),
        _ => Choice::Full,
    }
}

// Draws a number of bytes from 1 to k - 1.
fn short_bytes(k: u32, word: u64) -> u32
    requires { 1 < k }
    ensures { result ≡ short_bytes k word }
{
    match below(3, draw(word, 2)) {
        0 => 1,
        1 => k - 1,
        _ => 1 + below(k - 1, draw(word, 3)),
    }
}
