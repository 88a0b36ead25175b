//! Choosing the next event of a run.
ghost use Rattle.std.specs.Prelude.{◌≡◌, ℕ, ◌<◌, ◌+◌, ◌≤◌, ◌||◌, ◌⊎◌, true, false, length, not, Some, None, IfSome, IfNone, map, slice_get, if◌then◌else◌};
ghost use Rattle.std.specs.Option.{option_map, option_map_or};
ghost use Rattle.machine.specs.Threads.{program_of};
ghost use Rattle.scenario.specs.declared.event.Event.TheVariants.{Step};
ghost use Rattle.sampling.specs.Choosing.{SaysBest, IsChosen, NoneChosen, beats, challenged};
ghost use Rattle.sampling.specs.Samples.{IsNext, IsEnd};
ghost use Rattle.sampling.specs.Locks.{is_locked, holds};
ghost use Rattle.sampling.specs.Offers.{rank_at, thread_position, row_position};
ghost use Rattle.sampling.specs.Spots.{spot_of};
ghost use Rattle.prompt_order.specs.Prompt.{IsDue, NothingDue};

use crate::draws::{Source, mixed};
use crate::locks::{Spot, holds, is_locked, spot_of};
use crate::offers::{clock_offer, poller_offer};
use crate::program::Program;
use crate::rows::row_offer;
use machine::{Event, State};
use prompt_order::{begun_by, next_due};

/// The number of the poller among the actors. The threads come before it.
pub(crate) const POLLER: u64 = 16;

/// The number of the first request.
pub(crate) const FIRST_ROW: u64 = 17;

/// The number of the clock, after all requests.
const CLOCK: u64 = 65_553;

/// The accepted event of the greatest rank, of the actors so far.
#[derive(Clone, Copy)]
pub(crate) struct Best {
    pub(crate) rank: u64,
    pub(crate) event: Event,
}

/// The next event of a run.
#[derive(Clone, Copy)]
pub(crate) struct NextEvent {
    pub(crate) event: Event,
    /// The first request of the last submission after it.
    pub(crate) row: u32,
}

/// Returns the next event of a run whose last submission is of the requests from number `from` on,
/// or None if that has ended and no event that an actor offers is accepted. Doesn't allocate.
pub(crate) fn next_event(
    state: &State,
    program: &Program<'_>,
    source: &Source,
    from: u32,
) -> Option<NextEvent>
    requires programs { map program_of state.now.threads ≡ program.now.threads }
    ensures some { IfSome result (λ n. IsNext source.now state.now from n.event n.row) }
    ensures none { IfNone result (IsEnd source.now state.now from) }
{
    if let Some(next) = due_event(state, source.late, from) {
        return Some(next);
    }
    let event = chosen_event(state, program, source)?;
    let row = begun_by(state, event);
    Some(NextEvent { event, row })
}

/// Returns what the submission of the requests from number `from` on does next, unless requests may
/// be late.
pub(crate) fn due_event(state: &State, late: bool, from: u32) -> Option<NextEvent>
    ensures some { IfSome result (λ n. (late ≡ false)
        × ((r : ℕ) × IsDue state.now from r n.event) × (n.row ≡ from)) }
    ensures none { IfNone result ((late ≡ true) ⊎ NothingDue state.now from) }
{
    if late {
        return None;
    }
    match next_due(state, from) {
        Some(due) => Some(NextEvent {
            event: due.event,
            row: from,
        }),
        None => None,
    }
}

// Returns the accepted event of the greatest rank. Doesn't allocate.
fn chosen_event(state: &State, program: &Program<'_>, source: &Source) -> Option<Event>
    requires programs { map program_of state.now.threads ≡ program.now.threads }
    ensures some { IfSome result (IsChosen source.now state.now) }
    ensures none { IfNone result (NoneChosen source.now state.now) }
{
    let best = best_thread(state, program, source);
    let best = with_poller(state, source, best);
    let best = with_rows(state, source, best);
    match with_clock(state, source, best) {
        Some(best) => Some(best.event),
        None => None,
    }
}

fn best_thread(state: &State, program: &Program<'_>, source: &Source) -> Option<Best>
    requires programs { map program_of state.now.threads ≡ program.now.threads }
    ensures { SaysBest source.now state.now 16 result }
{
    let is_free = source.unlocked || !is_locked(state, program);
    let mut best = None;
    for thread in 0..program.thread_count() {
        best = with_thread(state, program, source, is_free, thread, best);
    }
    best
}

// Returns the best event after a thread made its offer. `is_free` says whether a thread needs no
// lock.
fn with_thread(
    state: &State,
    program: &Program<'_>,
    source: &Source,
    is_free: bool,
    thread: u32,
    best: Option<Best>,
) -> Option<Best>
    requires programs { map program_of state.now.threads ≡ program.now.threads }
    requires free { is_free ≡ (source.now.unlocked || not (is_locked state.now)) }
    requires few { thread < 16 }
    ensures { SaysBest source.now state.now thread best
        → SaysBest source.now state.now (thread + 1) result }
{
    let spot = spot_of(state, thread);
    let rank = rank_at(source, thread as u64, thread_position(spot));
    if !beats(rank, best) {
        return best;
    }
    let offer = step_offer(state, program, is_free, thread, spot);
    challenged(state, rank, offer, best)
}

// Returns the next step of a thread that is there, if it needs no lock or holds it.
fn step_offer(
    state: &State,
    program: &Program<'_>,
    is_free: bool,
    thread: u32,
    spot: Option<Spot>,
) -> Option<Event>
    requires programs { map program_of state.now.threads ≡ program.now.threads }
    requires spot { spot ≡ option_map spot_of (slice_get state.now.threads thread) }
    ensures { result
        ≡ (if is_free || option_map_or holds (slice_get state.now.threads thread) false
        then Some (Step thread) else None) }
{
    if is_free || holds(state, program, thread, spot) {
        Some(Event::Step(thread))
    } else {
        None
    }
}

fn thread_position(spot: Option<Spot>) -> u64
    requires small { IfSome spot (λ s. s.counter ≤ 4096) }
    ensures { result ≡ thread_position spot }
{
    match spot {
        Some(spot) => 2 * spot.counter + if spot.is_waiting { 1 } else { 0 },
        None => 0,
    }
}

fn with_poller(state: &State, source: &Source, best: Option<Best>) -> Option<Best>
    ensures { SaysBest source.now state.now 16 best → SaysBest source.now state.now 17 result }
{
    let rank = rank_at(source, POLLER, state.submissions().head() as u64);
    if !beats(rank, best) {
        return best;
    }
    challenged(state, rank, poller_offer(state, source), best)
}

fn with_rows(state: &State, source: &Source, first: Option<Best>) -> Option<Best>
    ensures { SaysBest source.now state.now 17 first → SaysBest source.now state.now 65553 result }
{
    let mut best = first;
    let mut from = 0;
    'rows: while let Some(r) = state.next_unfinished(from) {
        best = with_row(state, source, r, best);
        from = r + 1;
    }
    best
}

fn with_row(state: &State, source: &Source, r: u32, best: Option<Best>) -> Option<Best>
    requires small { r < 65536 }
    ensures { SaysBest source.now state.now (17 + r) best
        → SaysBest source.now state.now (17 + r + 1) result }
{
    let rank = rank_at(source, FIRST_ROW + r as u64, row_position(state, r));
    if !beats(rank, best) {
        return best;
    }
    challenged(state, rank, row_offer(state, source, r), best)
}

// Returns whether a request is issued, as a number, without reading the request.
fn row_position(state: &State, r: u32) -> u64
    ensures { result ≡ row_position state.now r }
{
    match state.next_issued(r) {
        Some(next) if next == r => 1,
        _ => 0,
    }
}

fn with_clock(state: &State, source: &Source, best: Option<Best>) -> Option<Best>
    ensures { SaysBest source.now state.now 65553 best
        → SaysBest source.now state.now 65554 result }
{
    let rank = rank_at(source, CLOCK, state.clock());
    if !beats(rank, best) {
        return best;
    }
    challenged(state, rank, clock_offer(state), best)
}

// Returns whether a rank is greater than that of the best event so far.
fn beats(rank: u64, best: Option<Best>) -> bool
    ensures { result ≡ beats rank best }
{
    match best {
        Some(best) => rank > best.rank,
        None => true,
    }
}

// Returns the best event after an actor of a greater rank made its offer.
fn challenged(state: &State, rank: u64, offer: Option<Event>, best: Option<Best>) -> Option<Best>
    ensures { result ≡ challenged state.now rank offer best }
{
    match offer {
        Some(event) => {
            if state.refuses(event).is_none() {
                Some(Best { rank, event })
            } else {
                best
            }
        }
        None => best,
    }
}

// Returns a drawn number whose lowest bits are the actor's number.
#[tactic(auto, unfolding(crate::specs::Offers::rank_at))]
fn rank_at(source: &Source, actor: u64, position: u64) -> u64
    requires { actor < 131072 }
    ensures { result ≡ rank_at source.now.key actor position }
{
    mixed(source.key, actor, position) / 131_072 * 131_072 + actor
}
