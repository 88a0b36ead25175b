//! Which events each kind of actor may make.
ghost use Rattle.std.specs.Prelude.{◌≡◌};
ghost use Rattle.live_rules.specs.Actors.{is_own};

use live_rules::{is_poller, is_submitter, is_worker};
use scenario::{Event, Setup};

/// Returns whether an actor may make an event, out of `count` actors.
pub(crate) fn is_own(setup: &Setup, count: u32, actor: u32, event: Event) -> bool
    ensures { result ≡ is_own setup.now count actor event }
{
    match event {
        Event::Step(t) => actor < count && (is_submitter(setup, actor) && t == actor),
        Event::Take(_) | Event::Sleep => actor < count && is_poller(setup, actor),
        Event::Issue(_) | Event::Finish(_, _) | Event::Expire(_) | Event::Tick(_) => {
            actor < count && is_worker(setup, actor)
        }
    }
}
