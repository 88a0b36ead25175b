//! The kinds of actors.
ghost use Rattle.std.specs.Prelude.{◌≡◌, ◌≤◌};
ghost use Rattle.live_rules.specs.Actors.{actors, pollers, is_submitter, is_poller, is_worker};

use scenario::Setup;

/// Returns the number of actors: one submitter per thread, the poller if there is one, and `kernel`
/// kernel workers. They are numbered in this order.
pub fn actors(setup: &Setup, kernel: u32) -> u32
    requires { kernel ≤ 8 }
    ensures value { result ≡ actors setup.now kernel }
    ensures few { result ≤ 25 }
{
    setup.threads.len().min(16) as u32 + pollers(setup) + kernel
}

fn pollers(setup: &Setup) -> u32
    ensures value { result ≡ pollers setup.now }
    ensures few { result ≤ 1 }
{
    if setup.sqpoll { 1 } else { 0 }
}

/// Returns whether an actor is the submitter of a thread.
pub fn is_submitter(setup: &Setup, actor: u32) -> bool
    ensures { result ≡ is_submitter setup.now actor }
{
    (actor as usize) < setup.threads.len()
}

/// Returns whether an actor is the submission queue poller (IORING_SETUP_SQPOLL).
pub fn is_poller(setup: &Setup, actor: u32) -> bool
    ensures { result ≡ is_poller setup.now actor }
{
    setup.sqpoll && actor as usize == setup.threads.len()
}

/// Returns whether an actor is a kernel worker, whose number is after those of the submitters and
/// the poller.
pub fn is_worker(setup: &Setup, actor: u32) -> bool
    ensures { result ≡ is_worker setup.now actor }
{
    match actor.checked_sub(pollers(setup)) {
        Some(rest) => setup.threads.len() <= rest as usize,
        None => false,
    }
}
