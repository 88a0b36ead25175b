//! The stop points of the threads that an editor shows.
ghost use Rattle.std.specs.Prelude.{◌≡◌, ◌<◌, ◌≤◌, length};
ghost use Rattle.stops.specs.StopPoints.{is_event_of, is_after_step, next_stop, previous_stop};

use scenario::Event;

/// A thread as an editor shows it.
#[derive(Clone, Copy, PartialEq, Eq)]
pub enum EditorThread {
    /// The whole run: each event is one of its steps.
    Run,
    /// A thread of the program, by its number.
    Thread(u32),
    /// The kernel thread that polls the submission ring (IORING_SETUP_SQPOLL).
    Poller,
    /// Requests that are issued and complete, and the clock.
    Kernel,
}

/// Returns whether an event is a step of a thread.
pub fn is_event_of(thread: EditorThread, event: Event) -> bool
    ensures { result ≡ is_event_of thread event }
{
    match (thread, event) {
        (EditorThread::Run, _) => true,
        (EditorThread::Thread(number), Event::Step(stepped)) => stepped == number,
        (EditorThread::Poller, Event::Take(_) | Event::Sleep) => true,
        (
            EditorThread::Kernel,
            Event::Issue(_) | Event::Finish(_, _) | Event::Expire(_) | Event::Tick(_),
        ) => true,
        _ => false,
    }
}

// Returns whether the event before a moment is a step of a thread.
fn is_after_step(events: &[Event], thread: EditorThread, moment: usize) -> bool
    requires some { 0 < moment }
    requires within { moment ≤ length events.now }
    ensures { result ≡ is_after_step events.now thread moment }
{
    is_event_of(thread, events[moment - 1])
}

/// Returns the least stop point of a thread above the position, or the end.
pub fn next_stop(events: &[Event], thread: EditorThread, at: usize) -> usize
    requires { at ≤ length events.now }
    ensures { result ≡ next_stop events.now thread at }
{
    for passed in at..events.len() {
        let moment = passed + 1;
        if is_after_step(events, thread, moment) {
            return moment;
        }
    }
    events.len()
}

/// Returns the greatest stop point of a thread below the position, or the start.
pub fn previous_stop(events: &[Event], thread: EditorThread, at: usize) -> usize
    requires { at ≤ length events.now }
    ensures { result ≡ previous_stop events.now thread at }
{
    let mut moment = at;
    while moment > 1 {
        moment -= 1;
        if is_after_step(events, thread, moment) {
            return moment;
        }
    }
    0
}
