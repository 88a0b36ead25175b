//! Where a step of a thread leads: "Next Request" and "StepBack Request" of the Debug Adapter
//! Protocol's specification.
ghost use Rattle.std.specs.Prelude.{◌≡◌};
ghost use Rattle.dap_lists.specs.Steps.{stepping, moment_ahead, moment_back};

use dap_messages::Granularity;
use inverse_log::Walker;
use stops::{EditorThread, next_stop, previous_stop};

// Returns the thread whose stop points a step uses.
fn stepping(thread: EditorThread, granularity: Granularity) -> EditorThread
    ensures { result ≡ stepping thread granularity }
{
    match granularity {
        Granularity::Instruction => EditorThread::Run,
        _ => thread,
    }
}

/// Returns the moment to which a step of a thread goes forward.
pub fn moment_ahead(walker: &Walker, thread: EditorThread, granularity: Granularity) -> usize
    ensures { result ≡ moment_ahead walker.now thread granularity }
{
    next_stop(walker.events(), stepping(thread, granularity), walker.at())
}

/// Returns the moment to which a step of a thread goes back.
pub fn moment_back(walker: &Walker, thread: EditorThread, granularity: Granularity) -> usize
    ensures { result ≡ moment_back walker.now thread granularity }
{
    previous_stop(walker.events(), stepping(thread, granularity), walker.at())
}
