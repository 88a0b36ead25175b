//! The instructions of the threads' programs.
ghost use Rattle.std.specs.Prelude.{◌≡◌};
ghost use Rattle.finding_kinds.specs.{Common.option_copied, Programs.instruction_at};

use machine::{Event, Instruction, Setup};

/// Returns the instruction at this program counter of the thread whose step the event is, or None
/// for any other event.
pub fn instruction_at(setup: &Setup, event: Event, counter: Option<u64>) -> Option<&Instruction>
    ensures { option_copied result ≡ instruction_at setup.now event counter }
{
    let (Event::Step(thread), Some(counter)) = (event, counter) else {
        return None;
    };
    match setup.threads.as_slice().get(thread as usize) {
        Some(program) => program.as_slice().get(counter as usize),
        None => None,
    }
}
