//! Functions of `traces` that no subcommand of the program calls.
ghost use Rattle.std.specs.Prelude.{◌≡◌, None};
ghost use Rattle.machine.specs.Runs.{setup_refusal};

use crate::tests::check;
use crate::tests::starting::REQUEST_AND_STEP;
use machine::Setup;
use std::alloc::Global;
use std::test::Fail;
use traces::laws::{events_again, setup_and_events_again};
use traces::{TraceFault, migrate, read_trace2};

/// The first-form trace of one NOP that is put, pushed, entered, issued, finished and reaped.
const ONE_NOP: [u8; 108] = [
    0x55, 0x52, 0x54, 0x52, 0x41, 0x43, 0x45, 0x31, 6, 0, 0, 0, 1, 0, 0, 0, 0, 0, 0, 0, 0, 0, 0, 0,
    0, 0, 0, 0, 1, 0, 0, 0, 0, 0, 0, 0, 0, 0, 0, 0, 0, 0, 0, 0, 1, 0, 0, 0, 0, 0, 0, 0, 0, 0, 0, 0,
    0, 0, 0, 0, 4, 0, 0, 0, 0, 0, 0, 0, 0, 0, 0, 0, 0, 0, 0, 0, 5, 0, 0, 0, 0, 0, 0, 0, 0, 0, 0, 0,
    0, 0, 0, 0, 1, 0, 0, 0, 0, 0, 0, 0, 0, 0, 0, 0, 0, 0, 0, 0,
];

/// The second-form trace of the same run.
const ONE_NOP_2: [u8; 225] = [
    85, 82, 84, 82, 65, 67, 69, 50, 1, 0, 2, 0, 0, 0, 0, 0, 0, 0, 0, 0, 0, 0, 0, 0, 0, 0, 0, 0, 0,
    1, 0, 0, 0, 4, 0, 0, 0, 1, 0, 0, 0, 0, 0, 0, 0, 0, 0, 0, 0, 0, 0, 0, 0, 0, 0, 0, 0, 0, 0, 0, 0,
    0, 0, 0, 0, 0, 0, 0, 0, 0, 0, 0, 0, 0, 7, 0, 0, 0, 0, 0, 0, 0, 0, 0, 0, 0, 0, 0, 0, 0, 0, 0, 0,
    0, 0, 0, 0, 0, 0, 0, 0, 0, 0, 0, 0, 0, 2, 0, 0, 0, 0, 4, 1, 0, 0, 0, 0, 0, 0, 0, 0, 0, 0, 0, 5,
    6, 0, 0, 0, 1, 0, 0, 0, 0, 0, 0, 0, 0, 0, 0, 0, 0, 0, 0, 0, 1, 0, 0, 0, 0, 0, 0, 0, 0, 0, 0, 0,
    0, 0, 0, 0, 1, 0, 0, 0, 0, 0, 0, 0, 0, 0, 0, 0, 0, 0, 0, 0, 4, 0, 0, 0, 0, 0, 0, 0, 0, 0, 0, 0,
    0, 0, 0, 0, 5, 0, 0, 0, 0, 0, 0, 0, 0, 0, 0, 0, 0, 0, 0, 0, 1, 0, 0, 0, 0, 0, 0, 0, 0, 0, 0, 0,
    0, 0, 0, 0,
];

/// A trace with each kind of object, descriptor and instruction, both options, and two events.
const WHOLE: [u8; 220] = [
    85, 82, 84, 82, 65, 67, 69, 50, 4, 0, 8, 0, 3, 4, 3, 2, 1, 3, 0, 0, 0, 0, 7, 9, 3, 0, 0, 0, 1,
    102, 1, 2, 0, 0, 0, 1, 2, 2, 112, 95, 2, 64, 0, 0, 0, 2, 101, 57, 3, 254, 255, 255, 255, 255,
    255, 255, 255, 4, 0, 0, 0, 0, 0, 1, 1, 1, 2, 2, 0, 2, 0, 0, 0, 2, 0, 0, 0, 3, 255, 255, 0, 0,
    1, 0, 0, 0, 5, 6, 254, 255, 255, 255, 4, 0, 0, 0, 1, 3, 0, 0, 0, 0, 1, 2, 3, 4, 5, 6, 7, 8, 9,
    10, 11, 12, 13, 14, 15, 16, 17, 18, 19, 20, 21, 22, 23, 24, 25, 26, 27, 28, 29, 30, 31, 32, 33,
    34, 35, 36, 37, 38, 39, 40, 41, 42, 43, 44, 45, 46, 47, 48, 49, 50, 51, 52, 53, 54, 55, 56, 57,
    58, 59, 60, 61, 62, 63, 2, 254, 255, 255, 255, 4, 1, 0, 0, 0, 2, 0, 0, 0, 3, 0, 0, 0, 5, 2, 0,
    0, 0, 1, 0, 0, 0, 0, 0, 0, 0, 0, 0, 0, 0, 0, 0, 0, 0, 7, 0, 0, 0, 0, 0, 0, 0, 5, 0, 0, 0, 0, 0,
    0, 0,
];

// Returns whether the first-form trace is migrated with a setup.
fn is_migrated(alloc: Global, setup: &Setup) -> Result<bool, Fail>
    requires { setup_refusal setup.now ≡ None }
{
    let migrated = migrate(alloc, setup, &ONE_NOP)?;
    Ok(migrated.as_slice() == ONE_NOP_2.as_slice())
}

// Returns whether migrating a second-form trace is refused.
fn is_refused(alloc: Global, setup: &Setup) -> bool
    requires { setup_refusal setup.now ≡ None }
{
    matches!(migrate(alloc, setup, &ONE_NOP_2), Err(TraceFault::Magic))
}

// Returns whether events are unchanged after they are written and read again, alone and with a
// setup.
fn are_read_again(alloc: Global, setup: &Setup) -> Result<bool, Fail>
    requires { setup_refusal setup.now ≡ None }
{
    let alone = events_again(alloc, &REQUEST_AND_STEP)?;
    let (again, events) = setup_and_events_again(alloc, setup, &REQUEST_AND_STEP)?;
    Ok(
        alone.as_slice() == REQUEST_AND_STEP.as_slice()
            && events.as_slice() == REQUEST_AND_STEP.as_slice()
            && again.equals(setup),
    )
}

fn is_one_nop_migrated(alloc: Global) -> Result<bool, Fail> {
    let (setup, _events) = read_trace2(alloc, &ONE_NOP_2)?;
    Ok(is_migrated(alloc, &setup)? && is_refused(alloc, &setup))
}

fn is_whole_again(alloc: Global) -> Result<bool, Fail> {
    let (setup, _events) = read_trace2(alloc, &WHOLE)?;
    are_read_again(alloc, &setup)
}

#[test]
fn traces_are_migrated_and_read_again(rt: HostRuntime) -> Result<(), Fail> {
    let migrated = is_one_nop_migrated(rt.alloc())?;
    let again = is_whole_again(rt.alloc())?;
    check(&rt, migrated && again);
    Ok(())
}
