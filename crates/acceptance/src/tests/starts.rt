//! Setups that are refused.

use crate::tests::check;
use crate::tests::starting::quiet;
use machine::Setup;
use places::Items;
use scenario::{Instruction, SetupRefusal, setup_refusal};
use std::alloc::{AllocError, Global};

// Builds a setup whose only thread stores two bytes at an address.
fn storing(alloc: Global, address: u32) -> Result<Setup, AllocError> {
    let mut bytes = Vec::new(alloc);
    bytes.extend_from_slice(&[1, 2])?;
    let mut program = Vec::new(alloc);
    program.push(Instruction::Store(address, Items::from_vec(bytes)))?;
    let mut threads = Vec::new(alloc);
    threads.push(Items::from_vec(program))?;
    let mut setup = quiet(alloc);
    setup.threads = Items::from_vec(threads);
    Ok(setup)
}

// A store may reach the end of memory, but not go past it. Ring sizes are checked first.
fn are_refused(alloc: Global) -> Result<bool, AllocError> {
    let last = storing(alloc, 65534)?;
    let mut past = storing(alloc, 65535)?;
    let stores = setup_refusal(&last).is_none()
        && matches!(setup_refusal(&past), Some(SetupRefusal::Limit));
    past.entries = 0;
    Ok(stores && matches!(setup_refusal(&past), Some(SetupRefusal::RingSize)))
}

#[test]
fn setups_past_their_limits_are_refused(rt: HostRuntime) -> Result<(), AllocError> {
    let refused = are_refused(rt.alloc())?;
    check(&rt, refused);
    Ok(())
}
