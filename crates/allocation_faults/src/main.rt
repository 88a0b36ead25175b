//! Makes a call with an injected allocation failure, and then the same call again. It prints each
//! result, and checksums of everything that the call can change. `tests/faults/run` compares them
//! between runs.
//!
//! The arguments are the call, the path of a script, the number of the allocation that fails, and
//! two numbers that say how much of the script's schedule has run. With the number 0, no allocation
//! fails, and the call is made once. For a session, a command line and the lines before it follow.
//! Standard input has the lines that the session receives after each call, or that are served. A
//! preloaded library counts allocations and makes one fail, between the lines `armed` and
//! `disarmed` on standard error. Without it, none fails.
#![tactic(auto)]

mod living;
mod plan;
mod situation;
mod stepping;
mod summing;
mod talking;
mod walking;

use living::try_live;
use plan::{Call, Plan, WORDS, plan_of};
use script::{Script, read_script};
use situation::{Given, missing};
use std::io::Read;
use std::process::ExitCode;
use std::rt::Files;
use std::{env, io};
use stepping::try_stepping;
use talking::try_talking;
use walking::try_walking;
use whole_files::read_file;

/// The maximum length of a script, in bytes.
const SCRIPT: u64 = 8388608;

fn try_plan<R: Print + Eprint>(rt: &R, given: &Given<'_>) -> io::Result<()> {
    match given.plan.call {
        Call::Step | Call::Start | Call::Copy | Call::Snapshot | Call::Look => {
            try_stepping(rt, given)
        }
        Call::Line | Call::Serve => try_talking(rt, given),
        Call::Attempt | Call::TakeOffer | Call::Offer | Call::Finish => try_live(rt, given),
        _ => try_walking(rt, given),
    }
}

fn script_at(rt: &(impl Files + AllocGlobal), path: &str) -> Option<Script> {
    let text = read_file(rt, path, SCRIPT).ok()?;
    read_script(rt.alloc(), &text).ok()
}

fn try_words(
    rt: &(impl Files + Input + Print + Eprint + AllocGlobal),
    plan: Plan<'_>,
) -> io::Result<()> {
    let mut lines = Vec::new(rt.alloc());
    rt.reader().read_to_end(&mut lines)?;
    let script = script_at(rt, plan.script).ok_or_else(missing)?;
    let given = Given {
        alloc: rt.alloc(),
        plan,
        script: &script,
        lines: &lines,
    };
    try_plan(rt, &given)
}

// The exit status is 2 if the arguments are invalid, and 1 if the call can't be made.
fn main(rt: HostRuntime) -> io::Result<ExitCode> {
    let words: Vec<String> = env::args(&rt)?.collect(rt.alloc())?;
    match plan_of(&words) {
        Some(plan) => {
            try_words(&rt, plan)?;
            Ok(ExitCode::SUCCESS)
        }
        None => {
            eprintln!(rt; "{WORDS}")?;
            Ok(ExitCode::from(2))
        }
    }
}
