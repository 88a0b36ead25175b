//! The tests, with the small scripts and assertions that they share.

mod by_hand;
mod devices;
mod failures;
mod gates;
mod jumps;
mod keeping;
mod loopback;
mod runs;
mod searches;
mod sessions;
mod side_by_side;
mod sources;
mod starting;
mod starts;
mod texts;
mod traces_again;
mod units;

use std::process::Abort;

/// One NOP with user_data 7: put, pushed, entered, issued, finished and reaped.
const ONE_NOP: &str =
    r#"{"entries":1,"threads":[[["put",0,{"op":0,"ud":7}],["push",0],["enter",1,0,0],["reap"]]],"schedule":[["step",0],["step",0],["step",0],["issue",0],["finish",0],["step",0]]}"#;

/// Commands for a session over it.
const INPUT: &str = "where\nshow got 0\nshow last 0\ngoto 4\nshow cq.tail\nback 1\nshow row 0\n";

/// The replies to these commands.
const OUTPUT: &str =
    "at 6 of 6\n07000000000000000000000000000000\n1\nat 4 of 6\n0\nat 3 of 6\nop 0 user 7 unit 0 queued\n";

fn check(rt: &impl Abort, holds: bool) {
    assert!(rt; holds);
}

// Asserts that no index is wrong.
fn check_none(rt: &impl Abort, wrong: Option<usize>) {
    assert!(rt; wrong.is_none(), "at {wrong:?}");
}
