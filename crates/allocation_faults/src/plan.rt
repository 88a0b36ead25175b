//! The call to make, and its situation.

/// The usage message.
pub const WORDS: &str = "allocation_faults CALL SCRIPT NUMBER FROM TO [LINE..]";

/// A call to test: one that can allocate, or one that never does.
#[derive(Clone, Copy, PartialEq, Eq)]
pub enum Call {
    // Calls of a state. `Look` calls `value` for each place, and `refuses`.
    Step,
    Start,
    Copy,
    // `Snapshot` makes a copy that shares pages, and restores it in the room of another state.
    Snapshot,
    Look,
    // Calls of a walker. `Unwind` calls `State::unwind` with all of its records.
    Unwind,
    Extend,
    Goto,
    MoveTo,
    LastState,
    On,
    Back,
    Rcont,
    Cont,
    // Calls of a session.
    Line,
    Serve,
    // Calls of a live run. `Finish` calls `Worker::new`, `finish` and `Closed::redeem`.
    Attempt,
    TakeOffer,
    Offer,
    Finish,
}

/// A call in the run of a script. `from` and `to` are numbers of events, or moments.
#[derive(Clone, Copy)]
pub struct Plan<'a> {
    pub call: Call,
    /// The path of the script.
    pub script: &'a str,
    /// The number of the allocation that fails, from 1 on; 0 for none.
    pub number: u32,
    pub from: usize,
    pub to: usize,
    /// For a session, the line of the call, followed by the lines before it.
    pub lines: &'a [String],
}

fn call_of(name: &str) -> Option<Call> {
    Some(match name {
        "step" => Call::Step,
        "start" => Call::Start,
        "copy" => Call::Copy,
        "snapshot" => Call::Snapshot,
        "look" => Call::Look,
        "unwind" => Call::Unwind,
        "extend" => Call::Extend,
        "goto" => Call::Goto,
        "move_to" => Call::MoveTo,
        "last_state" => Call::LastState,
        "on" => Call::On,
        "back" => Call::Back,
        "rcont" => Call::Rcont,
        "cont" => Call::Cont,
        "line" => Call::Line,
        "serve" => Call::Serve,
        "attempt" => Call::Attempt,
        "take_offer" => Call::TakeOffer,
        "offer" => Call::Offer,
        "finish" => Call::Finish,
        _ => return None,
    })
}

/// Parses the arguments, the first of which is the program's name.
pub fn plan_of(words: &[String]) -> Option<Plan<'_>> {
    let [_, call, script, number, from, to, ..] = words else {
        return None;
    };
    Some(Plan {
        call: call_of(call.as_str())?,
        script: script.as_str(),
        number: number.as_str().parse::<u32>().ok()?,
        from: from.as_str().parse::<usize>().ok()?,
        to: to.as_str().parse::<usize>().ok()?,
        lines: words.get(6..)?,
    })
}
