//! Calls of a session: a single line, or serving lines. The replies to further lines show the
//! session's state.

use crate::plan::Call;
use crate::situation::{Answer, Given, Situation, missing, try_call};
use crate::summing::Sum;
use debug_server::{NoSource, Session, serve};
use inverse_log::walker::TRACE_LIMIT;
use std::alloc::AllocError;
use std::io;

/// Capacity for all replies. A writer that allocates would meet the injected failure.
const ROOM: usize = 1048576;

/// A session, and its reply to the call.
#[derive(Drop)]
struct Talking<'a> {
    given: &'a Given<'a>,
    session: &'a mut Session,
    replied: Vec<u8>,
}

/// Makes a call of a session over the first events. Before that, the session receives the lines
/// after the first one.
pub fn try_talking(rt: &(impl Print + Eprint), given: &Given<'_>) -> io::Result<()> {
    let mut session = session_over(given).ok_or_else(missing)?;
    try_over(rt, given, &mut session)
}

fn try_over(
    rt: &(impl Print + Eprint),
    given: &Given<'_>,
    session: &mut Session,
) -> io::Result<()> {
    for line in given.plan.lines.iter().skip(1) {
        session.line(line.as_str().as_bytes(), None)?;
    }
    let mut talking = Talking {
        given,
        session,
        replied: Vec::with_capacity(given.alloc, ROOM)?,
    };
    try_call(rt, &mut talking, given.plan.number)
}

fn session_over(given: &Given<'_>) -> Option<Session> {
    let events = given.first(given.plan.from);
    if events.len() > TRACE_LIMIT {
        return None;
    }
    Session::of(given.alloc, given.script.setup(), events).ok()
}

impl Situation for Talking<'_> {
    fn call(&mut self) -> Answer {
        match self.given.plan.call {
            Call::Serve => self.serve(),
            _ => self.line(),
        }
    }

    fn sums(&mut self) -> Result<(Sum, Sum), AllocError> {
        let mut rest = Sum::new();
        rest.add_bytes(&self.replied);
        if self.given.plan.call == Call::Line {
            for line in self.given.lines.split(|byte| *byte == b'\n') {
                rest.add_bytes(&self.session.line(line, None)?);
            }
        }
        Ok((Sum::new(), rest))
    }
}

impl Talking<'_> {
    // Sends the first line. If it requests events from a source, it receives the first `to` ones.
    fn line(&mut self) -> Answer {
        let plan = self.given.plan;
        let line = plan.lines.first().map_or("", |line| line.as_str());
        let source_trace = self.given.first(plan.to);
        match self.session.line(line.as_bytes(), Some(source_trace)) {
            Ok(reply) => {
                self.replied = reply;
                Ok(0)
            }
            Err(_) => Err((1, 0)),
        }
    }

    // Returns the number of bytes that were read, also after a session's fault.
    fn serve(&mut self) -> Answer {
        let mut rest = self.given.lines;
        self.replied.clear();
        let served = serve(self.session, &mut rest, &mut self.replied, &mut NoSource);
        let read = self.given.lines.len().saturating_sub(rest.len()) as u64;
        match served {
            Ok(()) => Ok(read),
            Err(fault) => Err((fault as u32, read)),
        }
    }
}
