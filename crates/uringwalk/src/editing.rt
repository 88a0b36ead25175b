//! The `dap` subcommand: serves an editor.

use crate::fail;
use dap_frames::FrameFault;
use dap_session::{SessionFault, serve};
use debug_server::{Fault, RunFault, ServeFault};
use std::io;
use std::process::ExitCode;
use std::rt::Files;

// Returns what is wrong with the editor's stream.
fn frame_line(fault: FrameFault) -> &'static str {
    match fault {
        FrameFault::Memory => "fault memory",
        FrameFault::HeaderTooLong => "fault frame 1: a header has more than 1024 bytes",
        FrameFault::BareLineEnd => {
            "fault frame 2: a line of a header ends without a carriage return and a line feed"
        }
        FrameFault::LengthMissing => "fault frame 3: a header has no Content-Length",
        FrameFault::LengthRepeated => "fault frame 4: a header has Content-Length twice",
        FrameFault::LengthInvalid => {
            "fault frame 5: a Content-Length isn't a number up to 1048576"
        }
    }
}

/// Serves an editor over standard input and output. Returns exit status 0 at `disconnect` and at
/// the end of the input, and 1 if the stream isn't a sequence of messages.
pub fn serve_editor<R: Files + Input + Print + Eprint + AllocGlobal>(
    rt: &R,
) -> Result<ExitCode, Fault> {
    let mut input = rt.reader();
    let mut output = io::writer(rt);
    match serve(rt, &mut input, &mut output) {
        Ok(()) => Ok(ExitCode::SUCCESS),
        Err(SessionFault::Frame(fault)) => Ok(fail(rt, 1, &frame_line(fault))),
        Err(SessionFault::Read) => Err(Fault::Run(RunFault::Serve(ServeFault::Read))),
        Err(SessionFault::Write) => Err(Fault::Run(RunFault::Serve(ServeFault::Write))),
        Err(SessionFault::Memory) => Err(Fault::Run(RunFault::Memory)),
    }
}
