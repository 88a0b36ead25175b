//! The program `uringwalk`: reads its command line, and runs one subcommand.
#![tactic(auto)]

ghost use Rattle.std.specs.Prelude.{◌≡◌};
ghost use Rattle.debug_server.specs.Jobs.{IsInRange};
ghost use Rattle.uringwalk.specs.Files.{fault_as};

mod checking;
mod drawing;
mod editing;
mod explaining;
mod input;
mod living;
mod logging;
mod output;
mod progress;
mod reporting;
mod scheduling;
mod searching;
mod serving;

use checking::check_file;
use clap::error::ErrorKind;
use debug_server::{
    Exploration, Fault, Form, Job, RunFault, ServeFault, Traced, job, migrate_trace, replay,
    trace_eager, trace_script, walk,
};
use drawing::draw_file;
use editing::serve_editor;
use explaining::explain_files;
use input::is_standard_input;
use living::live_file;
use logging::log_file;
use run_log::EventRange;
use scheduling::schedule_file;
use script::{Key, Path, ScriptFault};
use searching::explore_file;
use serving::serve_file;
use std::io::IsTerminal;
use std::net::{Net, TcpListener, TcpStream};
use std::process::ExitCode;
use std::rt::Files;
use std::sync::Wait;
use std::thread::Threads;
use std::time::Clock;
use std::{env, fmt, io};
use whole_files::{FileFault, lead_to_one_file, read_file, write_file};

/// One byte more than a script may have. The bytes after it are not read.
const SCRIPT_AND_ONE: u64 = 8388609;

/// One byte more than a trace of the first form may have.
const TRACE_AND_ONE: u64 = 16777229;

/// One byte more than a trace of the second form may have: 65,536 bytes of memory, 32 files as
/// long, 64 descriptors, 16 programs of 4,096 stores of 4,096 bytes, and 1,048,576 events.
const WHOLE_TRACE_AND_ONE: u64 = 287966118;

/// The message if OUT is another path of the script's file.
const ONTO_SCRIPT: &str = "error: OUT leads to SCRIPT's own file: the script would be overwritten";

/// The fault of a script that is too long with another schedule.
const TOO_LONG: Fault = Fault::Run(RunFault::Script(ScriptFault::Limit(Path {
    key: Key::Document,
    item: None,
    inner: None,
})));

/// The kind of file that a session reads.
#[derive(Clone, Copy)]
enum Over {
    Script,
    Trace,
}

// Returns the program's fault for a file that can't be read or written.
fn file_fault(fault: FileFault) -> Fault
    ensures { result ≡ fault_as fault }
{
    match fault {
        FileFault::Memory => Fault::Run(RunFault::Memory),
        FileFault::File => Fault::File,
    }
}

// Runs the session of a script or a trace: answers the commands of standard input.
fn answer_over(
    rt: &(impl Files + Input + Print + AllocGlobal),
    over: Over,
    path: &str,
) -> Result<(), Fault> {
    let most = match over {
        Over::Script => SCRIPT_AND_ONE,
        Over::Trace => WHOLE_TRACE_AND_ONE,
    };
    let bytes = read_file(rt, path, most).map_err(file_fault)?;
    let mut input = rt.reader();
    let mut output = io::writer(rt);
    match over {
        Over::Script => walk(rt.alloc(), &bytes, &mut input, &mut output)?,
        Over::Trace => replay(rt.alloc(), &bytes, &mut input, &mut output)?,
    }
    Ok(())
}

// Writes a run to its file, and prints how many events it has.
fn keep(rt: &(impl Files + Print + AllocGlobal), out: &str, trace: &Traced) -> Result<(), Fault> {
    write_file(rt, out, &trace.bytes).map_err(file_fault)?;
    match println!(rt; "events {}", trace.events) {
        Ok(()) => Ok(()),
        Err(_) => Err(Fault::Run(RunFault::Serve(ServeFault::Write))),
    }
}

// The `trace` subcommand: writes the trace of a script's schedule, or of its eager run, to a file.
fn trace_file(
    rt: &(impl Files + Print + AllocGlobal),
    script: &str,
    out: &str,
    form: Form,
    eager: bool,
) -> Result<(), Fault> {
    let text = read_file(rt, script, SCRIPT_AND_ONE).map_err(file_fault)?;
    if eager {
        keep(rt, out, &trace_eager(rt.alloc(), &text, form)?)
    } else {
        keep(rt, out, &trace_script(rt.alloc(), &text, form)?)
    }
}

// The `migrate` subcommand: writes a script's setup and the events of a trace of form 1 to a file.
fn migrate_file(
    rt: &(impl Files + Print + AllocGlobal),
    script: &str,
    trace: &str,
    out: &str,
) -> Result<(), Fault> {
    let text = read_file(rt, script, SCRIPT_AND_ONE).map_err(file_fault)?;
    let bytes = read_file(rt, trace, TRACE_AND_ONE).map_err(file_fault)?;
    keep(rt, out, &migrate_trace(rt.alloc(), &text, &bytes)?)
}

// Returns exit status 0 for a job that succeeded, otherwise its fault.
fn done(ended: Result<(), Fault>) -> Result<ExitCode, Fault> {
    match ended {
        Ok(()) => Ok(ExitCode::SUCCESS),
        Err(fault) => Err(fault),
    }
}

// Runs a subcommand, and returns the exit status. Progress is printed only on a terminal.
fn run<
    R: Files
        + Input
        + Print
        + Eprint
        + AllocGlobal
        + Threads
        + Wait
        + Clock
        + Net<Listener = TcpListener, Stream = TcpStream>
        + Sync,
>(rt: &R, job: &Job<'_>, is_terminal: bool) -> Result<ExitCode, Fault>
    requires { IsInRange job.now }
{
    match job {
        Job::Walk(script) => done(answer_over(rt, Over::Script, *script)),
        Job::Replay(trace) => done(answer_over(rt, Over::Trace, *trace)),
        Job::Log { run, from, to } => log_file(
            rt,
            *run,
            EventRange {
                from: *from,
                to: *to,
            },
        ),
        Job::Check(script) => check_file(rt, *script),
        Job::Explain {
            runs,
            kinds,
            allowed,
            form,
        } => explain_files(rt, runs, kinds, allowed, *form),
        Job::Timeline { run, out, from, to } => draw_file(rt, *run, *out, *from, *to),
        Job::Explore(search) => explore_file(rt, search, is_terminal),
        Job::Schedule { script, trace, out } => schedule_file(rt, *script, *trace, *out),
        Job::Live {
            script,
            turns,
            kernel,
            out,
        } => done(live_file(rt, *script, *turns, *kernel, *out)),
        Job::Serve {
            script,
            port,
            turns,
            kernel,
            clients,
        } => done(serve_file(rt, *script, *port, *turns, *kernel, *clients)),
        Job::Dap => serve_editor(rt),
        Job::Trace {
            script,
            out,
            form,
            eager,
        } => done(trace_file(rt, *script, *out, *form, *eager)),
        Job::Migrate { script, trace, out } => done(migrate_file(rt, *script, *trace, *out)),
    }
}

// Returns whether a file would overwrite the script that it is made from, although their paths
// differ.
fn loses_script(rt: &(impl Files + AllocGlobal), job: &Job<'_>) -> Result<bool, Fault> {
    match job {
        Job::Trace { script, out, .. }
        | Job::Migrate { script, out, .. }
        | Job::Schedule { script, out, .. } => {
            lead_to_one_file(rt, *script, *out).map_err(file_fault)
        }
        Job::Explore(
            Exploration {
                script,
                out: Some(out),
                ..
            },
        )
        | Job::Live {
            script,
            out: Some(out),
            ..
        } => lead_to_one_file(rt, *script, *out).map_err(file_fault),
        Job::Walk(_)
        | Job::Replay(_)
        | Job::Log { .. }
        | Job::Check(_)
        | Job::Explain { .. }
        | Job::Timeline { .. }
        | Job::Explore(Exploration { out: None, .. })
        | Job::Live { out: None, .. }
        | Job::Serve { .. }
        | Job::Dap => Ok(false),
    }
}

// Returns an exit status, and prints a line on standard error if it can be written.
fn fail<T: fmt::Display>(rt: &impl Eprint, status: u8, line: &T) -> ExitCode {
    match eprintln!(rt; "{line}") {
        Ok(()) | Err(_) => ExitCode::from(status),
    }
}

// Says on standard error that the script in a file has no schedule, if that can be written.
fn suggest_explore(rt: &impl Eprint, path: &str) {
    let path = if is_standard_input(path) {
        "SCRIPT"
    } else {
        path
    };
    match eprintln!(rt; "the schedule is empty: explore {path} tries schedules") {
        Ok(()) | Err(_) => {}
    }
}

// Reports that the program is out of memory.
fn fail_for_memory(rt: &impl Eprint) -> ExitCode {
    fail(rt, 1, &Fault::Run(RunFault::Memory))
}

// Prints the version on standard output.
fn print_version(rt: &(impl Print + Eprint), version: &clap::Error) -> ExitCode {
    match rt.print(version) {
        Ok(()) => ExitCode::SUCCESS,
        Err(_) => fail(rt, 1, &Fault::Run(RunFault::Serve(ServeFault::Write))),
    }
}

// Runs a subcommand, unless it would overwrite a script.
fn carry_out<
    R: Files
        + Input
        + Print
        + Eprint
        + AllocGlobal
        + Threads
        + Wait
        + Clock
        + Net<Listener = TcpListener, Stream = TcpStream>
        + Sync,
>(rt: &R, job: &Job<'_>, is_terminal: bool) -> ExitCode
    requires { IsInRange job.now }
{
    match loses_script(rt, job) {
        Ok(false) => match run(rt, job, is_terminal) {
            Ok(status) => status,
            Err(fault) => fail(rt, 1, &fault),
        },
        Ok(true) => fail(rt, 2, &ONTO_SCRIPT),
        Err(fault) => fail(rt, 1, &fault),
    }
}

// Parses the command line, and runs its subcommand.
fn read_words<
    R: Files
        + Input
        + Print
        + Eprint
        + AllocGlobal
        + Threads
        + Wait
        + Clock
        + Net<Listener = TcpListener, Stream = TcpStream>
        + Sync,
>(rt: &R, words: &[&str], is_terminal: bool) -> ExitCode {
    match job(rt.alloc(), words) {
        Ok(job) => carry_out(rt, &job, is_terminal),
        Err(error) if error.kind() == ErrorKind::OutOfMemory => fail_for_memory(rt),
        Err(error) if error.kind() == ErrorKind::DisplayVersion => print_version(rt, &error),
        Err(error) => fail(rt, 2, &error),
    }
}

// Does the same with words that are owned strings.
fn read_texts<
    R: Files
        + Input
        + Print
        + Eprint
        + AllocGlobal
        + Threads
        + Wait
        + Clock
        + Net<Listener = TcpListener, Stream = TcpStream>
        + Sync,
>(rt: &R, words: &[String], is_terminal: bool) -> ExitCode {
    match words
        .iter()
        .map(|word| word.as_str())
        .collect::<Vec<&str>>(rt.alloc())
    {
        Ok(texts) => read_words(rt, &texts, is_terminal),
        Err(_) => fail_for_memory(rt),
    }
}

fn main(rt: HostRuntime) -> io::Result<ExitCode> {
    let words = match env::args(&rt) {
        Ok(words) => words.collect::<Vec<String>>(rt.alloc()),
        Err(error) if error.kind() == io::ErrorKind::OutOfMemory => {
            return Ok(fail_for_memory(&rt));
        }
        Err(_) => return Ok(fail(&rt, 2, &"error: a word is not UTF-8 text")),
    };
    match words {
        Ok(words) => Ok(read_texts(&rt, &words, rt.stderr().is_terminal())),
        Err(_) => Ok(fail_for_memory(&rt)),
    }
}
