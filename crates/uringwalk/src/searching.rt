//! The `explore` subcommand: searches random runs of a script.
ghost use Rattle.std.specs.Prelude.{◌≡◌, ◌≤◌, None};
ghost use Rattle.scenario.specs.Setups.{setup_refusal};
ghost use Rattle.debug_server.specs.Jobs.{IsSearch, AreThreads};
ghost use Rattle.exploring.specs.RandomRuns.{CanRun};
ghost use Rattle.conclusions.specs.Conclusions.{IsScriptOf};

use crate::explaining::kinds_of;
use crate::output::{Output, write_text};
use crate::progress::Progress;
use crate::{SCRIPT_AND_ONE, TOO_LONG, fail, file_fault};
use commands::CommandFault;
use conclusions::{
    Conclusion, ConclusionFault, Reporting, UntilFault, conclude, goals_of, symptom_of,
};
use debug_server::{Exploration, Fault, KINDS, RunFault, fault_text};
use exploring::RandomRuns;
use machine::Setup;
use rewriting::RewriteFault;
use sampling::{Program, SampleOptions};
use script::{ScriptFault, read_script};
use script_check::sure_failures;
use search_rounds::explore;
use std::alloc::{AllocError, Global};
use std::process::ExitCode;
use std::rt::Files;
use std::thread;
use std::thread::Threads;
use std::time::Clock;
use symptoms::{Goal, Symptom};
use whole_files::{read_file, write_file};

/// The exit status if the command line is wrong.
const WORDS: u8 = 2;

/// The exit status if something was found.
const FOUND: u8 = 3;

/// The most threads of a search.
const MOST_THREADS: usize = 64;

/// The most kinds that a search counts. There are fewer.
const MOST_KINDS: usize = 64;

/// The message if the place of the schedule isn't found in the script.
const NO_PLACE: &str = "SCRIPT can't have the schedule that was found";

const MEMORY: Fault = Fault::Run(RunFault::Memory);

/// The options of a search, and its script.
#[derive(Clone, Copy)]
struct Task<'a> {
    words: &'a Exploration<'a>,
    /// The text of the script.
    script: &'a [u8],
    /// Whether standard error is a terminal, which shows progress.
    is_terminal: bool,
}

// Reports that there is no such place, or that it can't have the value.
fn refuse_until(rt: &impl Eprint, fault: CommandFault) -> ExitCode {
    let text = fault_text(fault);
    match eprint!(rt; "{text}") {
        Ok(()) | Err(_) => ExitCode::from(WORDS),
    }
}

// Reports a text that names a place to which another one gives another value.
fn refuse_second(rt: &impl Eprint, text: &str) -> ExitCode {
    match eprintln!(rt;
        "error: '--until {text}' names a place to which another '--until' gives another value"
    ) {
        Ok(()) | Err(_) => ExitCode::from(WORDS),
    }
}

// Returns how many threads make the runs.
fn thread_count(rt: &impl Threads, threads: Option<u32>) -> usize
    requires { AreThreads threads }
    ensures { (1 ≤ result) × (result ≤ 64) }
{
    match threads {
        Some(count) => count as usize,
        None => match thread::available_parallelism(rt) {
            Ok(count) => count.get().min(MOST_THREADS),
            Err(_) => 1,
        },
    }
}

// Returns what fails in every run, a clause for each instruction.
fn failures_in(alloc: Global, setup: &Setup) -> Result<Vec<String>, AllocError> {
    let mut clauses = Vec::new(alloc);
    for failure in &sure_failures(alloc, setup)? {
        clauses.push(format!(in alloc; "{failure}")?)?;
    }
    Ok(clauses)
}

// Searches, and returns what to print and to write.
fn conclusion_of<R: Eprint + AllocGlobal + Threads + Clock + Sync>(
    rt: &R,
    task: Task<'_>,
    runs: &RandomRuns<'_>,
) -> Result<Conclusion, ConclusionFault>
    requires words { IsSearch task.words.now }
    requires runs { CanRun runs.now }
    requires starts { setup_refusal runs.now.setup.now ≡ None }
    requires script { IsScriptOf task.script.now runs.now.setup.now }
{
    let words = task.words;
    let mut lanes = runs.lanes(thread_count(rt, words.threads))?;
    let mut progress = Progress::new(rt, task.is_terminal);
    let report = explore(rt, runs, &mut lanes, words.first, words.runs, |count| {
        progress.show(rt, count)
    })?;
    let every_run = failures_in(rt.alloc(), runs.setup)?;
    let reporting = Reporting {
        script: task.script,
        until: &words.until,
        every_run: &every_run,
        out: words.out,
        json: words.json,
    };
    conclude(runs, reporting, report.found, &report.totals)
}

// Writes the script with the schedule that was found to its file, and prints the report.
fn present<R: Files + Print + AllocGlobal>(
    rt: &R,
    out: Option<&str>,
    conclusion: Conclusion,
) -> Result<ExitCode, Fault> {
    let Conclusion {
        printed,
        script,
        is_found,
    } = conclusion;
    if let (Some(out), Some(bytes)) = (out, &script) {
        write_file(rt, out, bytes).map_err(file_fault)?;
    }
    write_text(&mut Output::new(rt), Ok(printed))?;
    Ok(if is_found {
        ExitCode::from(FOUND)
    } else {
        ExitCode::SUCCESS
    })
}

// Searches for a symptom.
fn search<R: Eprint + AllocGlobal + Threads + Clock + Sync>(
    rt: &R,
    task: Task<'_>,
    setup: &Setup,
    symptom: Symptom<'_>,
) -> Result<Conclusion, ConclusionFault>
    requires words { IsSearch task.words.now }
    requires starts { setup_refusal setup.now ≡ None }
    requires script { IsScriptOf task.script.now setup.now }
{
    let words = task.words;
    let program = Program::new(rt.alloc(), setup)?;
    let kinds = kinds_of(rt.alloc(), KINDS)?;
    let runs = RandomRuns {
        alloc: rt.alloc(),
        setup,
        program: &program,
        options: SampleOptions {
            unlocked: words.unlocked,
            sound_device: words.sound_device,
            late: words.late,
            most: words.events,
        },
        seed: words.seed,
        symptom,
        kinds: &kinds[..kinds.len().min(MOST_KINDS)],
    };
    conclusion_of(rt, task, &runs)
}

// Searches for moments at which all goals are met or, without goals, for the kinds of the words.
fn search_for<R: Eprint + AllocGlobal + Threads + Clock + Sync>(
    rt: &R,
    task: Task<'_>,
    setup: &Setup,
    goals: &[Goal],
) -> Result<Conclusion, ConclusionFault>
    requires words { IsSearch task.words.now }
    requires starts { setup_refusal setup.now ≡ None }
    requires script { IsScriptOf task.script.now setup.now }
{
    let kinds = kinds_of(rt.alloc(), &task.words.kinds)?;
    let allowed = kinds_of(rt.alloc(), &task.words.allowed)?;
    search(rt, task, setup, symptom_of(goals, &kinds, &allowed))
}

// Prints what a search found, or reports why it failed.
fn answer<R: Files + Print + Eprint + AllocGlobal>(
    rt: &R,
    out: Option<&str>,
    searched: Result<Conclusion, ConclusionFault>,
) -> Result<ExitCode, Fault> {
    match searched {
        Ok(conclusion) => present(rt, out, conclusion),
        Err(ConclusionFault::Memory | ConclusionFault::Rewrite(RewriteFault::Memory)) => {
            Err(MEMORY)
        }
        Err(ConclusionFault::Rewrite(RewriteFault::Script(fault))) => {
            Err(Fault::Run(RunFault::Script(fault)))
        }
        Err(ConclusionFault::Rewrite(RewriteFault::TooLong)) => Err(TOO_LONG),
        Err(ConclusionFault::Rewrite(RewriteFault::Place)) => Ok(fail(rt, 1, &NO_PLACE)),
    }
}

// Reports conditions of `--until` that can't be searched for.
fn refuse(rt: &impl Eprint, words: &Exploration<'_>, fault: UntilFault) -> ExitCode {
    match fault {
        UntilFault::Command(fault) => refuse_until(rt, fault),
        UntilFault::Twice(index) => {
            refuse_second(rt, words.until.get(index).copied().unwrap_or(""))
        }
    }
}

// Searches the runs of a setup.
fn explore_setup<R: Files + Print + Eprint + AllocGlobal + Threads + Clock + Sync>(
    rt: &R,
    task: Task<'_>,
    setup: &Setup,
) -> Result<ExitCode, Fault>
    requires words { IsSearch task.words.now }
    requires starts { setup_refusal setup.now ≡ None }
    requires script { IsScriptOf task.script.now setup.now }
{
    match goals_of(rt.alloc(), setup, &task.words.until) {
        Ok(Ok(goals)) => answer(rt, task.words.out, search_for(rt, task, setup, &goals)),
        Ok(Err(fault)) => Ok(refuse(rt, task.words, fault)),
        Err(_) => Err(MEMORY),
    }
}

/// Searches random runs of a script, prints what is found, and writes the script with its schedule.
/// Progress is printed only on a terminal. Returns the exit status.
pub fn explore_file<R: Files + Print + Eprint + AllocGlobal + Threads + Clock + Sync>(
    rt: &R,
    words: &Exploration<'_>,
    is_terminal: bool,
) -> Result<ExitCode, Fault>
    requires { IsSearch words.now }
{
    let text = read_file(rt, words.script, SCRIPT_AND_ONE).map_err(file_fault)?;
    let task = Task {
        words,
        script: &text,
        is_terminal,
    };
    match read_script(rt.alloc(), &text) {
        Ok(script) => explore_setup(rt, task, script.setup()),
        Err(ScriptFault::Memory) => Err(MEMORY),
        Err(fault) => Err(Fault::Run(RunFault::Script(fault))),
    }
}
