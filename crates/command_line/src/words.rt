//! Reads the words of the command line.
ghost use Rattle.std.specs.Prelude.{◌↔◌, ◌≤◌, IsTrue, IfOk, IfNone};
ghost use Rattle.command_line.specs.Jobs.{LosesScript, IsInRange, AreInRange, AreClients, AreReported, AreRuns, AreThreads, IsSearch};

use crate::program::program;
use crate::table::{Verb, Word, file_words, report_words, thread_words};
use crate::task::{Exploration, Form, Job, ReportForm};
use clap::error::ErrorKind;
use clap::{ArgMatches, Command, Error};
use std::alloc::{AllocError, Global};

const ONTO_SCRIPT: &str = "OUT is SCRIPT's own file: the script would be overwritten";

/// The most turns that an actor of a live run makes.
const MOST_TURNS: u32 = 1000000;

/// The number of turns without the option.
const DEFAULT_TURNS: u32 = 1000;

/// The most kernel workers of a live run.
const MOST_WORKERS: u32 = 8;

/// The number of kernel workers without the option.
const DEFAULT_WORKERS: u32 = 2;

/// The most sessions after which a server ends.
const MOST_SESSIONS: u32 = 1000000;

/// The most runs of a search.
const MOST_RUNS: u32 = 1000000;

/// The number of runs without the option.
const DEFAULT_RUNS: u32 = 10000;

/// The number after the greatest that a run can have.
const MOST_NUMBERS: u64 = 4294967296;

/// The seed without the option.
const DEFAULT_SEED: u64 = 1;

/// The most events of a run of a search, and their number without the option.
const MOST_EVENTS: u32 = 65536;

/// The most threads that make the runs of a search.
const MOST_THREADS: u32 = 64;

const BEYOND_TURNS: &str = "invalid value for '--turns <N>': it must be 1 to 1000000";

const BEYOND_WORKERS: &str = "invalid value for '--kernel <Q>': it must be 1 to 8";

const BEYOND_PORTS: &str = "invalid value for '--port <P>': it must be 1 to 65535";

const BEYOND_SESSIONS: &str = "invalid value for '--clients <C>': it must be 1 to 1000000";

const BEYOND_RUNS: &str = "invalid value for '--runs <N>': it must be 1 to 1000000";

const BEYOND_NUMBERS: &str =
    "invalid value for '--first <I>': with --runs <N>, I + N must be at most 4294967296";

const BEYOND_EVENTS: &str = "invalid value for '--events <M>': it must be 1 to 65536";

/// The most places whose values a search looks for at once.
const MOST_GOALS: usize = 8;

const BEYOND_GOALS: &str = "invalid value for '--until <P = V>': it may be given at most 8 times";

const BEYOND_THREADS: &str = "invalid value for '--threads <T>': it must be 1 to 64";

const SEVERAL_RUNS: &str = "'--sarif' takes one RUN";

fn text_of<'a>(matches: &ArgMatches<'a>, name: &str) -> &'a str {
    matches.get_str(name).unwrap_or("")
}

fn form_of(matches: &ArgMatches<'_>) -> Form {
    match text_of(matches, "FORM") {
        "1" => Form::Events,
        _ => Form::Whole,
    }
}

fn report_form_of(matches: &ArgMatches<'_>) -> ReportForm {
    if matches.get_flag("sarif") {
        ReportForm::Sarif
    } else if matches.get_flag("json") {
        ReportForm::Json
    } else {
        ReportForm::Text
    }
}

// Returns all values of an argument, in the order of the words.
fn texts_of<'a>(
    alloc: Global,
    matches: &ArgMatches<'a>,
    name: &str,
) -> Result<Vec<&'a str>, AllocError> {
    let mut texts = Vec::new(alloc);
    if let Some(values) = matches.get_strs(name) {
        texts.extend_from_slice(values)?;
    }
    Ok(texts)
}

// Returns the number of this name, if the words have it.
fn number_of(matches: &ArgMatches<'_>, name: &str) -> Option<u32> {
    matches.get_one::<u32>(name)
}

// Returns the subcommand of this name, if it is among these.
fn verb_among(words: &[Word], name: &str) -> Option<Verb> {
    let word = words.iter().find(|word| word.name == name)?;
    Some(word.verb)
}

// Returns the subcommand of this name.
fn verb_of(name: &str) -> Verb {
    verb_among(file_words(), name)
        .or(verb_among(report_words(), name))
        .or(verb_among(thread_words(), name))
        .unwrap_or(Verb::Walk)
}

// Returns the job of `explain`.
fn explain_of<'a>(alloc: Global, matches: &ArgMatches<'a>) -> Result<Job<'a>, AllocError> {
    Ok(Job::Explain {
        runs: texts_of(alloc, matches, "RUN")?,
        kinds: texts_of(alloc, matches, "KIND")?,
        allowed: texts_of(alloc, matches, "ALLOWED")?,
        form: report_form_of(matches),
    })
}

// Returns the job of `explore`.
fn explore_of<'a>(alloc: Global, matches: &ArgMatches<'a>) -> Result<Job<'a>, AllocError> {
    Ok(Job::Explore(Exploration {
        script: text_of(matches, "SCRIPT"),
        kinds: texts_of(alloc, matches, "KIND")?,
        allowed: texts_of(alloc, matches, "ALLOWED")?,
        until: texts_of(alloc, matches, "UNTIL")?,
        runs: number_of(matches, "N").unwrap_or(DEFAULT_RUNS),
        seed: matches.get_one::<u64>("S").unwrap_or(DEFAULT_SEED),
        first: number_of(matches, "I").unwrap_or(0),
        events: number_of(matches, "M").unwrap_or(MOST_EVENTS),
        out: matches.get_str("OUT"),
        unlocked: matches.get_flag("unlocked"),
        sound_device: matches.get_flag("sound-device"),
        late: matches.get_flag("late"),
        threads: number_of(matches, "T"),
        json: matches.get_flag("json"),
    }))
}

// Returns the job of `live`.
fn live_of<'a>(matches: &ArgMatches<'a>) -> Job<'a> {
    Job::Live {
        script: text_of(matches, "SCRIPT"),
        turns: number_of(matches, "N").unwrap_or(DEFAULT_TURNS),
        kernel: number_of(matches, "Q").unwrap_or(DEFAULT_WORKERS),
        out: matches.get_str("OUT"),
    }
}

// Returns the job of `serve`.
fn serve_of<'a>(matches: &ArgMatches<'a>) -> Job<'a> {
    Job::Serve {
        script: text_of(matches, "SCRIPT"),
        port: matches.get_one::<u16>("P").unwrap_or(0),
        turns: number_of(matches, "N").unwrap_or(DEFAULT_TURNS),
        kernel: number_of(matches, "Q").unwrap_or(DEFAULT_WORKERS),
        clients: number_of(matches, "C"),
    }
}

// Returns the job of a subcommand that reports on a run.
fn report_of<'a>(verb: Verb, matches: &ArgMatches<'a>) -> Job<'a> {
    let run = text_of(matches, "RUN");
    let from = number_of(matches, "M");
    let to = number_of(matches, "N");
    match verb {
        Verb::Timeline => Job::Timeline {
            run,
            out: text_of(matches, "OUT"),
            from,
            to,
        },
        _ => Job::Log {
            run,
            from: from.unwrap_or(0),
            to,
        },
    }
}

// Returns the job that the words after a subcommand describe.
fn job_of<'a>(alloc: Global, verb: Verb, matches: &ArgMatches<'a>) -> Result<Job<'a>, AllocError> {
    let script = text_of(matches, "SCRIPT");
    let trace = text_of(matches, "TRACE");
    let out = text_of(matches, "OUT");
    Ok(match verb {
        Verb::Walk => Job::Walk(script),
        Verb::Check => Job::Check(script),
        Verb::Replay => Job::Replay(trace),
        Verb::Trace => Job::Trace {
            script,
            out,
            form: form_of(matches),
            eager: matches.get_flag("eager"),
        },
        Verb::Migrate => Job::Migrate {
            script,
            trace: text_of(matches, "IN"),
            out,
        },
        Verb::Schedule => Job::Schedule { script, trace, out },
        Verb::Log | Verb::Timeline => report_of(verb, matches),
        Verb::Explain => explain_of(alloc, matches)?,
        Verb::Explore => explore_of(alloc, matches)?,
        Verb::Live => live_of(matches),
        Verb::Serve => serve_of(matches),
        Verb::Dap => Job::Dap,
    })
}

// Returns whether a file would be written to the path of the script that it is made from.
fn loses_script(job: &Job<'_>) -> bool
    ensures { IsTrue result ↔ LosesScript job.now }
{
    match job {
        Job::Trace { script, out, .. }
        | Job::Migrate { script, out, .. }
        | Job::Schedule { script, out, .. }
        | Job::Explore(
            Exploration {
                script,
                out: Some(out),
                ..
            },
        )
        | Job::Live {
            script,
            out: Some(out),
            ..
        } => out == script,
        Job::Walk(_)
        | Job::Replay(_)
        | Job::Log { .. }
        | Job::Check(_)
        | Job::Explain { .. }
        | Job::Timeline { .. }
        | Job::Explore(Exploration { out: None, .. })
        | Job::Live { out: None, .. }
        | Job::Serve { .. }
        | Job::Dap => false,
    }
}

// Returns the range of the number of a live run that is out of its range, as text.
fn run_out_of_range(turns: u32, kernel: u32) -> Option<&'static str>
    ensures { IfNone result (AreInRange turns kernel) }
{
    if turns < 1 || turns > MOST_TURNS {
        return Some(BEYOND_TURNS);
    }
    if kernel < 1 || kernel > MOST_WORKERS {
        return Some(BEYOND_WORKERS);
    }
    None
}

// Returns the range of the number of a server that is out of its range, as text.
fn clients_out_of_range(port: u16, clients: Option<u32>) -> Option<&'static str>
    ensures { IfNone result (AreClients port clients) }
{
    if port < 1 {
        return Some(BEYOND_PORTS);
    }
    match clients {
        Some(count) if count < 1 || count > MOST_SESSIONS => Some(BEYOND_SESSIONS),
        _ => None,
    }
}

// Returns the range of the number of a search that is out of its range, as text.
fn runs_out_of_range(runs: u32, first: u32, events: u32) -> Option<&'static str>
    ensures { IfNone result (AreRuns runs first events) }
{
    if runs < 1 || runs > MOST_RUNS {
        return Some(BEYOND_RUNS);
    }
    if first as u64 + runs as u64 > MOST_NUMBERS {
        return Some(BEYOND_NUMBERS);
    }
    if events < 1 || events > MOST_EVENTS {
        return Some(BEYOND_EVENTS);
    }
    None
}

// Returns the range of the number of threads, as text, if it is out of it.
fn threads_out_of_range(threads: Option<u32>) -> Option<&'static str>
    ensures { IfNone result (AreThreads threads) }
{
    match threads {
        Some(count) if count < 1 || count > MOST_THREADS => Some(BEYOND_THREADS),
        _ => None,
    }
}

// Returns what is wrong with the number of places of a search, as text, if there are too many.
fn goals_out_of_range(goals: usize) -> Option<&'static str>
    ensures { IfNone result (goals ≤ 8) }
{
    if goals > MOST_GOALS {
        Some(BEYOND_GOALS)
    } else {
        None
    }
}

// Returns the range of the number of a search that is out of its range, as text.
fn search_out_of_range(search: &Exploration<'_>) -> Option<&'static str>
    ensures { IfNone result (IsSearch search.now) }
{
    if let Some(text) = runs_out_of_range(search.runs, search.first, search.events) {
        return Some(text);
    }
    if let Some(text) = threads_out_of_range(search.threads) {
        return Some(text);
    }
    goals_out_of_range(search.until.len())
}

// Returns what is wrong with the number of runs of a report, as text, if there are too many.
fn runs_beyond_form(runs: usize, form: ReportForm) -> Option<&'static str>
    ensures { IfNone result (AreReported form runs) }
{
    match form {
        ReportForm::Sarif if runs > 1 => Some(SEVERAL_RUNS),
        _ => None,
    }
}

// Returns the range of the number of a job that is out of its range, as text.
fn out_of_range(job: &Job<'_>) -> Option<&'static str>
    ensures { IfNone result (IsInRange job.now) }
{
    match job {
        Job::Live { turns, kernel, .. } => run_out_of_range(*turns, *kernel),
        Job::Serve {
            port,
            turns,
            kernel,
            clients,
            ..
        } => match clients_out_of_range(*port, *clients) {
            Some(text) => Some(text),
            None => run_out_of_range(*turns, *kernel),
        },
        Job::Explore(search) => search_out_of_range(search),
        Job::Explain { runs, form, .. } => runs_beyond_form(runs.len(), *form),
        _ => None,
    }
}

// Returns the job that the words describe, whatever its files and numbers are.
fn job_from_words<'a>(
    alloc: Global,
    command: &mut Command<'a>,
    words: &'a [&'a str],
) -> Result<Job<'a>, Error> {
    let matches = command.try_get_matches_from_mut(words)?;
    Ok(match matches.subcommand() {
        Some((name, matches)) => job_of(alloc, verb_of(name), matches)?,
        None => Job::Walk(""),
    })
}

// Returns an error of this kind, with this text.
fn refused(command: &mut Command<'_>, kind: ErrorKind, text: &str) -> Error {
    match command.error(kind, text) {
        Ok(error) => error,
        Err(error) => Error::from(error),
    }
}

// Returns the job that the words describe, if its files and numbers are allowed.
fn accepted<'a>(
    alloc: Global,
    command: &mut Command<'a>,
    words: &'a [&'a str],
) -> Result<Job<'a>, Error>
    ensures keeps_script { IfOk result (λ j. LosesScript j → ⊥) }
    ensures in_range { IfOk result IsInRange }
{
    let job = job_from_words(alloc, command, words)?;
    if loses_script(&job) {
        return Err(refused(command, ErrorKind::ArgumentConflict, ONTO_SCRIPT));
    }
    match out_of_range(&job) {
        Some(text) => Err(refused(command, ErrorKind::ValueValidation, text)),
        None => Ok(job),
    }
}

/// Returns the job that the words of the program describe. Wrong words, help, the version, a file
/// onto its script, and a number out of its range are errors with their text.
pub fn job<'a>(alloc: Global, words: &'a [&'a str]) -> Result<Job<'a>, Error>
    ensures keeps_script { IfOk result (λ j. LosesScript j → ⊥) }
    ensures in_range { IfOk result IsInRange }
{
    let mut command = program(alloc)?;
    accepted(alloc, &mut command, words)
}
