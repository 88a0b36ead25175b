//! The jobs that a command line describes.

/// The form of a trace.
#[derive(Clone, Copy)]
pub enum Form {
    /// Form 1: the events only.
    Events,
    /// Form 2: the setup and the events.
    Whole,
}

/// The form of the report of `explain`.
#[derive(Clone, Copy)]
pub enum ReportForm {
    Text,
    Json,
    /// A SARIF log.
    Sarif,
}

/// The words of `explore`.
#[derive(Drop)]
pub struct Exploration<'a> {
    pub script: &'a str,
    /// The names of the kinds to look for, or none to look for faults.
    pub kinds: Vec<&'a str>,
    /// The names of the kinds whose faults aren't looked for.
    pub allowed: Vec<&'a str>,
    /// The texts `P = V` of places and values to look for instead: 8 at most.
    pub until: Vec<&'a str>,
    /// The number of runs, 1 to 1000000.
    pub runs: u32,
    pub seed: u64,
    /// The number of the first run. The number after the last run is at most 4294967296.
    pub first: u32,
    /// The most events of a run, 1 to 65536.
    pub events: u32,
    /// The file to write the script to with the schedule that was found.
    pub out: Option<&'a str>,
    /// Whether threads come between another's put, push and enter.
    pub unlocked: bool,
    /// Whether no transfer ends short or with EIO.
    pub sound_device: bool,
    /// Whether requests are issued later than by their submission.
    pub late: bool,
    /// 1 to 64, or none for as many as there are processors.
    pub threads: Option<u32>,
    pub json: bool,
}

/// A subcommand with its arguments and options. Files are named by their paths. The script of
/// `Check` and the runs of `Log`, `Explain` and `Timeline` may be `-`, which is standard input.
#[derive(Drop)]
pub enum Job<'a> {
    /// Runs the schedule of the script in this file, and answers commands.
    Walk(&'a str),
    /// Runs the trace in this file, and answers commands.
    Replay(&'a str),
    /// Prints the events of a script or a trace from number `from` up to, not including, number
    /// `to`, and what each changed. Without `to` it prints all from `from` on.
    Log {
        run: &'a str,
        from: u32,
        to: Option<u32>,
    },
    /// Prints the faults of the script in this file.
    Check(&'a str),
    /// Prints the findings in the run of each of some scripts and traces.
    Explain {
        /// At least one. A SARIF log is about one.
        runs: Vec<&'a str>,
        /// The names of the kinds to print, or none to print all.
        kinds: Vec<&'a str>,
        /// The names of the kinds whose faults don't change the exit status.
        allowed: Vec<&'a str>,
        form: ReportForm,
    },
    /// Draws the events of a script or a trace from number `from` up to, not including, number
    /// `to`, into the file `out`.
    Timeline {
        run: &'a str,
        out: &'a str,
        from: Option<u32>,
        to: Option<u32>,
    },
    /// Searches random runs of a script for one that goes wrong.
    Explore(Exploration<'a>),
    /// Writes a script with the events of a trace of form 2 as its schedule to the file `out`.
    Schedule {
        script: &'a str,
        trace: &'a str,
        out: &'a str,
    },
    /// Runs the threads of a script, its poller if it has one, and `kernel` kernel workers side by
    /// side, each for `turns` turns. Then it answers commands. If there is an `out`, the trace of
    /// the run is written there first.
    Live {
        script: &'a str,
        /// 1 to 1000000.
        turns: u32,
        /// 1 to 8.
        kernel: u32,
        out: Option<&'a str>,
    },
    /// Makes such a run, and answers clients on a port of loopback meanwhile. Each client has its
    /// own session. It ends after `clients` sessions, or never.
    Serve {
        script: &'a str,
        /// From 1 on.
        port: u16,
        /// 1 to 1000000.
        turns: u32,
        /// 1 to 8.
        kernel: u32,
        /// 1 to 1000000.
        clients: Option<u32>,
    },
    /// Serves an editor.
    Dap,
    /// Writes the trace of a script's schedule, or of its eager run, to the file `out`.
    Trace {
        script: &'a str,
        out: &'a str,
        form: Form,
        eager: bool,
    },
    /// Writes a script's setup and the events of a trace of form 1 to the file `out`, as a trace of
    /// form 2.
    Migrate {
        script: &'a str,
        trace: &'a str,
        out: &'a str,
    },
}
