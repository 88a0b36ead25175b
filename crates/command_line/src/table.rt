//! The commands of the program with their arguments, options and help texts.

/// A command of the program.
#[derive(Clone, Copy)]
pub enum Verb {
    Walk,
    Check,
    Trace,
    Migrate,
    Replay,
    Log,
    Explain,
    Timeline,
    Explore,
    Schedule,
    Live,
    Serve,
    Dap,
}

/// The form of an argument or an option of a command.
#[derive(Clone, Copy)]
pub enum Shape {
    /// The path of a file, which is required.
    File,
    /// The paths of files, at least one.
    Files,
    /// This option with a path.
    Named(&'static str),
    /// This option with a number.
    Number(&'static str),
    /// The seed of a search.
    Seed,
    /// A place and a value, in place of kinds. It may be repeated.
    Until,
    /// The option `--allow` of a search, in place of the kinds to look for. It may be repeated.
    Allow,
    /// A port, which is required.
    Port,
    /// The form of a trace, 1 or 2.
    Form,
    /// This option with a kind of finding, which may be repeated.
    Kind(&'static str),
    /// This option without a value.
    Flag(&'static str),
    /// The option `--sarif`, in place of `--json`.
    Sarif,
}

/// An argument or an option of a command.
pub struct Operand {
    pub name: &'static str,
    pub help: &'static str,
    pub shape: Shape,
}

/// A command, as help shows it.
pub struct Word {
    pub verb: Verb,
    pub name: &'static str,
    pub about: &'static str,
    pub after: &'static str,
    pub operands: &'static [Operand],
}

const COMMANDS: &str =
    "Debugger commands, one per line: where, show PLACE, goto N, back N, on N, watch PLACE, break PLACE = VALUE, unwatch, cont, rcont, sync, quit. docs/COMMANDS.md explains them, and docs/FAULTS.md the replies that begin with fault or refused.";

const CHECKED: &str =
    "Prints a line for each fault, at most 20, as SCRIPT:LINE:COLUMN: WHERE: what is there, and what is allowed. If the script has none, its schedule is run, and the first event that can't happen is printed in the same way. Without faults it prints ok, with status 0; otherwise the status is 1. SCRIPT - is standard input. Example:\n  uringwalk check examples/one_nop.json";

const TRACED: &str =
    "Creates or replaces OUT, which can't be SCRIPT's own file. Example:\n  uringwalk trace examples/one_nop.json one_nop.trace\n  echo where | uringwalk replay one_nop.trace";

const MIGRATED: &str =
    "IN is a trace that trace --form 1 wrote. Creates or replaces OUT, which can be IN, but not SCRIPT's own file. Example:\n  uringwalk trace --form 1 examples/one_nop.json one_nop.trace\n  uringwalk migrate examples/one_nop.json one_nop.trace one_nop.trace";

const LOGGED: &str =
    "Prints a line for each event, its number and its words in a schedule, and below it a line for each place that it changed, as PLACE OLD -> NEW. RUN - is standard input. Example:\n  uringwalk log examples/one_nop.json --from 3 --to 4";

const EXPLAINED: &str =
    "Prints the kind of each finding, the moment to go to, and what happened; then the number of faults and of notes. The status is 3 if there are faults that --allow doesn't name. With more than one RUN, a line RUN: comes before each one's findings; the status is 1 if one can't be run. RUN - is standard input. docs/FINDINGS.md explains the kinds. Example:\n  uringwalk explain examples/severed_link/script.json";

const DRAWN: &str =
    "OUT ends in .html for a page that a browser opens without a network, or in .json for trace events that Perfetto and chrome://tracing open. Creates or replaces OUT, which can't be RUN's own file. A run of more than 5000 events needs both --from and --to. RUN - is standard input. Example:\n  uringwalk timeline examples/severed_link/script.json severed_link.html";

const EXPLORED: &str =
    "Makes random runs of the threads, the poller and the kernel, and looks for the first that shows a fault. The seed and its number repeat a run. The script's own schedule isn't used. Prints what was found, with the shortest schedule for it that the search knows. The status is 3 if something was found. Kinds failed and short count only where --kind names them. Example:\n  uringwalk explore examples/lost_wake_up/script.json --out found.json\n  uringwalk explain found.json";

const SCHEDULED: &str =
    "Writes the text of SCRIPT with the events of TRACE as its schedule. Creates or replaces OUT, which can't be SCRIPT's or TRACE's own file. Example:\n  uringwalk live examples/words_in_a_pipe/script.json --trace words.trace <examples/words_in_a_pipe/stdin\n  uringwalk schedule examples/words_in_a_pipe/script.json words.trace words.json";

const LIVE: &str =
    "Runs each thread of the script, the poller if there is one, and each kernel worker in its own thread, all at once; the script's schedule isn't used. Prints closed E, with E the number of events, and then reads commands as walk does. The next run may differ: --trace saves this one for replay. Example:\n  uringwalk live examples/words_in_a_pipe/script.json --trace words.trace <examples/words_in_a_pipe/stdin\n  echo where | uringwalk replay words.trace";

const SERVE: &str =
    "Runs the script's threads as live does, listens on 127.0.0.1, and prints port P. Each client has its own session, which begins without events: sync adds the events that the run has made so far. Up to 16 clients are served at once, and more wait. Example:\n  uringwalk serve examples/words_in_a_pipe/script.json --port 7001 --clients 1 &\n  sleep 1\n  printf 'sync\\nwhere\\nquit\\n' | nc 127.0.0.1 7001";

const DEBUG_ADAPTER: &str =
    "Speaks the Debug Adapter Protocol over standard input and output, for VS Code, Neovim, Emacs, Helix and other editors. The editor names the script or the trace when it launches, sets breakpoints, and steps and runs in both directions. Lost framing ends it with status 1. docs/EDITORS.md says how to set up an editor.";

const SCRIPT: Operand = Operand {
    name: "SCRIPT",
    help: "Script file: a setup, programs and a schedule, as JSON",
    shape: Shape::File,
};

const RUN_HELP: &str = "Script file, or trace file of form 2, whose first byte is U";

const RUN: Operand = Operand {
    name: "RUN",
    help: RUN_HELP,
    shape: Shape::File,
};

const TURNS: Operand = Operand {
    name: "N",
    help: "Turns of each thread, of the poller and of each kernel worker: 1 to 1000000, default 1000",
    shape: Shape::Number("turns"),
};

const WORKERS: Operand = Operand {
    name: "Q",
    help: "Number of kernel workers: 1 to 8, default 2",
    shape: Shape::Number("kernel"),
};

const TRACE: Operand = Operand {
    name: "TRACE",
    help: "Trace file of form 2, as trace writes it",
    shape: Shape::File,
};

/// The names of the kinds of findings. `tests/documents` compares them with those that `explain`
/// prints.
pub const KINDS: &[&str] = &[
    "failed",
    "short",
    "severed",
    "canceled",
    "timed-out",
    "expired",
    "not-found",
    "too-late",
    "overflow",
    "busy",
    "waits",
    "lost-wake-up",
    "not-taken",
    "not-reaped",
    "unfinished",
    "buffer-in-use",
    "unordered",
    "shared-position",
    "fsync-early",
    "taken-short",
    "no-such-slot",
    "cut-off",
    "went-on",
    "no-effect",
    "slot-in-use",
    "closed-early",
    "closed-while-held",
    "several",
    "left-running",
    "same-user-data",
    "not-durable",
    "refused-flags",
    "stuck",
    "closed-twice",
    "fsync-retried",
];

/// What help of the program says after its commands.
pub const OPTIONS: &str = "Options of the commands:
  trace     --form <FORM>   Form of the trace: 1 for events only, 2 for setup and events; default 2
            --eager         Trace the run of a kernel that does at once all that it can
  log       --from <M>      First event to print: 0 to 4294967295, default 0
            --to <N>        Event to stop before: 0 to 4294967295, default all
  explain   --kind <KIND>   Report only findings of this kind, default all; may be repeated
            --allow <KIND>  Don't count faults of this kind for the status; may be repeated
            --json          Print the findings as JSON, default text
            --sarif         Print the findings of one RUN as a SARIF log
  timeline  --from <M>      First event to draw: 0 to 4294967295, default 0
            --to <N>        Event to stop before: 0 to 4294967295, default all
  explore   --kind <KIND>   Look for this kind alone, default all faults but failed and short; may be repeated
            --allow <KIND>  Don't look for faults of this kind; may be repeated
            --until <P = V> Look for a moment at which this place gets this value; up to 8, which then all hold
            --runs <N>      Number of runs: 1 to 1000000, default 10000
            --seed <S>      Seed of the runs: 0 to 18446744073709551615, default 1
            --first <I>     Number of the first run, default 0
            --events <M>    Most events of a run: 1 to 65536, default 65536
            --out <OUT>     Script file to write with the schedule that was found, default none
            --unlocked      Let threads come between another's put, push and enter
            --sound-device  Have no transfer end short or with EIO
            --late          Let requests be issued after their submission, as no kernel does
            --threads <T>   Number of threads that make the runs: 1 to 64, default one per processor
            --json          Print the result as JSON, default text
  live      --turns <N>     Turns of each thread, of the poller and of each kernel worker: 1 to 1000000, default 1000
            --kernel <Q>    Number of kernel workers: 1 to 8, default 2
            --trace <OUT>   Trace file to write, default none
  serve     --port <P>      Port to listen on: 1 to 65535, required
            --turns <N>     Turns of each thread, of the poller and of each kernel worker: 1 to 1000000, default 1000
            --kernel <Q>    Number of kernel workers: 1 to 8, default 2
            --clients <C>   Number of sessions to stop after: 1 to 1000000, default never

Example: echo where | uringwalk walk examples/one_nop.json";

/// The forms of a trace.
pub const FORMS: &[&str] = &["1", "2"];

// The commands that walk, check and write scripts and traces, as help lists them.
const FILE_WORDS: &[Word] = &[
    Word {
        verb: Verb::Walk,
        name: "walk",
        about: "Run a script's schedule, then read debugger commands from standard input",
        after: COMMANDS,
        operands: &[SCRIPT],
    },
    Word {
        verb: Verb::Check,
        name: "check",
        about: "Check a script, and print its faults with line and column",
        after: CHECKED,
        operands: &[SCRIPT],
    },
    Word {
        verb: Verb::Trace,
        name: "trace",
        about: "Run a script's schedule, and save it as a trace file",
        after: TRACED,
        operands: &[
            SCRIPT,
            Operand {
                name: "OUT",
                help: "Trace file to write",
                shape: Shape::File,
            },
            Operand {
                name: "FORM",
                help: "Form of the trace: 1 for events only, 2 for setup and events",
                shape: Shape::Form,
            },
            Operand {
                name: "eager",
                help: "Trace the run of a kernel that does at once all that it can",
                shape: Shape::Flag("eager"),
            },
        ],
    },
    Word {
        verb: Verb::Migrate,
        name: "migrate",
        about: "Convert a trace of form 1 to form 2, with a script's setup",
        after: MIGRATED,
        operands: &[
            SCRIPT,
            Operand {
                name: "IN",
                help: "Trace file of form 1",
                shape: Shape::File,
            },
            Operand {
                name: "OUT",
                help: "Trace file of form 2 to write",
                shape: Shape::File,
            },
        ],
    },
    Word {
        verb: Verb::Replay,
        name: "replay",
        about: "Run a trace of form 2, then read debugger commands from standard input",
        after: COMMANDS,
        operands: &[TRACE],
    },
    Word {
        verb: Verb::Log,
        name: "log",
        about: "Run a script or a trace, and print what each event changes",
        after: LOGGED,
        operands: &[
            RUN,
            Operand {
                name: "M",
                help: "First event to print: 0 to 4294967295, default 0",
                shape: Shape::Number("from"),
            },
            Operand {
                name: "N",
                help: "Event to stop before: 0 to 4294967295, default all",
                shape: Shape::Number("to"),
            },
        ],
    },
];

// The commands that report on runs and search them.
const REPORT_WORDS: &[Word] = &[
    Word {
        verb: Verb::Explain,
        name: "explain",
        about: "Run a script or a trace, and report what went wrong, and when",
        after: EXPLAINED,
        operands: &[
            Operand {
                name: "RUN",
                help: RUN_HELP,
                shape: Shape::Files,
            },
            Operand {
                name: "KIND",
                help: "Report only findings of this kind, default all; may be repeated",
                shape: Shape::Kind("kind"),
            },
            Operand {
                name: "ALLOWED",
                help: "Don't count faults of this kind for the status; may be repeated",
                shape: Shape::Kind("allow"),
            },
            Operand {
                name: "json",
                help: "Print the findings as JSON, default text",
                shape: Shape::Flag("json"),
            },
            Operand {
                name: "sarif",
                help: "Print the findings of one RUN as a SARIF log",
                shape: Shape::Sarif,
            },
        ],
    },
    Word {
        verb: Verb::Timeline,
        name: "timeline",
        about: "Run a script or a trace, and draw it over time",
        after: DRAWN,
        operands: &[
            RUN,
            Operand {
                name: "OUT",
                help: "File to write: an HTML page (.html) or trace events (.json)",
                shape: Shape::File,
            },
            Operand {
                name: "M",
                help: "First event to draw: 0 to 4294967295, default 0",
                shape: Shape::Number("from"),
            },
            Operand {
                name: "N",
                help: "Event to stop before: 0 to 4294967295, default all",
                shape: Shape::Number("to"),
            },
        ],
    },
    Word {
        verb: Verb::Explore,
        name: "explore",
        about: "Search random runs of a script for one that goes wrong, and shrink its schedule",
        after: EXPLORED,
        operands: &[
            SCRIPT,
            Operand {
                name: "KIND",
                help: "Look for this kind alone, default all faults but failed and short; may be repeated",
                shape: Shape::Kind("kind"),
            },
            Operand {
                name: "ALLOWED",
                help: "Don't look for faults of this kind; may be repeated",
                shape: Shape::Allow,
            },
            Operand {
                name: "UNTIL",
                help: "Look for a moment at which this place gets this value; up to 8, which then all hold",
                shape: Shape::Until,
            },
            Operand {
                name: "N",
                help: "Number of runs: 1 to 1000000, default 10000",
                shape: Shape::Number("runs"),
            },
            Operand {
                name: "S",
                help: "Seed of the runs: 0 to 18446744073709551615, default 1",
                shape: Shape::Seed,
            },
            Operand {
                name: "I",
                help: "Number of the first run, default 0; I + N is at most 4294967296",
                shape: Shape::Number("first"),
            },
            Operand {
                name: "M",
                help: "Most events of a run: 1 to 65536, default 65536",
                shape: Shape::Number("events"),
            },
            Operand {
                name: "OUT",
                help: "Script file to write with the schedule that was found, default none",
                shape: Shape::Named("out"),
            },
            Operand {
                name: "unlocked",
                help: "Let threads come between another's put, push and enter",
                shape: Shape::Flag("unlocked"),
            },
            Operand {
                name: "sound-device",
                help: "Have no transfer end short or with EIO",
                shape: Shape::Flag("sound-device"),
            },
            Operand {
                name: "late",
                help: "Let requests be issued after their submission, as no kernel does",
                shape: Shape::Flag("late"),
            },
            Operand {
                name: "T",
                help: "Number of threads that make the runs: 1 to 64, default one per processor",
                shape: Shape::Number("threads"),
            },
            Operand {
                name: "json",
                help: "Print the result as JSON, default text",
                shape: Shape::Flag("json"),
            },
        ],
    },
    Word {
        verb: Verb::Schedule,
        name: "schedule",
        about: "Write a script with a trace's events as its schedule",
        after: SCHEDULED,
        operands: &[
            SCRIPT,
            TRACE,
            Operand {
                name: "OUT",
                help: "Script file to write",
                shape: Shape::File,
            },
        ],
    },
];

// The commands that run threads, and the one for editors.
const THREAD_WORDS: &[Word] = &[
    Word {
        verb: Verb::Live,
        name: "live",
        about: "Run a script's threads in parallel, then read debugger commands from standard input",
        after: LIVE,
        operands: &[
            SCRIPT,
            TURNS,
            WORKERS,
            Operand {
                name: "OUT",
                help: "Trace file to write, default none",
                shape: Shape::Named("trace"),
            },
        ],
    },
    Word {
        verb: Verb::Serve,
        name: "serve",
        about: "Run a script's threads in parallel, and serve debugger commands over TCP",
        after: SERVE,
        operands: &[
            SCRIPT,
            Operand {
                name: "P",
                help: "Port to listen on: 1 to 65535",
                shape: Shape::Port,
            },
            TURNS,
            WORKERS,
            Operand {
                name: "C",
                help: "Number of sessions to stop after: 1 to 1000000, default never",
                shape: Shape::Number("clients"),
            },
        ],
    },
    Word {
        verb: Verb::Dap,
        name: "dap",
        about: "Serve an editor as a debug adapter, over standard input and output",
        after: DEBUG_ADAPTER,
        operands: &[],
    },
];

/// Returns the first commands, as help lists them.
pub fn file_words() -> &'static [Word] {
    FILE_WORDS
}

/// Returns the commands after them.
pub fn report_words() -> &'static [Word] {
    REPORT_WORDS
}

/// Returns the last commands.
pub fn thread_words() -> &'static [Word] {
    THREAD_WORDS
}
