//! Proved facts about sessions, lines and traces.
ghost use Rattle.std.specs.Prelude.{◌≡◌, ◌+◌, ℕ, ◌++◌, List, true, Ok, Some, None, length, take};
ghost use Rattle.scenario.specs.declared.event.Event.{Event};
ghost use Rattle.machine.specs.declared.whole.Machine.{Machine};
ghost use Rattle.machine.specs.Runs.{start, Accepts, IsRefused};
ghost use Rattle.scenario.specs.Setups.{setup_refusal};
ghost use Rattle.scenario.specs.declared.event.Refusal.{Refusal};
ghost use Rattle.scenario.specs.declared.setup.Setup.{Setup};
ghost use Rattle.traces.specs.Setups.{canonical};
ghost use Rattle.commands.specs.declared.command.Command.TheVariants.{Sync};
ghost use Rattle.commands.specs.Commands.{command_of};
ghost use Rattle.debug_server.specs.Lines.{lines_of, ended_lines};
ghost use Rattle.debug_server.specs.Syncs.{torn_from, refused_from, IsTorn, IsFirstRefused};
ghost use Rattle.debug_server.specs.Transcripts.{asks, Streams};
ghost use Rattle.debug_server.specs.Walked.{Walked, BrokenOff};
ghost use Rattle.debug_server.specs.declared.faults.ServeFault.{ServeFault};

/// `torn_from` returns the index of the first event that the other trace doesn't have at that
/// index. It returns `None` only if the other trace begins with all the events.
pub fn torn_is_first()
    ensures first { (es fs : List Event) (k : ℕ) → torn_from 0 es fs ≡ Some k → IsTorn es fs k }
    ensures whole { (es fs : List Event) → torn_from 0 es fs ≡ None → take (length es) fs ≡ es }
{}

/// `refused_from` returns the index of the first refused event, counted from `from`. It returns
/// `None` only if every event is accepted.
pub fn refused_is_first()
    ensures first { (from j : ℕ) (m : Machine) (es : List Event) → refused_from from m es ≡ Some j
        → (k : ℕ) × (j ≡ from + k) × IsFirstRefused m es k }
    ensures whole { (from : ℕ) (m : Machine) (es : List Event) → refused_from from m es ≡ None
        → Accepts m es }
{}

/// A line queries the source exactly if it is the command `sync`.
pub fn sync_alone_asks()
    ensures asked { (setup : Setup) (line : List ℕ) → asks line ≡ true
        → command_of setup line ≡ Ok Sync }
    ensures sync { (setup : Setup) (line : List ℕ) → command_of setup line ≡ Ok Sync
        → asks line ≡ true }
{}

/// The complete lines of some bytes stay the first lines, whatever bytes follow.
pub fn ended_lines_stay()
    ensures { (bytes more : List ℕ) → (ls : List (List ℕ))
        × (lines_of (bytes ++ more) ≡ ended_lines bytes ++ ls) }
{}

/// The setup stored in a trace of the second form has the same start as the original. Rounded ring
/// sizes and omitted zeros of the memory don't change the state.
pub fn traces_keep_the_start()
    ensures { (s : Setup) → setup_refusal s ≡ None → start (canonical s) ≡ start s }
{}

/// A trace's setup and the original setup give the same runs. The same events are accepted and
/// refused, and a session gives the same replies to the same lines.
pub fn replays_are_the_run()
    ensures walked { (s : Setup) (events : List Event) (before after : Streams)
        → setup_refusal s ≡ None → Walked (canonical s) events before after
        → Walked s events before after }
    ensures refused { (s : Setup) (events : List Event) (i : ℕ) (n : Refusal)
        → setup_refusal s ≡ None → IsRefused (canonical s) events i n → IsRefused s events i n }
    ensures broken { (s : Setup) (events : List Event) (before after : Streams) (f : ServeFault)
        → setup_refusal s ≡ None → BrokenOff (canonical s) events before after f
        → BrokenOff s events before after f }
{}
