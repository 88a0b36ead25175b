//! The progress of a search, on a terminal.

use std::time::{Clock, Instant};

/// The least time between two lines, in seconds.
const PAUSE: u64 = 1;

/// When a line of progress is due.
#[derive(Clone, Copy)]
pub struct Progress {
    /// When the last line was printed. None if standard error is no terminal, or there is no clock.
    last: Option<Instant>,
}

impl Progress {
    /// Returns the progress of a search that begins now. It is printed only on a terminal.
    pub fn new(rt: &impl Clock, is_terminal: bool) -> Progress {
        Progress {
            last: if is_terminal {
                Instant::now(rt).ok()
            } else {
                None
            },
        }
    }

    /// Prints how many runs were made, if no line was printed for a second.
    pub fn show(&mut self, rt: &(impl Eprint + Clock), runs: u64) {
        let Some(last) = self.last else {
            return;
        };
        match last.elapsed(rt) {
            Ok(passed) if passed.as_secs() < PAUSE => {}
            _ => self.print(rt, runs),
        }
    }

    fn print(&mut self, rt: &(impl Eprint + Clock), runs: u64) {
        self.last = Instant::now(rt).ok();
        match eprintln!(rt; "runs {runs}") {
            Ok(()) | Err(_) => {}
        }
    }
}
