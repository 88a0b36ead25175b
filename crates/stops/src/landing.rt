//! Where a run stops: at the nearest of its breakpoints, its findings and what the watches say.
ghost use Rattle.std.specs.Prelude.{◌≡◌, ◌<◌, ◌≤◌, IfSome, All};
ghost use Rattle.stops.specs.Landings.{sooner, later, is_at, landing_at, stops_of, forward_landing, backward_landing};

use crate::moments::Moments;

/// The moments at which a run stops in both directions.
#[derive(Drop)]
pub struct Marks {
    /// Those of breakpoints.
    pub breakpoints: Moments,
    /// Those of the findings at which the editor stops.
    pub findings: Moments,
}

/// Why a run stops.
#[derive(Clone, Copy, PartialEq, Eq)]
pub enum Cause {
    Breakpoint,
    /// What the watches say.
    DataBreakpoint,
    Finding,
    /// The start or the end of the run.
    End,
}

/// Where and why a run stops.
#[derive(Clone, Copy)]
pub struct Landing {
    pub moment: usize,
    pub cause: Cause,
}

fn sooner(a: Option<usize>, b: Option<usize>) -> Option<usize>
    ensures { result ≡ sooner a b }
{
    match (a, b) {
        (Some(a), Some(b)) => Some(a.min(b)),
        (None, b) => b,
        (a, None) => a,
    }
}

fn later(a: Option<usize>, b: Option<usize>) -> Option<usize>
    ensures { result ≡ later a b }
{
    match (a, b) {
        (Some(a), Some(b)) => Some(a.max(b)),
        (None, b) => b,
        (a, None) => a,
    }
}

// Returns whether there is a moment, and it is this one.
fn is_at(found: Option<usize>, moment: usize) -> bool
    ensures { result ≡ is_at found moment }
{
    match found {
        Some(found) => found == moment,
        None => false,
    }
}

// Returns the landing at the nearest moment, if there is one, or else at an end of the run.
fn landing_at(
    breakpoint: Option<usize>,
    watched: Option<usize>,
    nearest: Option<usize>,
    end: usize,
) -> Landing
    ensures { result ≡ landing_at breakpoint watched nearest end }
{
    let Some(moment) = nearest else {
        return Landing {
            moment: end,
            cause: Cause::End,
        };
    };
    let cause = if is_at(breakpoint, moment) {
        Cause::Breakpoint
    } else if is_at(watched, moment) {
        Cause::DataBreakpoint
    } else {
        Cause::Finding
    };
    Landing { moment, cause }
}

/// Returns where a run forward over `len` events stops: at the least moment above the position, or
/// at the end. `watched` is the least one at which the watches stop it.
pub fn forward(marks: &Marks, watched: Option<usize>, at: usize, len: usize) -> Landing
    requires { IfSome watched (λ m. at < m) }
    ensures landing { result ≡ forward_landing marks.now watched at len }
    ensures first { All (λ k. at < k → result.moment ≤ k) (stops_of marks.now watched) }
{
    let breakpoint = marks.breakpoints.above(at);
    let finding = marks.findings.above(at);
    let nearest = sooner(breakpoint, sooner(finding, watched));
    landing_at(breakpoint, watched, nearest, len)
}

/// Returns where a run back stops: at the greatest moment below the position, or at the start.
/// `watched` is the greatest one at which the watches stop it.
pub fn backward(marks: &Marks, watched: Option<usize>, at: usize) -> Landing
    requires { IfSome watched (λ m. m < at) }
    ensures landing { result ≡ backward_landing marks.now watched at }
    ensures last { All (λ k. k < at → k ≤ result.moment) (stops_of marks.now watched) }
{
    let breakpoint = marks.breakpoints.below(at);
    let finding = marks.findings.below(at);
    let nearest = later(breakpoint, later(finding, watched));
    landing_at(breakpoint, watched, nearest, 0)
}
