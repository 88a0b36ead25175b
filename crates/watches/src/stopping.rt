//! Moves a walker to where a watch or a break stops it.
ghost use Rattle.std.specs.Prelude.{◌≡◌, ◌+◌, ◌≤◌, length, IsOk, IfOk, OnErr};
ghost use Rattle.inverse_log.specs.Walks.{jumped, moved};
ghost use Rattle.watches.specs.Stops.{reverse_stop, forward_stop, IsEarlier, IsLater, position_of};

use crate::searching::{earlier, later};
use crate::watched::Watches;
use inverse_log::Walker;
use std::alloc::AllocError;

/// Why and at which moment a walk stops.
#[derive(Clone, Copy, PartialEq, Eq)]
pub enum Stop {
    /// An event changes a watched place. A walk back stops at the moment before that event, a walk
    /// forward at the moment after it.
    Change(usize),
    /// A place takes the value of a break: it has the value at this moment, and did not
    /// have it one event earlier.
    Met(usize),
    /// The start of the run.
    Start,
    /// The end of the run.
    End,
}

/// Returns the moment at which a stop leaves the walker.
pub fn position_of(walker: &Walker, stop: Stop) -> usize
    ensures { result ≡ position_of walker.now stop }
{
    match stop {
        Stop::Change(moment) => moment,
        Stop::Met(moment) => moment,
        Stop::Start => 0,
        Stop::End => walker.len(),
    }
}

/// Goes back to the stop that `earlier` returns, by one jump. Breaks do not stop a walk back. If an
/// allocation fails, the position is unchanged.
pub fn rcont(walker: &mut Walker, watches: &Watches) -> Result<Stop, AllocError>
    ensures stop { IfOk result (λ stop. stop ≡ reverse_stop walker.old watches.now.watchpoints) }
    ensures meaning { IfOk result (IsEarlier walker.old watches.now.watchpoints) }
    ensures lands { IfOk result (λ stop. walker.new
        ≡ jumped walker.old (position_of walker.old stop)) }
    ensures near { walker.old.at
        ≤ position_of walker.old
        (reverse_stop walker.old watches.now.watchpoints) + walker.old.window → IsOk result }
    ensures err { OnErr result (walker.new ≡ walker.old) }
{
    let stop = earlier(walker, watches);
    let moment = position_of(walker, stop);
    match walker.goto(moment) {
        Ok(()) => Ok(stop),
        Err(_) => Err(AllocError),
    }
}

/// Goes forward to the stop that `later` returns, by one jump that `walked` does not count. If an
/// allocation fails, the position is unchanged.
pub fn cont(walker: &mut Walker, watches: &Watches) -> Result<Stop, AllocError>
    ensures stop { IfOk result (λ stop. stop ≡ forward_stop walker.old watches.now) }
    ensures meaning { IfOk result (IsLater walker.old watches.now) }
    ensures lands { IfOk result (λ stop. walker.new
        ≡ moved walker.old (position_of walker.old stop)) }
    ensures none { walker.old.at ≡ length walker.old.events → IsOk result }
    ensures err { OnErr result (walker.new ≡ walker.old) }
{
    let stop = later(walker, watches)?;
    let moment = position_of(walker, stop);
    match walker.move_to(moment) {
        Ok(()) => Ok(stop),
        Err(_) => Err(AllocError),
    }
}
