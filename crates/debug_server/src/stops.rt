//! Replies to the commands that set watches and breaks, and that run to them.
ghost use Rattle.std.specs.Prelude.{◌≡◌, ◌≤◌, length, IfOk, OnOk, OnErr};
ghost use Rattle.inverse_log.specs.Walks.{jumped};
ghost use Rattle.watches.specs.Stops.{reverse_stop, forward_stop};
ghost use Rattle.watches.specs.Watchpoints.{nothing};
ghost use Rattle.debug_server.specs.SessionStates.{with_stops};
ghost use Rattle.debug_server.specs.Replies.{watching_text, watches as watched_by, breaks as broken_by, stops_on, stops_back};

use crate::texts::{breaks_line, fault_line, stop_line, watching_line};
use crate::visitor::Visitor;
use commands::CommandFault;
use inverse_log::Walker;
use places::{Place, Value};
use std::alloc::{AllocError, Global};
use watches::{LIMIT, Stop, earlier, later, position_of};

// Watches a place. The text is built first, so that an `Err` changes nothing.
pub(crate) fn watch(
    alloc: Global,
    visitor: &mut Visitor,
    place: Place,
) -> Result<Vec<u8>, AllocError>
    ensures text { IfOk result (λ text. text.items ≡ (watched_by visitor.old place).text) }
    ensures next { OnOk result (visitor.new ≡ (watched_by visitor.old place).next) }
    ensures err { OnErr result (visitor.new ≡ visitor.old) }
{
    if visitor.watches.places().len() >= LIMIT {
        return fault_line(alloc, CommandFault::Many);
    }
    let text = watching_line(alloc, visitor.watches.count_with(place))?;
    visitor.watches.watch(place)?;
    Ok(text)
}

// Sets a break at a value of a place. The text is built first, so that an `Err` changes nothing.
pub(crate) fn break_at(
    alloc: Global,
    visitor: &mut Visitor,
    place: Place,
    value: Value,
) -> Result<Vec<u8>, AllocError>
    ensures text { IfOk result (λ text. text.items ≡ (broken_by visitor.old place value).text) }
    ensures next { OnOk result (visitor.new ≡ (broken_by visitor.old place value).next) }
    ensures err { OnErr result (visitor.new ≡ visitor.old) }
{
    let count = visitor.watches.breaks().len();
    if count >= LIMIT {
        return fault_line(alloc, CommandFault::Many);
    }
    let text = breaks_line(alloc, count + 1)?;
    visitor.watches.break_at(place, value)?;
    Ok(text)
}

// Removes all watches and breaks.
pub(crate) fn unwatch(alloc: Global, visitor: &mut Visitor) -> Result<Vec<u8>, AllocError>
    ensures text { IfOk result (λ text. text.items ≡ watching_text 0) }
    ensures next { OnOk result (visitor.new ≡ with_stops visitor.old nothing) }
    ensures err { OnErr result (visitor.new ≡ visitor.old) }
{
    let text = watching_line(alloc, 0)?;
    visitor.watches.clear();
    Ok(text)
}

// Jumps to a moment.
pub(crate) fn jump_to(walker: &mut Walker, moment: usize) -> Result<(), AllocError>
    requires { moment ≤ length walker.old.events }
    ensures moved { OnOk result (walker.new ≡ jumped walker.old moment) }
    ensures err { OnErr result (walker.new ≡ walker.old) }
{
    match walker.goto(moment) {
        Ok(()) => Ok(()),
        Err(_) => Err(AllocError),
    }
}

// Moves back to where a watch stops. The text is built first, so that an `Err` changes nothing.
pub(crate) fn stop_back(alloc: Global, visitor: &mut Visitor) -> Result<Vec<u8>, AllocError>
    ensures text { IfOk result (λ text. text.items
        ≡ (stops_back visitor.old
        (reverse_stop visitor.old.walk visitor.old.stops.watchpoints)).text) }
    ensures next { OnOk result (visitor.new
        ≡ (stops_back visitor.old
        (reverse_stop visitor.old.walk visitor.old.stops.watchpoints)).next) }
    ensures err { OnErr result (visitor.new ≡ visitor.old) }
{
    let stop = earlier(&visitor.walker, &visitor.watches);
    let text = stop_line(alloc, stop, visitor.walker.len())?;
    let moment = match stop {
        Stop::Change(moment) => moment,
        _ => 0,
    };
    jump_to(&mut visitor.walker, moment)?;
    Ok(text)
}

// Moves forward to where a watch or a break stops, without counting steps. The text is built
// first, so that an `Err` changes nothing.
pub(crate) fn stop_on(alloc: Global, visitor: &mut Visitor) -> Result<Vec<u8>, AllocError>
    ensures text { IfOk result (λ text. text.items
        ≡ (stops_on visitor.old (forward_stop visitor.old.walk visitor.old.stops)).text) }
    ensures next { OnOk result (visitor.new
        ≡ (stops_on visitor.old (forward_stop visitor.old.walk visitor.old.stops)).next) }
    ensures err { OnErr result (visitor.new ≡ visitor.old) }
{
    let stop = later(&visitor.walker, &visitor.watches)?;
    let text = stop_line(alloc, stop, visitor.walker.len())?;
    let moment = position_of(&visitor.walker, stop);
    match visitor.walker.move_to(moment) {
        Ok(()) => Ok(text),
        Err(_) => Err(AllocError),
    }
}
