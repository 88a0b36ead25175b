//! The state of a session: its walk and its stops.

ghost use Rattle.std.specs.Prelude.{◌≡◌, length};

use inverse_log::Walker;
use std::marker::Model;
use watches::Watches;

// A walk through a run, with watches and breaks.
#[derive(Drop)]
pub(crate) struct Visitor {
    pub(crate) walker: Walker,
    pub(crate) watches: Watches,
}

impl Model for Visitor {
    ghost use Rattle.debug_server.specs.SessionStates.{SessionState};

    ghost Value = { SessionState };

    ghost view = { λ v. record { walk = v.walker; stops = v.watches } };
}

impl Visitor {
    ghost use Rattle.debug_server.specs.SessionStates.{Runs};

    // Returns the position and the number of events.
    pub(crate) fn position(&self) -> (usize, usize)
        ensures at { result.0 ≡ self.now.walk.at }
        ensures len { result.1 ≡ length self.now.walk.events }
        ensures runs { Runs self.now.walk }
    {
        (self.walker.at(), self.walker.len())
    }
}
