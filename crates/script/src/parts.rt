//! A script: a setup and a schedule.
ghost use Rattle.std.specs.Prelude.{◌≡◌};
ghost use Rattle.script.specs.Scripts.{Startable};

use places::Items;
use scenario::{Event, Setup};
use std::marker::Model;

/// A setup from which a run can start, and at most 65,536 events to run.
pub struct Script {
    setup: Setup,
    schedule: Items<Event>,
}

// Written by hand, so that dropping a script is one step of a proof.
impl Drop for Script {
    fn drop(self) {
        let Script {
            setup: _,
            schedule: _,
        } = self;
    }
}

impl Model for Script {
    ghost use Rattle.script.specs.Scripts.{Scenario, Startable};

    ghost Value = { Scenario };

    ghost view = { λ s. record { setup = s.setup; schedule = s.schedule } };

    ghost invariant = { λ s. Startable (record { setup = s.setup; schedule = s.schedule }) };
}

impl Script {
    pub(crate) fn new(setup: Setup, schedule: Items<Event>) -> Script
        requires { Startable (record { setup = setup; schedule = schedule }) }
        ensures { result ≡ record { setup = setup; schedule = schedule } }
    {
        Script { setup, schedule }
    }

    /// The start of the run.
    pub fn setup(&self) -> &Setup
        ensures value { result.now ≡ self.now.setup }
        ensures kept { Startable self.now }
    {
        &self.setup
    }

    /// The events of the run.
    pub fn schedule(&self) -> &[Event]
        ensures value { result.now ≡ self.now.schedule }
        ensures kept { Startable self.now }
    {
        self.schedule.as_slice()
    }
}
