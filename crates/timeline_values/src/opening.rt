//! An observer that reads the values of all places at one moment of a run.
ghost use Rattle.std.specs.Prelude.{◌≡◌, None, List, IfOk};
ghost use Rattle.scenario.specs.declared.event.Event.{Event};
ghost use Rattle.scenario.specs.Setups.{setup_refusal};
ghost use Rattle.machine.specs.Runs.{start};
ghost use Rattle.run_log.specs.declared.range.EventRange.{EventRange};
ghost use Rattle.timeline_values.specs.Openings.{HasOpened};

use crate::values::Values;
use machine::{Setup, State};
use places::Record;
use run_log::EventRange;
use runs::{Observed, Observer};
use std::alloc::{AllocError, Global};
use std::marker::{Brand, PhantomData};

/// The range of the events that are drawn, for proofs.
pub trait Ranged {
    ghost range: { EventRange };
}

impl Ranged for Brand {
    ghost range = { record { from = 0; to = None } };
}

/// An observer that reads the values at the first moment of a range, or at the end of a shorter
/// run.
#[derive(Drop)]
pub struct Opening<K> {
    alloc: Global,
    range: EventRange,
    /// The values at moment 0, and from the first moment on those at that moment.
    pub values: Values,
    proof: PhantomData<K>,
}

impl<K: Ranged> Opening<K> {
    /// Returns an observer that has seen no event, given the state at the run's start.
    pub fn new(
        alloc: Global,
        setup: &Setup,
        state: &State,
        range: EventRange,
    ) -> Result<Opening<K>, AllocError>
        requires setup { setup_refusal setup.now ≡ None }
        requires starts { state.now ≡ start setup.now }
        requires range { range ≡ K.range }
        ensures range { IfOk result (λ o. o.range ≡ K.range) }
        ensures opened { IfOk result (λ o. (es : List Event)
            → HasOpened setup.now es 0 K.range.from o.values) }
    {
        Ok(Opening {
            alloc,
            range,
            values: Values::new(alloc, setup, state)?,
            proof: PhantomData,
        })
    }
}

impl<K: Ranged> Observer for Opening<K> {
    type Note = ();

    type Stop = AllocError;

    ghost has_seen = { λ o s es i. (o.range ≡ K.range) × (setup_refusal s ≡ None)
        × HasOpened s es i K.range.from o.values };

    ghost notes = { λ s es i n. Unit {0} };

    ghost stops = { λ o s es i x. Unit {0} };

    fn before(&self, _at: Observed<'_>) -> Result<(), AllocError> {
        Ok(())
    }

    fn after(&mut self, at: Observed<'_>, _past: &Record, _note: ()) -> Result<(), AllocError> {
        let moment = at.index + 1;
        if moment == at.events.len().min(self.range.from as usize) {
            self.values = Values::new(self.alloc, at.setup, at.state)?;
        }
        Ok(())
    }
}
