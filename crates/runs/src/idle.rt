//! An observer that does nothing, for a run of which only the end matters.

use crate::observer::{Observed, Observer};
use places::Record;
use std::convert::Infallible;

impl Observer for () {
    type Note = ();

    type Stop = Infallible;

    ghost has_seen = { λ o s es i. Unit {0} };

    ghost notes = { λ s es i n. Unit {0} };

    ghost stops = { λ o s es i x. ⊥ };

    fn before(&self, _at: Observed<'_>) -> Result<(), Infallible> {
        Ok(())
    }

    fn after(&mut self, _at: Observed<'_>, _past: &Record, _note: ()) -> Result<(), Infallible> {
        Ok(())
    }
}
