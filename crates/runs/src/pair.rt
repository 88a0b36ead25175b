//! Two observers of one run.
ghost use Rattle.runs.specs.Moments.{PairStops};

use crate::observer::{Observed, Observer};
use places::Record;

/// Two observers of one run, called one after the other.
#[derive(Drop)]
pub struct Pair<A, B> {
    pub first: A,
    pub second: B,
}

/// Why two observers stop a run: the reason of one of them.
#[derive(Drop)]
pub enum Either<E, F> {
    First(E),
    Second(F),
}

impl<A: Observer, B: Observer> Observer for Pair<A, B> {
    type Note = (A::Note, B::Note);

    type Stop = Either<A::Stop, B::Stop>;

    ghost has_seen = { λ o s es i. A.has_seen o.first s es i × B.has_seen o.second s es i };

    ghost notes = { λ s es i n. A.notes s es i n.0 × B.notes s es i n.1 };

    ghost stops = { λ o s es i x. PairStops A.stops B.stops o.first o.second s es i x };

    fn before(&self, at: Observed<'_>) -> Result<(A::Note, B::Note), Either<A::Stop, B::Stop>> {
        let first = match self.first.before(at) {
            Ok(first) => first,
            Err(stop) => return Err(Either::First(stop)),
        };
        match self.second.before(at) {
            Ok(second) => Ok((first, second)),
            Err(stop) => Err(Either::Second(stop)),
        }
    }

    fn after(
        &mut self,
        at: Observed<'_>,
        past: &Record,
        note: (A::Note, B::Note),
    ) -> Result<(), Either<A::Stop, B::Stop>> {
        let (first, second) = note;
        if let Err(stop) = self.first.after(at, past, first) {
            return Err(Either::First(stop));
        }
        match self.second.after(at, past, second) {
            Ok(()) => Ok(()),
            Err(stop) => Err(Either::Second(stop)),
        }
    }
}
