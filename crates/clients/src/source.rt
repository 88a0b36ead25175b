//! The source of a client's session: a live run that continues.
ghost use Rattle.std.specs.Prelude.{◌≡◌};

use debug_server::Source;
use live_runner::Live;
use machine::Event;
use std::alloc::AllocError;
use std::sync::ledger::Ledger;
use std::sync::{Mutex, Wait};

/// A live run behind a lock. Each call acquires the lock once.
#[derive(Drop)]
pub struct LiveSource<'s, L: Ledger, R: Wait> {
    pub rt: &'s R,
    pub lock: &'s Mutex<Live<L>>,
}

impl<'s, L: Ledger, R: Wait> Source for LiveSource<'s, L, R> {
    ghost use Rattle.clients.specs.Given.{RunsFromSome};

    ghost gives = { λ before answer after. (after ≡ before) × RunsFromSome answer };

    ghost fails = { λ before after. after ≡ before };

    fn trace(&mut self) -> Result<Option<Vec<Event>>, AllocError> {
        let events = self.lock.lock(self.rt).events()?;
        Ok(Some(events))
    }
}
