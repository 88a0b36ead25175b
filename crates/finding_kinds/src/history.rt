//! The history of a run that the sentences of its findings need.

use std::alloc::Global;

/// The moments before the events that submitted, issued and completed a request.
#[derive(Clone, Copy)]
pub struct Times {
    pub queued: u32,
    pub issued: Option<u32>,
    pub ended: Option<u32>,
    /// For a request that an issued LINK_TIMEOUT limits: the moment before the event since which it
    /// could complete in full. None while it can't.
    pub ready: Option<u32>,
}

impl Times {
    /// Returns whether the request was issued and incomplete before the event at this moment.
    pub fn is_issued_at(&self, moment: u32) -> bool {
        let started = match self.issued {
            Some(issued) => issued < moment,
            None => false,
        };
        started && !self.has_ended_at(moment)
    }

    /// Returns whether the request had completed before the event at this moment.
    pub fn has_ended_at(&self, moment: u32) -> bool {
        match self.ended {
            Some(ended) => ended < moment,
            None => false,
        }
    }

    /// Returns whether the request was submitted, but neither issued nor completed, before the
    /// event at this moment.
    pub fn is_queued_at(&self, moment: u32) -> bool {
        self.queued < moment && !self.is_issued_at(moment) && !self.has_ended_at(moment)
    }
}

/// A close, at this moment, of a descriptor that the entry in this slot names. The entry was pushed
/// and not yet taken.
#[derive(Clone, Copy)]
pub struct Met {
    pub moment: u32,
    pub slot: u32,
}

/// A completion that a thread reaped by the event at this moment.
#[derive(Clone, Copy)]
pub struct Reaped {
    pub moment: u32,
    pub thread: u32,
    pub user_data: u64,
}

/// The close, at this moment, of an open descriptor of the setup.
#[derive(Clone, Copy)]
pub struct Closed {
    pub moment: u32,
    pub descriptor: u32,
}

/// An FSYNC that completed with -5 (EIO).
#[derive(Clone, Copy)]
pub struct Failure {
    /// The number of the request.
    pub row: u32,
    /// The moment before the event that completed it.
    pub moment: u32,
    /// How many bytes of its file were not durable when it failed, and were not written since.
    /// Bytes that count for an earlier failure don't count again.
    pub bytes: u32,
}

/// An FSYNC that completed without error, at this moment, though bytes of its file were not written
/// since FSYNCs of it had failed.
#[derive(Drop)]
pub struct Retry {
    pub moment: u32,
    /// The first few of these failures, in order. Each has at least one byte.
    pub failures: Vec<Failure>,
    /// How many failures with bytes there are after those.
    pub more: u32,
    /// How many bytes they have.
    pub more_bytes: u32,
}

/// A file with bytes that aren't durable at the end.
#[derive(Clone, Copy)]
pub struct Lost {
    /// The object number of the file.
    pub file: u32,
    /// The number of the first WRITE that moved some of these bytes.
    pub row: u32,
}

/// When requests changed phase, and other facts that sentences refer to.
pub struct History {
    /// One element per request.
    pub rows: Vec<Times>,
    /// One element per event: the program counter of the thread that did it, or None for an event
    /// that is no step of a thread.
    pub counters: Vec<Option<u32>>,
    /// In the order of their moments, at most one per moment.
    pub slots: Vec<Met>,
    /// The moments at which the backlog became empty, in order.
    pub emptied: Vec<u32>,
    /// For each event that dropped indexes, in order: its moment, and sq.dropped after it.
    pub dropped: Vec<(u32, u32)>,
    /// For each slot up to the highest that was put: the moments before its puts, in order.
    pub puts: Vec<Vec<u32>>,
    /// How many indexes of the submission ring have been consumed, modulo 2^32.
    pub consumed: u32,
    /// For each request, the slot from which its entry was taken.
    pub origins: Vec<u32>,
    /// In the order of their moments, at most one per moment.
    pub reaps: Vec<Reaped>,
    /// In the order of their moments, at most one per descriptor.
    pub closes: Vec<Closed>,
    /// The incomplete requests that issued LINK_TIMEOUTs limit.
    pub limited: Vec<u32>,
    /// In the order of their moments, at most one per moment.
    pub retries: Vec<Retry>,
    /// In the order of their files. A file that no WRITE moved such bytes of is left out.
    pub lost: Vec<Lost>,
}

impl Drop for History {
    fn drop(self) {
        let History {
            rows: _,
            counters: _,
            slots: _,
            emptied: _,
            dropped: _,
            puts: _,
            consumed: _,
            origins: _,
            reaps: _,
            closes: _,
            limited: _,
            retries: _,
            lost: _,
        } = self;
    }
}

impl History {
    /// Returns the history of an empty run.
    pub fn new(alloc: Global) -> History {
        History {
            rows: Vec::new(alloc),
            counters: Vec::new(alloc),
            slots: Vec::new(alloc),
            emptied: Vec::new(alloc),
            dropped: Vec::new(alloc),
            puts: Vec::new(alloc),
            consumed: 0,
            origins: Vec::new(alloc),
            reaps: Vec::new(alloc),
            closes: Vec::new(alloc),
            limited: Vec::new(alloc),
            retries: Vec::new(alloc),
            lost: Vec::new(alloc),
        }
    }
}
