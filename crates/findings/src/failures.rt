//! FSYNCs of a file that failed, with the bytes that became suspect by each (fsync(2)).

use crate::record::Added;
use bit_sets::BitSet;
use finding_kinds::{Failure, Retry};
use std::alloc::{AllocError, Global};

/// How many failures a retry names.
const NAMED: usize = 3;

/// The FSYNCs of a file that failed.
#[derive(Drop)]
pub struct Failures {
    /// The failures that made bytes suspect, in order.
    list: Vec<Failure>,
    /// For each byte that has been suspect, the index of the failure that made it so. None if the
    /// byte isn't suspect.
    causes: Vec<Option<u32>>,
}

// Counts a failure that has bytes: the first few by their names.
fn add_failure(retry: &mut Retry, failure: Failure) -> Added {
    if retry.failures.len() < NAMED {
        retry.failures.push(failure)?;
    } else {
        retry.more = retry.more.saturating_add(1);
        retry.more_bytes = retry.more_bytes.saturating_add(failure.bytes);
    }
    Ok(())
}

impl Failures {
    /// Returns a file's failures at the start of a run.
    pub fn new(alloc: Global) -> Failures {
        Failures {
            list: Vec::new(alloc),
            causes: Vec::new(alloc),
        }
    }

    // Makes a failure the cause of the suspect bytes that have none, and returns their number.
    fn claim(&mut self, index: u32, suspects: &BitSet) -> u32 {
        let mut bytes: u32 = 0;
        for at in 0..self.causes.len() {
            if let Some(cause) = self.causes.get_mut(at) {
                if cause.is_none() && suspects.contains(at) {
                    *cause = Some(index);
                    bytes = bytes.saturating_add(1);
                }
            }
        }
        bytes
    }

    /// Records that an FSYNC of the file failed, by the suspect bytes after it.
    pub fn add(
        &mut self,
        row: u32,
        moment: u32,
        suspects: &BitSet,
        length: u64,
    ) -> Result<(), AllocError> {
        let Ok(index) = u32::try_from(self.list.len()) else {
            return Err(AllocError);
        };
        for _byte in self.causes.len() as u64..length {
            self.causes.push(None)?;
        }
        let bytes = self.claim(index, suspects);
        if bytes > 0 {
            self.list.push(Failure { row, moment, bytes })?;
        }
        Ok(())
    }

    fn forget_byte(&mut self, at: usize) {
        let cause = self.causes.get_mut(at).and_then(|cause| cause.take());
        if let Some(index) = cause {
            if let Some(failure) = self.list.get_mut(index as usize) {
                failure.bytes = failure.bytes.saturating_sub(1);
            }
        }
    }

    /// Records that a WRITE moved `count` bytes from `first` on.
    pub fn forget(&mut self, first: u64, count: u64) {
        let length = self.causes.len() as u64;
        for at in first..first.saturating_add(count).min(length) {
            self.forget_byte(at as usize);
        }
    }

    /// Returns the failures before an FSYNC that completes without error at a moment, if bytes are
    /// suspect.
    pub fn retry(&self, moment: u32) -> Result<Option<Retry>, AllocError> {
        let mut retry = Retry {
            moment,
            failures: Vec::new(*self.list.allocator()),
            more: 0,
            more_bytes: 0,
        };
        for failure in &self.list {
            if failure.bytes > 0 {
                add_failure(&mut retry, *failure)?;
            }
        }
        if retry.failures.is_empty() {
            return Ok(None);
        }
        Ok(Some(retry))
    }
}
