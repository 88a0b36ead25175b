//! Bytes that an FSYNC failed to make durable, and FSYNCs that are retried after a failure
//! (fsync(2)).
ghost use Rattle.std.specs.Prelude.{◌≡◌, ℕ, ◌<◌, ◌++◌, ◌&&◌, ◌||◌, [], true, false, not, length, IfOk, OnOk, MatchBool, option_to_list};
ghost use Rattle.findings.specs.{IsCopy, has, is_volatile_at, is_within, moves, completed_by, is_marked, is_fsync_of, SaysMarked, AddsRetried, Follows};

use crate::failures::Failures;
use crate::marking::mark_volatile;
use crate::record::{Added, add_if};
use bit_sets::BitSet;
use entries::EIO;
use finding_kinds::{Finding, Kind, Retry, number_at};
use finding_rules::{Effect, Fsync, Transition, Written, completed_by, fsync_of, written_of};
use machine::{Setup, State};
use places::Place;
use std::alloc::{AllocError, Global};

/// What a search has seen of WRITEs and FSYNCs.
#[derive(Drop)]
pub struct Durability {
    /// The completed WRITEs, in the order of their events.
    pub writes: Vec<Written>,
    /// For each object, the bytes that were not durable when an FSYNC of it failed, and that no
    /// WRITE has moved since.
    pub suspects: Vec<BitSet>,
    /// The findings about FSYNCs that are retried.
    pub retried: Vec<Finding>,
    /// For each object, its FSYNCs that failed.
    pub failures: Vec<Failures>,
}

// Returns an empty set for each of some objects.
fn empty_sets(alloc: Global, objects: usize) -> Result<Vec<BitSet>, AllocError>
    ensures count { IfOk result (λ sets. length sets.items ≡ objects) }
    ensures none { IfOk result (λ sets. (o k : ℕ) → is_marked sets.items o k ≡ false) }
{
    let mut sets = Vec::new(alloc);
    for _object in 0..objects {
        sets.push(BitSet::new(alloc))?;
    }
    Ok(sets)
}

fn no_failures(alloc: Global, objects: usize) -> Result<Vec<Failures>, AllocError> {
    let mut failures = Vec::new(alloc);
    for _object in 0..objects {
        failures.push(Failures::new(alloc))?;
    }
    Ok(failures)
}

impl Durability {
    /// Returns what a search has seen at the start of a run.
    pub fn new(alloc: Global, setup: &Setup) -> Result<Durability, AllocError>
        ensures writes { IfOk result (λ files. files.writes.items ≡ []) }
        ensures count { IfOk result
            (λ files. length files.suspects.items ≡ length setup.now.objects) }
        ensures none { IfOk result
            (λ files. (o k : ℕ) → is_marked files.suspects.items o k ≡ false) }
        ensures retried { IfOk result (λ files. files.retried.items ≡ []) }
    {
        let objects = setup.objects.as_slice().len();
        Ok(Durability {
            writes: Vec::new(alloc),
            suspects: empty_sets(alloc, objects)?,
            retried: Vec::new(alloc),
            failures: no_failures(alloc, objects)?,
        })
    }

    /// Copies it, without the failures, which only sentences need.
    pub(crate) fn copy(&self, alloc: Global) -> Result<Durability, AllocError>
        ensures { IfOk result (IsCopy self.now) }
    {
        Ok(Durability {
            writes: self.writes.as_slice().to_vec(alloc)?,
            suspects: copied_sets(alloc, &self.suspects)?,
            retried: self.retried.as_slice().to_vec(alloc)?,
            failures: Vec::new(alloc),
        })
    }
}

fn copied_sets(alloc: Global, sets: &[BitSet]) -> Result<Vec<BitSet>, AllocError>
    ensures { IfOk result (λ copied. copied.items ≡ sets.now) }
{
    let mut copied = Vec::new(alloc);
    for set in sets {
        copied.push(set.copy(alloc)?)?;
    }
    Ok(copied)
}

// ---- FSYNCs that are retried

fn has_number(bytes: &BitSet) -> bool
    ensures { MatchBool result ((k : ℕ) × (has bytes.now k ≡ true))
        ((k : ℕ) → has bytes.now k ≡ false) }
{
    matches!(bytes.next(0), Some(_) if true)
}

// Returns whether a file has a suspect byte.
fn has_suspect(suspects: &[BitSet], file: u32) -> bool
    ensures { SaysMarked result suspects.now file }
{
    matches!(suspects.get(file as usize), Some(bytes) if has_number(bytes))
}

// Adds a finding if the FSYNC, which completed without error, syncs a file with suspect bytes.
fn add_retried(
    retried: &mut Vec<Finding>,
    moment: u32,
    fsync: Option<Fsync>,
    suspects: &[BitSet],
) -> Added
    ensures { OnOk result
        (AddsRetried moment fsync suspects.now retried.old.items retried.new.items) }
{
    let Some(fsync) = fsync else {
        return Ok(());
    };
    let test = has_suspect(suspects, fsync.file);
    add_if(retried, test, moment, Kind::FsyncRetried, fsync.row)
}

// Records the failures before the FSYNC, if its file has suspect bytes.
fn note_retry(
    retries: &mut Vec<Retry>,
    moment: u32,
    fsync: Option<Fsync>,
    failures: &[Failures],
) -> Added {
    let Some(fsync) = fsync else {
        return Ok(());
    };
    let Some(failures) = failures.get(fsync.file as usize) else {
        return Ok(());
    };
    if let Some(retry) = failures.retry(moment)? {
        retries.push(retry)?;
    }
    Ok(())
}

// ---- WRITEs

fn add_written(writes: &mut Vec<Written>, written: Option<Written>) -> Added
    ensures { OnOk result (writes.new.items ≡ writes.old.items ++ option_to_list written) }
{
    if let Some(written) = written {
        writes.push(written)?;
    }
    Ok(())
}

/// Removes `count` numbers from `first` on from a set.
pub(crate) fn forget(bytes: &mut BitSet, first: u64, count: u64)
    ensures { (k : ℕ) → has bytes.new k ≡ (has bytes.old k && not (is_within first count k)) }
{
    while let Some(byte) = bytes.next(first as usize) {
        if byte as u64 - first >= count {
            return;
        }
        bytes.write(byte, false);
    }
}

// Removes the bytes that a WRITE moved from the suspect bytes.
fn forget_written(suspects: &mut Vec<BitSet>, written: Option<Written>)
    ensures count { length suspects.new.items ≡ length suspects.old.items }
    ensures marks { (o k : ℕ) → is_marked suspects.new.items o k
        ≡ (is_marked suspects.old.items o k && not (moves written o k)) }
{
    let Some(written) = written else {
        return;
    };
    if written.file as usize >= suspects.len() {
        return;
    }
    forget(
        &mut suspects[written.file as usize],
        written.first,
        written.count,
    );
}

// Removes the bytes that a WRITE moved from those of the FSYNCs that failed.
fn note_written(failures: &mut Vec<Failures>, written: Option<Written>) {
    if let Some(written) = written {
        if let Some(failures) = failures.get_mut(written.file as usize) {
            failures.forget(written.first, written.count);
        }
    }
}

// ---- FSYNCs that fail

// Records the FSYNC with the bytes that it made suspect, by the suspect bytes after it.
fn note_failure(
    failures: &mut Vec<Failures>,
    at: Transition<'_>,
    fsync: Option<Fsync>,
    suspects: &[BitSet],
) -> Added {
    let Some(fsync) = fsync else {
        return Ok(());
    };
    let Some(bytes) = suspects.get(fsync.file as usize) else {
        return Ok(());
    };
    let length = number_at(at.state, Place::FileLength(fsync.file)).unwrap_or(0);
    if let Some(failures) = failures.get_mut(fsync.file as usize) {
        failures.add(fsync.row, at.moment, bytes, length)?;
    }
    Ok(())
}

// Adds the bytes of the file that are not durable to the suspect bytes.
fn suspect_failed(suspects: &mut Vec<BitSet>, state: &State, fsync: Option<Fsync>) -> Added
    ensures count { OnOk result (length suspects.new.items ≡ length suspects.old.items) }
    ensures marks { OnOk result ((o k : ℕ) → o < length suspects.old.items →
        is_marked suspects.new.items o k ≡ (is_marked suspects.old.items o k
        || (is_fsync_of fsync o && is_volatile_at state.now o k))) }
{
    let Some(fsync) = fsync else {
        return Ok(());
    };
    if fsync.file as usize >= suspects.len() {
        return Ok(());
    }
    mark_volatile(&mut suspects[fsync.file as usize], state, fsync.file)?;
    Ok(())
}

// ---- one event

// Follows the completion of a READ, WRITE or FSYNC.
fn follow_effect(
    at: Transition<'_>,
    effect: &Effect,
    files: &mut Durability,
    retries: &mut Vec<Retry>,
) -> Added
    ensures { OnOk result (Follows at.entry.setup.now at.entry.moment at.entry.state.now effect.now
        files.old.writes.items files.new.writes.items files.old.suspects.items
        files.new.suspects.items files.old.retried.items files.new.retried.items) }
{
    let retried = fsync_of(at.setup, 0, effect);
    note_retry(retries, at.moment, retried, &files.failures)?;
    add_retried(&mut files.retried, at.moment, retried, &files.suspects)?;
    let written = written_of(at.setup, at.state, effect);
    add_written(&mut files.writes, written)?;
    forget_written(&mut files.suspects, written);
    note_written(&mut files.failures, written);
    let failed = fsync_of(at.setup, -EIO, effect);
    suspect_failed(&mut files.suspects, at.state, failed)?;
    note_failure(&mut files.failures, at, failed, &files.suspects)
}

/// Follows the WRITE or FSYNC that an event completes, if it completes one.
pub(crate) fn follow_files(
    at: Transition<'_>,
    files: &mut Durability,
    retries: &mut Vec<Retry>,
) -> Added
    ensures { OnOk result (Follows at.entry.setup.now at.entry.moment at.entry.state.now
        (completed_by at.entry.event at.entry.state.now)
        files.old.writes.items files.new.writes.items files.old.suspects.items
        files.new.suspects.items files.old.retried.items files.new.retried.items) }
{
    match completed_by(at.event, at.state) {
        Effect::Nothing => Ok(()),
        effect => follow_effect(at, &effect, files, retries),
    }
}
