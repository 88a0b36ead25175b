//! The verdicts that the end of a run decides (fsync(2)).
ghost use Rattle.std.specs.Prelude.{◌≡◌, ℕ, ◌<◌, map, length, IfOk, OnOk};
ghost use Rattle.findings.specs.{is_volatile_at, has_byte_of, judged, is_marked, is_early, has_early, JudgesBy, Judges};

use crate::marking::mark_volatile;
use crate::record::Added;
use bit_sets::BitSet;
use finding_kinds::{ConflictKind, Finding, Kind};
use finding_rules::{Written, judged_kind};
use machine::{Setup, State};
use std::alloc::{AllocError, Global};

// Returns for each object the bytes that are not durable.
fn volatile_sets(alloc: Global, setup: &Setup, state: &State) -> Result<Vec<BitSet>, AllocError>
    ensures { IfOk result (λ sets. (o k : ℕ) → o < length setup.now.objects
        → is_marked sets.items o k ≡ is_volatile_at state.now o k) }
{
    let Ok(objects) = u32::try_from(setup.objects.as_slice().len()) else {
        return Err(AllocError);
    };
    let mut sets = Vec::new(alloc);
    for object in 0..objects {
        let mut bytes = BitSet::new(alloc);
        mark_volatile(&mut bytes, state, object)?;
        sets.push(bytes)?;
    }
    Ok(sets)
}

fn judged(sets: &[BitSet], writes: &[Written], finding: Finding) -> Finding
    ensures { result ≡ judged (has_byte_of (is_marked sets.now) writes.now) finding }
{
    Finding {
        moment: finding.moment,
        kind: judged_kind(sets, writes, finding.kind, finding.subject),
        subject: finding.subject,
    }
}

fn judge_all(found: &mut [Finding], sets: &[BitSet], writes: &[Written])
    ensures { found.new ≡ map (judged (has_byte_of (is_marked sets.now) writes.now)) found.old }
{
    for finding in found.iter_mut() {
        *finding = judged(sets, writes, *finding);
    }
}

fn is_early(kind: Kind) -> bool
    ensures { result ≡ is_early kind }
{
    matches!(kind, Kind::Conflict(ConflictKind::FsyncEarly(_)))
}

// Returns whether the end of the run decides the verdict of some finding.
fn has_early(found: &[Finding]) -> bool
    ensures { result ≡ has_early found.now }
{
    found.iter().any(|finding| is_early(finding.kind))
}

// Gives each finding its verdict.
fn judge_by(found: &mut Vec<Finding>, setup: &Setup, state: &State, writes: &[Written]) -> Added
    ensures { OnOk result
        (JudgesBy setup.now state.now writes.now found.old.items found.new.items) }
{
    let sets = volatile_sets(*found.allocator(), setup, state)?;
    judge_all(found, &sets, writes);
    Ok(())
}

/// Gives each finding its verdict, by the state at the end of the run. Costs nothing more if the end
/// decides no verdict.
pub(crate) fn judge(
    found: &mut Vec<Finding>,
    setup: &Setup,
    state: &State,
    writes: &[Written],
) -> Added
    ensures { OnOk result
        (Judges setup.now state.now writes.now found.old.items found.new.items) }
{
    if !has_early(found.as_slice()) {
        return Ok(());
    }
    judge_by(found, setup, state, writes)?;
    Ok(())
}
