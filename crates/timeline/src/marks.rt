//! Selects the findings that a picture marks.

use crate::parts::FindingPart;
use explanations::Report;
use std::alloc::{AllocError, Global};

// Returns whether a finding is in a part of a run of `count` events: at one of its events, or at
// the end of the run if the part ends there.
fn is_within(moment: u32, from: u32, to: u32, count: u32) -> bool {
    from <= moment && (moment < to || moment == to && to == count)
}

fn finding_part(report: &Report) -> Result<FindingPart, AllocError> {
    let kind = report.finding.kind;
    Ok(FindingPart {
        moment: report.finding.moment,
        kind: kind.word(),
        fault: kind.is_fault(),
        since: report.lasts(),
        text: report.text.clone()?,
    })
}

/// Returns the findings in a part of a run of `count` events.
pub(crate) fn finding_parts(
    alloc: Global,
    findings: &[Report],
    from: u32,
    to: u32,
    count: u32,
) -> Result<Vec<FindingPart>, AllocError> {
    let mut parts = Vec::new(alloc);
    for report in findings {
        if is_within(report.finding.moment, from, to, count) {
            parts.push(finding_part(report)?)?;
        }
    }
    Ok(parts)
}

/// Returns the kinds of the findings about the event at a moment.
pub(crate) fn kinds_at(
    alloc: Global,
    findings: &[FindingPart],
    moment: u32,
) -> Result<Vec<&'static str>, AllocError> {
    let mut kinds = Vec::new(alloc);
    for finding in findings {
        if finding.moment == moment && !finding.since {
            kinds.push(finding.kind)?;
        }
    }
    Ok(kinds)
}
