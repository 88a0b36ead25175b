//! Lists the findings of a run with their sentences, for other crates to present.
ghost use Rattle.std.specs.Prelude.{◌≡◌, ◌∷◌, ◌++◌, [], All, IfOk, IfSome, OnOk};
ghost use Rattle.explanations.specs.ReportLists.{HasSubject, findings_in};
ghost use Rattle.explanations.specs.Subjects.{lasts};

use crate::subjects::{Subject, lasts, subject_of};
use finding_kinds::{Finding, Kind};
use sentences::{Run, ThreadStep, sentence};
use std::alloc::{AllocError, Global};

/// A finding, what it points at, and its sentences.
#[derive(Drop)]
pub struct Report {
    pub finding: Finding,
    pub subject: Subject,
    pub text: String,
}

impl Report {
    /// Returns whether the finding is a condition that lasts to the end. The event at its moment
    /// has nothing to do with it.
    pub fn lasts(&self) -> bool
        ensures { result ≡ lasts self.now.finding.kind }
    {
        lasts(self.finding.kind)
    }

    /// Returns the instruction that the finding points at, if no event at its moment shows it: it
    /// is a condition that lasts to the end, or is left there.
    pub fn instruction(&self) -> Option<ThreadStep>
        ensures { IfSome result (λ step. self.now.subject ≡ Subject.Instruction step) }
    {
        match (self.finding.kind, self.subject) {
            (Kind::Lasting(_) | Kind::Left(_), Subject::Instruction(step)) => Some(step),
            _ => None,
        }
    }
}

// Appends a finding with its sentences.
fn add_report(
    alloc: Global,
    reports: &mut Vec<Report>,
    run: &Run<'_>,
    index: usize,
    finding: Finding,
) -> Result<(), AllocError>
    ensures listed { OnOk result (findings_in reports.new.items
        ≡ findings_in reports.old.items ++ finding ∷ []) }
    ensures subjects { OnOk result (All HasSubject reports.old.items
        → All HasSubject reports.new.items) }
{
    let text = sentence(alloc, run, index)?;
    let subject = subject_of(run, &finding);
    reports.push(Report {
        finding,
        subject,
        text,
    })?;
    Ok(())
}

/// Returns the findings of a run with their sentences, in order.
pub fn reports_of(alloc: Global, run: &Run<'_>) -> Result<Vec<Report>, AllocError>
    ensures listed { IfOk result (λ reports. findings_in reports.items ≡ run.now.found.now) }
    ensures subjects { IfOk result (λ reports. All HasSubject reports.items) }
{
    let mut reports = Vec::new(alloc);
    for (index, finding) in run.found.iter().enumerate() {
        add_report(alloc, &mut reports, run, index, *finding)?;
    }
    Ok(reports)
}
