//! The row that a finding is about.

use crate::names::RowName;
use crate::run::Run;
use entries::Row;
use finding_kinds::Finding;

/// What a finding says about a row.
#[derive(Clone, Copy)]
pub(crate) struct About {
    pub number: u32,
    /// The row at the end of the run.
    pub row: Row,
    /// The moment of the finding.
    pub moment: u32,
    /// The index of the finding in the list of all.
    pub index: usize,
}

impl About {
    /// Returns what a finding says about its row, or None if there is no row with that number.
    pub fn new(run: &Run<'_>, finding: &Finding, index: usize) -> Option<About> {
        Some(About {
            number: finding.subject,
            row: run.row(finding.subject)?,
            moment: finding.moment,
            index,
        })
    }

    pub fn name(&self) -> RowName {
        RowName::new(self.number, &self.row)
    }

    /// Returns the result with which the row completed, or 0 if it hasn't.
    pub fn result(&self, run: &Run<'_>) -> i32 {
        run.result(self.number).unwrap_or(0)
    }
}
