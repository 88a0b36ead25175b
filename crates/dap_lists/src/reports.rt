//! The findings up to the position.
ghost use Rattle.std.specs.Prelude.{◌≡◌, IfOk, filter, map};
ghost use Rattle.dap_lists.specs.Listed.{is_shown, report_variable};

use dap_variables::{Variable, bytes_of, plain_variable};
use explanations::Report;
use inverse_log::Walker;
use places::Items;
use std::alloc::{AllocError, Global};

// Returns whether a finding is shown: its event is before the position, or the position is the end.
fn is_shown(walker: &Walker, report: &Report) -> bool
    ensures { result ≡ is_shown walker.now report.now }
{
    let at = walker.at();
    (report.finding.moment as usize) < at || at == walker.len()
}

/// Returns the findings that are shown.
pub(crate) fn shown<'a>(
    alloc: Global,
    walker: &Walker,
    reports: &'a [Report],
) -> Result<Vec<&'a Report>, AllocError>
    ensures { IfOk result (λ list. map (λ r. r.now) list.items
        ≡ filter (is_shown walker.now) reports.now) }
{
    let mut list = Vec::new(alloc);
    for report in reports {
        if is_shown(walker, report) {
            list.push(report)?;
        }
    }
    Ok(list)
}

/// Returns the variable of a finding: the moment of its event, and its sentence.
pub(crate) fn report_variable(alloc: Global, report: &Report) -> Result<Variable, AllocError>
    ensures { IfOk result (λ v. v ≡ report_variable report.now) }
{
    let moment = report.finding.moment;
    let name = format!(in alloc; "at {moment}")?;
    let value = bytes_of(alloc, report.text.as_str())?;
    Ok(plain_variable(Items::from_vec(name.into_bytes()), value))
}
