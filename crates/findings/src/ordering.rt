//! Sorting findings and removing duplicates.
ghost use Rattle.findings.specs.{Rises, SameFindings};

use finding_kinds::Finding;

/// Sorts findings and removes duplicates.
pub(crate) fn in_order(found: Vec<Finding>) -> Vec<Finding>
    ensures rises { Rises result.items }
    ensures same { SameFindings found.items result.items }
{
    let mut list = found;
    list.sort_unstable();
    list.dedup();
    list
}
