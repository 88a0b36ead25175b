//! Merges sorted lists of completions.
ghost use Rattle.std.specs.Prelude.{◌≡◌, ◌+◌, ◌≤◌, ℕ, ℤ, Option, IfOk, IfSome, IfNone, length};
ghost use Rattle.entries.specs.declared.row.Row.{Row};
ghost use Rattle.links_drains.specs.Endings.{Direct, endings, result_in};
ghost use Rattle.timeouts_cancel.specs.Cascades.{joined};
ghost use Rattle.timeouts_cancel.specs.Merges.{IsLeast, Rises, Splits};

use links_drains::Table;
use std::alloc::AllocError;

/// Merges two lists of completions, sorted by request number. For a request in both, the result in
/// `first` counts. Doesn't allocate if `others` is empty.
#[tactic(auto, using(crate::proofs::Listed::direct_endings))]
pub(crate) fn add(
    table: &Table,
    first: Vec<(u32, i32)>,
    others: &[(u32, i32)],
) -> Result<Vec<(u32, i32)>, AllocError>
    requires first { (f : ℕ → Row → Option ℤ) × (first.items ≡ endings f table.now) }
    requires others { Direct table.now others.now }
    ensures { IfOk result (λ all. all.items
        ≡ joined table.now (λ r row. result_in others.now r) first.items) }
{
    if others.is_empty() {
        return Ok(first);
    }
    merge(table, &first, others)
}

// Merges two sorted lists.
fn merge(
    table: &Table,
    first: &[(u32, i32)],
    second: &[(u32, i32)],
) -> Result<Vec<(u32, i32)>, AllocError>
    requires first { Direct table.now first.now }
    requires second { Direct table.now second.now }
    ensures { IfOk result (λ all. all.items
        ≡ joined table.now (λ r row. result_in second.now r) first.now) }
{
    let mut all = Vec::new(table.allocator());
    let mut i = 0;
    let mut j = 0;
    while let Some((r, res)) = least(first, second, i, j) {
        all.push((r, res))?;
        i = past(first, i, r);
        j = past(second, j, r);
    }
    Ok(all)
}

// The next completion of two lists, from index i of the first and j of the second. If both are for
// the same request, the first list's.
fn least(first: &[(u32, i32)], second: &[(u32, i32)], i: usize, j: usize) -> Option<(u32, i32)>
    ensures some { IfSome result (λ e. IsLeast first.now second.now i j e) }
    ensures none { IfNone result ((length first.now ≤ i) × (length second.now ≤ j)) }
{
    if i >= first.len() {
        return second.get(j).copied();
    }
    if j < second.len() && second[j].0 < first[i].0 {
        return Some(second[j]);
    }
    Some(first[i])
}

// The index after `at`, if the completion there is for request r; else `at`.
fn past(list: &[(u32, i32)], at: usize, r: u32) -> usize
    requires rises { Rises list.now }
    requires splits { Splits list.now r at }
    ensures splits { Splits list.now (r + 1) result }
    ensures on { at ≤ result }
{
    if at < list.len() && list[at].0 == r {
        at + 1
    } else {
        at
    }
}
