//! Theorems about the definitions in specs/.
ghost use Rattle.std.specs.Prelude.{◌≡◌, ◌<◌, ℕ, List, true, Some, slice_get};
ghost use Rattle.entries.specs.declared.row.Row.{Row};
ghost use Rattle.links_drains.specs.Phases.{is_unfinished};
ghost use Rattle.links_drains.specs.Endings.{Ending};
ghost use Rattle.timeouts_cancel.specs.Cascades.{fall_of, GuardsFormed, IsWhole};

/// The cascade is complete: to apply its rules again adds no request.
pub fn cascade_is_whole()
    ensures { (rows : List Row) (counted : ℕ) (direct : List Ending) → GuardsFormed rows
        → IsWhole rows counted direct (fall_of rows counted direct) }
{}

/// The requests that complete in a step were unfinished.
pub fn cascade_of_unfinished()
    ensures { (rows : List Row) (counted : ℕ) (direct : List Ending) (i : ℕ) (e : Ending)
        → slice_get (fall_of rows counted direct) i ≡ Some e
        → (row : Row) × (slice_get rows e.0 ≡ Some row) × (is_unfinished row.phase ≡ true) }
{}

/// They are listed by ascending number, each once.
pub fn cascade_rises()
    ensures { (rows : List Row) (counted : ℕ) (direct : List Ending) (i j : ℕ) (p q : Ending)
        → slice_get (fall_of rows counted direct) i ≡ Some p
        → slice_get (fall_of rows counted direct) j ≡ Some q → i < j → p.0 < q.0 }
{}
