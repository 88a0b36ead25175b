//! Theorems about the definitions in specs/.
ghost use Rattle.std.specs.Prelude.{◌≡◌, ◌+◌, ◌++◌, ℕ, List, Some, None, length, slice_get};
ghost use Rattle.entries.specs.declared.entry.Sqe.{Sqe};
ghost use Rattle.entries.specs.declared.row.Row.{Row};
ghost use Rattle.model_files.specs.Worlds.{WorldState};
ghost use Rattle.links_drains.specs.Batches.{error_at, rows_of, direct_of};
ghost use Rattle.links_drains.specs.Endings.{result_in, Direct};
ghost use Rattle.links_drains.specs.Links.{Chained};

/// Chains remain contiguous after a batch of requests was added.
pub fn batch_is_chained()
    ensures { (w : WorldState) (rows : List Row) (entries : List Sqe) → Chained rows
        → Chained (rows ++ rows_of w (length rows) entries) }
{}

/// The requests that complete as a batch is submitted are unfinished, and listed by ascending
/// number.
pub fn batch_ends_rows()
    ensures { (w : WorldState) (rows : List Row) (entries : List Sqe)
        → Direct (rows ++ rows_of w (length rows) entries) (direct_of w (length rows) entries) }
{}

/// A request of a batch that does not complete as it is submitted is valid.
pub fn other_rows_pass()
    ensures { (w : WorldState) (first : ℕ) (entries : List Sqe) (i : ℕ) (row : Row)
        → slice_get (rows_of w first entries) i ≡ Some row
        → result_in (direct_of w first entries) (first + i) ≡ None → error_at w entries i ≡ None }
{}
