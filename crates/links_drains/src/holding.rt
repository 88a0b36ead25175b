//! Counts, for each descriptor, how many issued requests hold it.
ghost use Rattle.std.specs.Prelude.{◌≡◌, ℕ, ◌+◌, ◌-◌, ◌<◌, ◌≤◌, ◌^◌, true, drop, if◌then◌else◌};
ghost use Rattle.model_files.specs.Holders.{holders};
ghost use Rattle.links_drains.specs.Holding.{holds, holders_of};

use crate::table::Rows;
use entries::{Phase, Row};
use model_files::Held;

/// Counts the descriptor that the request holds, if any.
pub(crate) fn count(held: &mut Held, row: &Row)
    requires { (fd : ℕ) → holders held.old fd < 2 ^ 32 - 1 }
    ensures { (fd : ℕ) → holders held.new fd
        ≡ holders held.old fd + (if holds fd row.now then 1 else 0) }
{
    if let (Phase::Issued, Some(fd)) = (row.phase, row.held) {
        held.add(fd);
    }
}

/// Removes the request's descriptor, if any, from the counts.
pub(crate) fn take_off(held: &mut Held, row: &Row)
    requires { (fd : ℕ) → holds fd row.now ≡ true → 0 < holders held.old fd }
    ensures { (fd : ℕ) → holders held.old fd
        ≡ holders held.new fd + (if holds fd row.now then 1 else 0) }
{
    if let (Phase::Issued, Some(fd)) = (row.phase, row.held) {
        held.remove(fd);
    }
}

/// Removes the descriptors of the requests from number n on from the counts.
pub(crate) fn take_all_off(held: &mut Held, rows: &Rows, n: usize)
    requires { (fd : ℕ) → holders_of (drop n rows.now) fd ≤ holders held.old fd }
    ensures { (fd : ℕ) → holders held.old fd
        ≡ holders held.new fd + holders_of (drop n rows.now) fd }
{
    for r in n..rows.len() {
        take_off(held, &rows[r]);
    }
}
