//! The rest of a chain after one of its requests (io_uring_enter(2), IOSQE_IO_LINK).
ghost use Rattle.std.specs.Prelude.{◌≡◌, ◌≤◌, IfOk, length};
ghost use Rattle.links_drains.specs.Links.{Chained};
ghost use Rattle.links_drains.specs.Units.{rest_of};

use crate::links::is_unfinished;
use crate::table::Rows;
use std::alloc::{AllocError, Global};

/// Returns the later requests of r's chain that have not completed, by ascending number.
pub(crate) fn rest_in(alloc: Global, rows: &Rows, r: usize) -> Result<Vec<u32>, AllocError>
    requires chained { Chained rows.now }
    requires few { length rows.now ≤ 65536 }
    ensures { IfOk result (λ rest. rest.items ≡ rest_of rows.now r) }
{
    let mut rest = Vec::new(alloc);
    if r >= rows.len() {
        return Ok(rest);
    }
    let unit = rows[r].unit;
    for k in r + 1..rows.len() {
        let other = &rows[k];
        if other.unit != unit {
            return Ok(rest);
        }
        if is_unfinished(other) {
            rest.push(k as u32)?;
        }
    }
    Ok(rest)
}
