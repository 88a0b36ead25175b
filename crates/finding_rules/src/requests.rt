//! The requests of a state, by number.
ghost use Rattle.std.specs.Prelude.{◌≡◌, ◌<◌, ◌≤◌, IfSome, length, slice_get};
ghost use Rattle.finding_rules.specs.{WellFormed};

use entries::Row;
use machine::State;

/// Returns a request, or None past the end of the table.
pub fn row_at(state: &State, number: u32) -> Option<Row>
    ensures row { result ≡ slice_get state.now.table number }
    ensures formed { WellFormed state.now }
    ensures few { length state.now.table ≤ 65536 }
    ensures below { IfSome result (λ row. number < 65536) }
{
    state.row(number)
}
