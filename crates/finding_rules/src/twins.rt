//! Requests with the same user_data, whose completions can't be told apart.
ghost use Rattle.std.specs.Prelude.{◌≡◌, ◌==◌, false, slice_get};
ghost use Rattle.finding_rules.specs.{option_map_or, Row, has_twin};

use crate::requests::row_at;
use entries::Row;
use finding_kinds::LOOKED_BACK;
use machine::State;

fn has_user_data(state: &State, number: u32, user_data: u64) -> bool
    ensures { result ≡ option_map_or (λ (row : Row). row.entry.user_data == user_data)
        (slice_get state.now.table number) false }
{
    matches!(row_at(state, number), Some(row) if row.entry.user_data == user_data)
}

/// Returns whether one of the 32 requests before this one is incomplete and has its user_data.
/// False if that is 0, the value of entries that give none.
pub(crate) fn has_twin(state: &State, number: u32, row: &Row) -> bool
    ensures { result ≡ has_twin state.now.table number row.now }
{
    if row.entry.user_data == 0 {
        return false;
    }
    let mut from = number.saturating_sub(LOOKED_BACK);
    while let Some(other) = state.next_unfinished(from) {
        if other >= number {
            return false;
        }
        if has_user_data(state, other, row.entry.user_data) {
            return true;
        }
        from = other + 1;
    }
    false
}
