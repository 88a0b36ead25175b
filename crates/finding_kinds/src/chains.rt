//! The next request after a given one in the submission order.
ghost use Rattle.std.specs.Prelude.{◌≡◌};
ghost use Rattle.finding_kinds.specs.Chains.{distance_to_next};

use links_drains::is_guard;
use machine::State;

/// Returns how far the next request is after request `number`: 2 if that request's linked timeout
/// (IORING_OP_LINK_TIMEOUT) is between them, else 1.
pub fn distance_to_next(state: &State, number: u32) -> u32
    ensures { result ≡ distance_to_next state.now.table number }
{
    let _row = state.row(number);
    let next_number = match number.checked_add(1) {
        Some(next) => state.row(next),
        None => None,
    };
    match next_number {
        Some(row) if is_guard(&row) => 2,
        _ => 1,
    }
}
