//! Receipts, which actors receive for their events.

use scenario::Event;

/// The receipt of an event: who made it, and its moment, the number of events before it.
#[derive(Clone, Copy, PartialEq, Eq)]
pub struct Receipt {
    pub actor: u32,
    pub moment: u32,
    pub event: Event,
}
