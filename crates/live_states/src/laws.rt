//! Proved facts about receipts and offers.
ghost use Rattle.std.specs.Prelude.{◌≡◌, ℕ, Some, List, map, slice_get};
ghost use Rattle.std.specs.List.Sorted.{IsStrictlyIncreasing};
ghost use Rattle.live_states.specs.History.{Past, Whole};
ghost use Rattle.live_states.specs.Received.{IsOf};
ghost use Rattle.live_states.specs.Receipts.{IsReceiptOf};
ghost use Rattle.live_states.specs.declared.receipt.Receipt.{Receipt};

pub use live_rules::laws::{
    due_rows_expired, eligible_rows_issued, issued_rows_finished, least_deadline_offered,
    least_rows_offered, offers_accepted, offers_own,
};

/// In a closed run, the moments of an actor's receipts increase strictly.
pub fn moments_rise()
    ensures { (c : Past) (a : ℕ) (receipts : List Receipt) → Whole c
        → slice_get c.receipts a ≡ Some receipts
        → IsStrictlyIncreasing (map (λ (r : Receipt). r.moment) receipts) }
{}

/// In a closed run, no two receipts have the same moment, even if different actors hold them.
pub fn moments_differ()
    ensures { (c : Past) (a b : ℕ) (r s : Receipt) → Whole c → IsReceiptOf c a r → IsReceiptOf c b s
        → r.moment ≡ s.moment → (a ≡ b) × (r ≡ s) }
{}

/// In a closed run, each receipt names an event of the trace, its moment and its actor.
pub fn receipts_redeem()
    ensures { (c : Past) (a : ℕ) (r : Receipt) → Whole c → IsReceiptOf c a r
        → IsOf c.owners c.events r }
{}
