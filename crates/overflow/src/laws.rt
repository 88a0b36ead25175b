//! Theorems about the definitions: posting and flushing lose no completion and preserve the order.
#![tactic(auto, using(crate::proofs::KeptInOrder::laws))]

ghost use Rattle.std.specs.Prelude.{◌≡◌, ◌+◌, ◌++◌, not, min, length, true, false, List};
ghost use Rattle.entries.specs.declared.completion.Cqe.{Cqe};
ghost use Rattle.ring_words.specs.declared.flag.RingFlag.TheVariants.{CqOverflow};
ghost use Rattle.ring_words.specs.Rings.{com_list, has_flag};
ghost use Rattle.overflow.specs.Backlogs.{kept, is_clear, Delivery, DeliveryFormed, all_posted, flushed};

/// Posting appends the list to the sequence of the ring's and the pending completions.
pub fn posted_in_row()
    ensures { (d : Delivery) (cs : List Cqe) → DeliveryFormed d
        → com_list (all_posted d cs).completions ++ kept (all_posted d cs).backlog
        ≡ (com_list d.completions ++ kept d.backlog) ++ cs }
{}

/// While a completion is pending, posting leaves the ring unchanged.
pub fn posted_after_backlog()
    ensures { (d : Delivery) (cs : List Cqe) → is_clear d.backlog ≡ false
        → com_list (all_posted d cs).completions ≡ com_list d.completions }
{}

/// If none is pending, as many completions go into the ring as fit.
pub fn posted_into_ring()
    ensures { (d : Delivery) (cs : List Cqe) → DeliveryFormed d → is_clear d.backlog ≡ true
        → length (com_list (all_posted d cs).completions)
        ≡ min (length (com_list d.completions) + length cs) (length d.completions.slots) }
{}

/// After posting, IORING_SQ_CQ_OVERFLOW is set if and only if a completion is pending.
pub fn posted_flag()
    ensures { (d : Delivery) (cs : List Cqe)
        → has_flag (all_posted d cs).submissions.flags CqOverflow
        ≡ not (is_clear (all_posted d cs).backlog) }
{}

/// Posting preserves the invariant.
pub fn posted_formed()
    ensures { (d : Delivery) (cs : List Cqe) → DeliveryFormed d → DeliveryFormed (all_posted d cs) }
{}

/// A flush preserves the sequence of the ring's and the pending completions.
pub fn flushed_in_row()
    ensures { (d : Delivery) → DeliveryFormed d
        → com_list (flushed d).completions ++ kept (flushed d).backlog ≡ com_list d.completions
        ++ kept d.backlog }
{}

/// A flush moves as many completions into the ring as fit.
pub fn flushed_into_ring()
    ensures { (d : Delivery) → DeliveryFormed d
        → length (com_list (flushed d).completions)
        ≡ min (length (com_list d.completions) + length (kept d.backlog))
        (length d.completions.slots) }
{}

/// After a flush, IORING_SQ_CQ_OVERFLOW is set if and only if a completion is pending.
pub fn flushed_flag()
    ensures { (d : Delivery)
        → has_flag (flushed d).submissions.flags CqOverflow ≡ not (is_clear (flushed d).backlog) }
{}

/// A flush preserves the invariant.
pub fn flushed_formed()
    ensures { (d : Delivery) → DeliveryFormed d → DeliveryFormed (flushed d) }
{}
