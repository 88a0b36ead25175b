//! Posting of completions to the ring or, if they don't fit, to the backlog.
ghost use Rattle.std.specs.Prelude.{◌≡◌, ◌+◌, ◌<◌, ◌≤◌, ◌++◌, not, length, min, true, false, None, OnOk, OnErr};
ghost use Rattle.places.specs.View.{Keeps, named};
ghost use Rattle.places.specs.declared.place.Place.{Place};
ghost use Rattle.ring_words.specs.declared.flag.RingFlag.TheVariants.{CqOverflow};
ghost use Rattle.ring_words.specs.Rings.{waiting, com_list, com_owns, com_seen, sub_owns, sub_seen, has_flag, ComFormed};
ghost use Rattle.overflow.specs.Backlogs.{kept, is_clear, free_slots, fits, flagged, posted_in_order, delivery_of, delivery_owns, delivery_seen, all_posted, flushed};

use crate::backlog::Backlog;
use entries::Cqe;
use places::{Place, Recorder};
use ring_words::{ComRing, RingFlag, SubRing};
use std::alloc::AllocError;

/// Posts completions: into the ring while it has room and nothing is pending in the backlog, the
/// rest into the backlog. If an allocation fails, the three parts are unchanged.
pub fn post_all(
    submissions: &mut SubRing,
    completions: &mut ComRing,
    backlog: &mut Backlog,
    list: &[Cqe],
    notes: &mut Recorder,
) -> Result<(), AllocError>
    requires waits { waiting completions.old.head completions.old.tail
        ≤ length completions.old.slots }
    requires front { backlog.old.front ≤ length backlog.old.items }
    requires room { length backlog.old.items + length list.now ≤ 65536 }
    ensures ok { OnOk result (delivery_of submissions.new completions.new backlog.new
        ≡ all_posted (delivery_of submissions.old completions.old backlog.old) list.now) }
    ensures err { OnErr result (delivery_of submissions.new completions.new backlog.new
        ≡ delivery_of submissions.old completions.old backlog.old) }

    // No completion is lost, and none overtakes a pending one.
    ensures in_order { OnOk result (com_list completions.new ++ kept backlog.new
        ≡ (com_list completions.old ++ kept backlog.old) ++ list.now) }
    ensures after_backlog { OnOk result (is_clear backlog.old ≡ false
        → com_list completions.new ≡ com_list completions.old) }
    ensures into_ring { OnOk result (is_clear backlog.old ≡ true
        → length (com_list completions.new)
        ≡ min (length (com_list completions.old) + length list.now)
        (length completions.old.slots)) }
    ensures flag { OnOk result (has_flag submissions.new.flags CqOverflow
        ≡ not (is_clear backlog.new)) }

    ensures words { submissions.new ≡ record submissions.old { flags = submissions.new.flags } }
    ensures slots { length completions.new.slots ≡ length completions.old.slots }
    ensures still_waits { waiting completions.new.head completions.new.tail
        ≤ length completions.new.slots }
    ensures still_front { backlog.new.front ≤ length backlog.new.items }
    ensures items { length backlog.old.items ≤ length backlog.new.items }
    ensures at_most { length backlog.new.items ≤ length backlog.old.items + length list.now }
    ensures keeps { Keeps delivery_owns
        (delivery_seen (delivery_of submissions.old completions.old backlog.old))
        (delivery_seen
        (delivery_of submissions.new completions.new backlog.new)) notes.old.made notes.new.made }
    ensures named { (p : Place) → named notes.new.made p ≡ None → named notes.old.made p ≡ None }
{
    let now = fits(completions, backlog, list.len());
    notes.room_for_numbers(now + 1)?;
    notes.room_for_completions(now)?;
    backlog.add(&list[now..], notes)?;
    post_in_order(completions, &list[..now], notes);
    flag(submissions, backlog, notes);
    Ok(())
}

/// Moves the first pending completions from the backlog into the ring, while there is room. If an
/// allocation fails, the three parts are unchanged.
pub fn flush(
    submissions: &mut SubRing,
    completions: &mut ComRing,
    backlog: &mut Backlog,
    notes: &mut Recorder,
) -> Result<(), AllocError>
    requires waits { waiting completions.old.head completions.old.tail
        ≤ length completions.old.slots }
    requires front { backlog.old.front ≤ length backlog.old.items }
    requires most { length backlog.old.items ≤ 65536 }
    ensures ok { OnOk result (delivery_of submissions.new completions.new backlog.new
        ≡ flushed (delivery_of submissions.old completions.old backlog.old)) }
    ensures err { OnErr result (delivery_of submissions.new completions.new backlog.new
        ≡ delivery_of submissions.old completions.old backlog.old) }

    // No completion is lost, and their order is preserved.
    ensures in_order { OnOk result (com_list completions.new ++ kept backlog.new
        ≡ com_list completions.old ++ kept backlog.old) }
    ensures into_ring { OnOk result (length (com_list completions.new)
        ≡ min (length (com_list completions.old) + length (kept backlog.old))
        (length completions.old.slots)) }
    ensures flag { OnOk result (has_flag submissions.new.flags CqOverflow
        ≡ not (is_clear backlog.new)) }

    ensures words { submissions.new ≡ record submissions.old { flags = submissions.new.flags } }
    ensures slots { length completions.new.slots ≡ length completions.old.slots }
    ensures still_waits { waiting completions.new.head completions.new.tail
        ≤ length completions.new.slots }
    ensures still_front { backlog.new.front ≤ length backlog.new.items }
    ensures items { backlog.new.items ≡ backlog.old.items }
    ensures keeps { Keeps delivery_owns
        (delivery_seen (delivery_of submissions.old completions.old backlog.old))
        (delivery_seen
        (delivery_of submissions.new completions.new backlog.new)) notes.old.made notes.new.made }
    ensures named { (p : Place) → named notes.new.made p ≡ None → named notes.old.made p ≡ None }
{
    let count = backlog.kept().min(free_slots(completions));
    notes.room_for_numbers(count + 2)?;
    notes.room_for_completions(count)?;
    post_in_order(completions, backlog.first(count), notes);
    backlog.pass(count as u32, notes);
    flag(submissions, backlog, notes);
    Ok(())
}

/// Returns how many more completions fit into the ring.
fn free_slots(completions: &ComRing) -> usize
    requires { waiting completions.now.head completions.now.tail ≤ length completions.now.slots }
    ensures value { result ≡ free_slots completions.now }
    ensures formed { ComFormed completions.now }
{
    (completions.size() - completions.waiting()) as usize
}

/// Returns how many of `count` new completions go into the ring.
fn fits(completions: &ComRing, backlog: &Backlog, count: usize) -> usize
    requires { waiting completions.now.head completions.now.tail ≤ length completions.now.slots }
    ensures value { result ≡ fits completions.now backlog.now count }
    ensures formed { ComFormed completions.now }
{
    let free = free_slots(completions);
    if backlog.is_empty() {
        count.min(free)
    } else {
        0
    }
}

/// Posts completions that all fit into the ring.
fn post_in_order(completions: &mut ComRing, list: &[Cqe], notes: &mut Recorder)
    requires formed { ComFormed completions.old }
    requires free { waiting completions.old.head completions.old.tail + length list.now
        ≤ length completions.old.slots }
    requires numbers { length list.now ≤ notes.old.numbers }
    requires places { length list.now ≤ notes.old.completions }
    ensures next { completions.new ≡ posted_in_order completions.old list.now }
    ensures keeps { Keeps com_owns (com_seen completions.old)
        (com_seen completions.new) notes.old.made notes.new.made }
    ensures named { (p : Place) → named notes.new.made p ≡ None → named notes.old.made p ≡ None }
    ensures spends { notes.old.numbers ≤ notes.new.numbers + length list.now }
{
    for completion in list {
        completions.post(*completion, notes);
    }
}

/// Sets IORING_SQ_CQ_OVERFLOW if a completion is pending, and clears it if none is.
fn flag(submissions: &mut SubRing, backlog: &Backlog, notes: &mut Recorder)
    requires { 0 < notes.old.numbers }
    ensures next { submissions.new ≡ flagged submissions.old backlog.now }
    ensures keeps { Keeps sub_owns (sub_seen submissions.old)
        (sub_seen submissions.new) notes.old.made notes.new.made }
    ensures named { (p : Place) → named notes.new.made p ≡ None → named notes.old.made p ≡ None }
{
    let kept = !backlog.is_empty();
    submissions.set_flag(RingFlag::CqOverflow, kept, notes);
}
