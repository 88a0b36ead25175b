//! Tests of a request's link and drain flags, and of its phase (io_uring_enter(2)).
ghost use Rattle.std.specs.Prelude.{◌≡◌};
ghost use Rattle.links_drains.specs.Counts.{has_count, is_count_timeout, threshold_of};
ghost use Rattle.links_drains.specs.Links.{is_soft_linked, is_linked, is_guard, has_drain_flag};
ghost use Rattle.links_drains.specs.Phases.{is_issued, is_queued, is_unfinished};

use bit_sets::thresholds::NEVER;
use entries::{IOSQE_IO_DRAIN, IOSQE_IO_HARDLINK, IOSQE_IO_LINK, Phase, Row, Sqe};
use opcodes::Op;

/// Returns whether a failure of the request severs the rest of its chain: it has IOSQE_IO_LINK and
/// not IOSQE_IO_HARDLINK.
pub fn is_soft_linked(row: &Row) -> bool
    ensures { result ≡ is_soft_linked row.now }
{
    row.entry.flags & IOSQE_IO_LINK != 0 && !(row.entry.flags & IOSQE_IO_HARDLINK != 0)
}

/// Returns whether the next entry belongs to the same chain.
pub(crate) fn is_linked(entry: &Sqe) -> bool
    ensures { result ≡ is_linked entry.now }
{
    entry.flags & IOSQE_IO_LINK != 0 || entry.flags & IOSQE_IO_HARDLINK != 0
}

/// Returns whether the request has IOSQE_IO_DRAIN.
pub(crate) fn has_drain_flag(row: &Row) -> bool
    ensures { result ≡ has_drain_flag row.now }
{
    row.entry.flags & IOSQE_IO_DRAIN != 0
}

/// Returns whether the request is a linked timeout (LINK_TIMEOUT).
pub fn is_guard(row: &Row) -> bool
    ensures { result ≡ is_guard row.now }
{
    row.entry.opcode == Op::LinkTimeout as u8
}

pub(crate) fn is_queued(row: &Row) -> bool
    ensures { result ≡ is_queued row.now.phase }
{
    matches!(row.phase, Phase::Queued)
}

/// Returns whether the request was issued and has not completed.
pub fn is_issued(row: &Row) -> bool
    ensures { result ≡ is_issued row.now.phase }
{
    matches!(row.phase, Phase::Issued)
}

/// Returns whether the request is a TIMEOUT with a number of completions to wait for.
pub(crate) fn has_count(row: &Row) -> bool
    ensures { result ≡ has_count row.now }
{
    row.entry.opcode == Op::Timeout as u8 && 0 < row.entry.off
}

/// Returns whether the request is an issued TIMEOUT that waits for a number of completions.
pub(crate) fn is_count_timeout(row: &Row) -> bool
    ensures { result ≡ is_count_timeout row.now }
{
    is_issued(row) && has_count(row)
}

/// Returns whether the request has not completed.
pub fn is_unfinished(row: &Row) -> bool
    ensures { result ≡ is_unfinished row.now.phase }
{
    !matches!(row.phase, Phase::Ended(_))
}

/// Returns the total of counted completions at which an issued TIMEOUT completes: the total when it
/// was issued plus the count that it waits for. `NEVER` for all other requests.
pub(crate) fn threshold_of(row: &Row) -> u32
    ensures { result ≡ threshold_of row.now }
{
    if !is_count_timeout(row) || row.entry.off >= u64::from(NEVER) {
        return NEVER;
    }
    row.base.saturating_add(row.entry.off as u32)
}
