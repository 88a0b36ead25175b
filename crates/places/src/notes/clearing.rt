//! Drops recorded old bytes that equal the current ones, when a recorder is closed.
//!
//! A run's bytes stay where they are; a bit per byte in `gone` says that the byte is dropped.
//! `mark` is the number of the bit of a slice's first byte.
ghost use Rattle.std.specs.Prelude.{◌≡◌, ◌≢◌, ◌+◌, ◌-◌, ◌*◌, ◌<◌, ◌≤◌, ◌^◌, ℕ, false, length, Some, slice_get, MatchBool};
ghost use Rattle.places.specs.declared.value.Value.{Value};
ghost use Rattle.places.specs.declared.value.Value.TheVariants.{Byte};
ghost use Rattle.places.specs.Closed.{KeptOf};
ghost use Rattle.places.specs.Masked.{is_kept, marks_from, SameOutside, masked, LeftMark};
ghost use Rattle.places.specs.Runs.{old_bytes, run_changes, run_total, RunsFit};

use crate::notes::marks::drop_mark;
use crate::notes::runs::{Region, Run};
use crate::part::At;
use crate::value::Value;

/// How many bytes are compared before any is looked at singly.
const AT_ONCE: usize = 64;

/// Returns whether a value is the given byte.
fn is_byte(now: Option<Value>, byte: u8) -> bool
    ensures { MatchBool result (now ≡ Some (Byte byte)) (now ≢ Some (Byte byte)) }
{
    match now {
        Some(Value::Byte(n)) => n == byte,
        _ => false,
    }
}

/// Drops each of `olds` that equals the byte of `now` at its index plus `start`. Bytes
/// past the end of `now` stay.
fn clear_alike(olds: &[u8], gone: &mut [u64], mark: usize, start: usize, now: &[u8])
    requires room { mark + length olds.now ≤ 64 * length gone.old }
    requires few { mark + length olds.now < 2 ^ 64 }
    ensures len { length gone.new ≡ length gone.old }
    ensures others { SameOutside gone.old gone.new mark (length olds.now) }
    ensures marks { (i b : ℕ) → slice_get olds.now i ≡ Some b
        → LeftMark (slice_get now.now (start + i)) b (is_kept gone.old (mark + i))
        (is_kept gone.new (mark + i)) }
{
    let from = start.min(now.len());
    let there = &now[from..];
    let n = olds.len().min(there.len());
    if !is_any_alike(olds, there, 0, n) {
        return;
    }
    let mut at = 0;
    while at < n {
        let end = at + AT_ONCE.min(n - at);
        clear_between(olds, there, gone, mark, at, end);
        at = end;
    }
}

/// Drops each of `olds` from index `at` to `end` that equals the byte of `there` at the same index.
fn clear_between(olds: &[u8], there: &[u8], gone: &mut [u64], mark: usize, at: usize, end: usize)
    requires order { at ≤ end }
    requires olds { end ≤ length olds.now }
    requires there { end ≤ length there.now }
    requires room { mark + end ≤ 64 * length gone.old }
    requires few { mark + end < 2 ^ 64 }
    ensures len { length gone.new ≡ length gone.old }
    ensures others { SameOutside gone.old gone.new (mark + at) (end - at) }
    ensures marks { (i b : ℕ) → at ≤ i → i < end → slice_get olds.now i ≡ Some b
        → LeftMark (slice_get there.now i) b (is_kept gone.old (mark + i))
        (is_kept gone.new (mark + i)) }
{
    if !is_any_alike(olds, there, at, end) {
        return;
    }
    for i in at..end {
        if olds[i] == there[i] {
            drop_mark(gone, mark + i);
        }
    }
}

/// Returns whether two slices have an equal byte at the same index between `at` and `end`. It does
/// not stop at the first, so that the compiler can vectorize the loop.
fn is_any_alike(olds: &[u8], there: &[u8], at: usize, end: usize) -> bool
    requires olds { end ≤ length olds.now }
    requires there { end ≤ length there.now }
    ensures { result ≡ false → (i b : ℕ) → at ≤ i → i < end → slice_get olds.now i ≡ Some b
        → slice_get there.now i ≢ Some b }
{
    let mut found = false;
    for i in at..end {
        found |= olds[i] == there[i];
    }
    found
}

/// The same as `clear_alike` for a state that cannot lend its bytes as a
/// slice: reads them one by one.
fn clear_each<A: At>(
    olds: &[u8],
    gone: &mut [u64],
    mark: usize,
    region: Region,
    start: u32,
    whole: &A,
)
    requires room { mark + length olds.now ≤ 64 * length gone.old }
    requires few { mark + length olds.now < 2 ^ 64 }
    requires within { start + length olds.now ≤ 2 ^ 32 }
    ensures len { length gone.new ≡ length gone.old }
    ensures others { SameOutside gone.old gone.new mark (length olds.now) }
    ensures kept { KeptOf (A.seen whole.now)
        (old_bytes region start (masked olds.now (marks_from gone.old mark (length olds.now))))
        (old_bytes region start (masked olds.now (marks_from gone.new mark (length olds.now)))) }
{
    for i in 0..olds.len() {
        if is_byte(whole.at(region.place(start + i as u32)), olds[i]) {
            drop_mark(gone, mark + i);
        }
    }
}

/// Drops the old bytes of one run that equal the current ones.
fn clear_run<A: At>(
    olds: &[u8],
    gone: &mut [u64],
    mark: usize,
    region: Region,
    start: u32,
    whole: &A,
)
    requires room { mark + length olds.now ≤ 64 * length gone.old }
    requires few { mark + length olds.now < 2 ^ 64 }
    requires within { start + length olds.now ≤ 2 ^ 32 }
    ensures len { length gone.new ≡ length gone.old }
    ensures others { SameOutside gone.old gone.new mark (length olds.now) }
    ensures kept { KeptOf (A.seen whole.now)
        (old_bytes region start (masked olds.now (marks_from gone.old mark (length olds.now))))
        (old_bytes region start (masked olds.now (marks_from gone.new mark (length olds.now)))) }
{
    match whole.bytes_in(region) {
        Some(now) => clear_alike(olds, gone, mark, start as usize, now),
        None => clear_each(olds, gone, mark, region, start, whole),
    }
}

/// Drops the old bytes of several runs that equal the current ones. `olds` has the
/// bytes of all runs in order.
pub fn clear_runs<A: At>(runs: &[Run], olds: &[u8], gone: &mut [u64], mark: usize, whole: &A)
    requires room { mark + length olds.now ≤ 64 * length gone.old }
    requires few { mark + length olds.now < 2 ^ 64 }
    requires fits { run_total runs.now ≡ length olds.now }
    requires within { RunsFit runs.now }
    ensures len { length gone.new ≡ length gone.old }
    ensures others { SameOutside gone.old gone.new mark (length olds.now) }
    ensures kept { KeptOf (A.seen whole.now)
        (run_changes runs.now (masked olds.now (marks_from gone.old mark (length olds.now))))
        (run_changes runs.now (masked olds.now (marks_from gone.new mark (length olds.now)))) }
{
    if let Some((run, rest)) = runs.split_first() {
        let (front, back) = olds.split_at(run.len);
        clear_run(front, gone, mark, run.region, run.start, whole);
        clear_runs(rest, back, gone, mark + run.len, whole);
    }
}
