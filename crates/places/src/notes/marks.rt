//! A bit set of dropped bytes: bit i of `gone` is set if old byte i is dropped. Words past its end
//! count as zeros, so notes without dropped bytes need none.
ghost use Rattle.std.specs.Prelude.{◌≡◌, ℕ, ◌-◌, ◌*◌, ◌<◌, ◌≤◌, ◌==◌, ◌++◌, false, not, length, replicate, OnOk, OnErr, if◌then◌else◌};
ghost use Rattle.std.specs.List.{list_any};
ghost use Rattle.places.specs.Masked.{is_kept, marks_from};

use std::alloc::AllocError;

/// Bits per word.
const BITS: usize = 64;

/// Returns whether byte i is still recorded.
pub fn is_kept(gone: &[u64], i: usize) -> bool
    ensures { result ≡ is_kept gone.now i }
{
    match gone.get(i / BITS) {
        Some(word) => *word & (1 << (i % BITS)) == 0,
        None => true,
    }
}

/// Returns whether any of the first `len` bytes is still recorded.
pub fn is_any_kept(gone: &[u64], len: usize) -> bool
    ensures { result ≡ list_any (λ k. k) (marks_from gone.now 0 len) }
{
    for i in 0..len {
        if is_kept(gone, i) {
            return true;
        }
    }
    false
}

/// Drops byte i, for which there must be a word.
pub fn drop_mark(gone: &mut [u64], i: usize)
    requires { i < 64 * length gone.old }
    ensures len { length gone.new ≡ length gone.old }
    ensures kept { (q : ℕ) → is_kept gone.new q ≡ (if q == i then false else is_kept gone.old q) }
{
    let word = gone[i / BITS] | 1 << (i % BITS);
    gone[i / BITS] = word;
}

/// Allocates the words for `len` bytes, which are not dropped. If it fails, the set is unchanged.
pub fn make_room(gone: &mut Vec<u64>, len: usize) -> Result<(), AllocError>
    ensures kept { (q : ℕ) → is_kept gone.new.items q ≡ is_kept gone.old.items q }
    ensures longer { length gone.old.items ≤ length gone.new.items }
    ensures room { OnOk result (len ≤ 64 * length gone.new.items) }
    ensures err { OnErr result (gone.new.items ≡ gone.old.items) }
{
    let words = len / BITS + 1;
    if gone.len() < words {
        lengthen(gone, words)?;
    }
    Ok(())
}

/// Appends zero words up to a length.
fn lengthen(words: &mut Vec<u64>, len: usize) -> Result<(), AllocError>
    requires { length words.old.items ≤ len }
    ensures ok { OnOk result (words.new.items
        ≡ words.old.items ++ replicate (len - length words.old.items) 0) }
    ensures err { OnErr result (words.new.items ≡ words.old.items) }
{
    words.resize(len, 0)
}

/// Frees the words if no byte is dropped.
pub fn trim(gone: &mut Vec<u64>)
    ensures { (q : ℕ) → is_kept gone.new.items q ≡ is_kept gone.old.items q }
{
    if !is_any_set(gone) {
        gone.clear();
    }
    gone.shrink_to_fit();
}

fn is_any_set(words: &[u64]) -> bool
    ensures { result ≡ list_any (λ w. not (w == 0)) words.now }
{
    words.iter().any(|word| *word != 0)
}
