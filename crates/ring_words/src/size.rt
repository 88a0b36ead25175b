//! Sizes of rings (io_uring_setup(2)).
ghost use Rattle.std.specs.Prelude.{◌≡◌, ◌<◌, ◌≤◌};
ghost use Rattle.std.specs.Int.{IsNextPowerOfTwo};
ghost use Rattle.ring_words.specs.Rings.{rounded};

/// Returns the smallest power of two that is at least `entries`.
#[tactic(auto, using(crate::proofs::Sizes::next_is_one, crate::proofs::Sizes::rounded_next))]
pub(crate) fn size_for(entries: u32) -> usize
    requires some { 0 < entries }
    requires most { entries ≤ 8192 }
    ensures value { result ≡ rounded entries }
    ensures power { IsNextPowerOfTwo entries result }
{
    entries.next_power_of_two() as usize
}
