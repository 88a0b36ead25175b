//! The random numbers of a run.
ghost use Rattle.std.specs.Prelude.{◌≡◌, ◌<◌};
ghost use Rattle.sampling.specs.Draws.{key_of, finalized, draw, mixed, below, short_tenths, eio_tenths, source_of};

use rand_chacha::ChaCha8Rng;
use rand_core::SeedableRng;
use rand_core::utils::NextWord;

/// What a random run may do.
#[derive(Clone, Copy)]
pub struct SampleOptions {
    /// Whether threads may interleave between another thread's put, push and enter. Otherwise a
    /// thread that has put or pushed runs alone until its next Enter, as if it held a lock.
    pub unlocked: bool,
    /// Whether no transfer is short, and no device fails.
    pub sound_device: bool,
    /// Whether requests may be issued later than by their submission, which a kernel doesn't do.
    pub late: bool,
    /// The greatest number of events, 1 to 65,536.
    pub most: u32,
}

/// What a run draws from.
#[derive(Clone, Copy)]
pub(crate) struct Source {
    pub(crate) key: u64,
    /// How many transfers in ten are short.
    pub(crate) short_tenths: u32,
    /// How many requests in ten fail with EIO.
    pub(crate) eio_tenths: u32,
    pub(crate) unlocked: bool,
    pub(crate) late: bool,
}

/// How often transfers are short in a run, in tenths. A run draws one of these.
const SHORT_TENTHS: [u32; 4] = [0, 0, 1, 5];

/// How often the device fails in a run, in tenths.
const EIO_TENTHS: [u32; 4] = [0, 0, 1, 3];

/// The number of the draws of rates. No actor has it.
const RATES: u64 = 1 << 20;

/// The increment of SplitMix64.
const GOLDEN_GAMMA: u64 = 0x9e37_79b9_7f4a_7c15;

/// Returns what run `number` of a seed draws from.
pub(crate) fn source_of(options: SampleOptions, seed: u64, number: u32) -> Source
    ensures { result ≡ source_of options seed number }
{
    let key = key_of(seed, number);
    Source {
        key,
        short_tenths: if options.sound_device {
            0
        } else {
            SHORT_TENTHS[below(4, mixed(key, RATES, 0)) as usize]
        },
        eio_tenths: if options.sound_device {
            0
        } else {
            EIO_TENTHS[below(4, mixed(key, RATES, 1)) as usize]
        },
        unlocked: options.unlocked,
        late: options.late,
    }
}

// Returns the key of a run.
#[tactic(auto, unfolding(crate::specs::Draws::key_of))]
fn key_of(seed: u64, number: u32) -> u64
    ensures { result ≡ key_of seed number }
{
    let [a, b, c, d, e, f, g, h] = seed.to_le_bytes();
    let mut words = ChaCha8Rng::from_seed([
        a, b, c, d, e, f, g, h, 0, 0, 0, 0, 0, 0, 0, 0, 0, 0, 0, 0, 0, 0, 0, 0, 0, 0, 0, 0, 0, 0,
        0, 0,
    ]);
    words.set_stream(number as u64);
    words.set_word_pos(0);
    let low = words.next_word();
    let high = words.next_word();
    low as u64 + (high as u64) * 4_294_967_296
}

// The finalizer of SplitMix64 (Steele, Lea and Flood).
#[tactic(auto, unfolding(crate::specs::Draws::finalized))]
fn finalized(z: u64) -> u64
    ensures { result ≡ finalized z }
{
    let y = (z ^ (z >> 30)).wrapping_mul(0xbf58_476d_1ce4_e5b9);
    let x = (y ^ (y >> 27)).wrapping_mul(0x94d0_49bb_1331_11eb);
    x ^ (x >> 31)
}

/// Returns number `n` of SplitMix64 with a seed.
#[tactic(auto, unfolding(crate::specs::Draws::draw))]
pub(crate) fn draw(seed: u64, n: u64) -> u64
    ensures { result ≡ draw seed n }
{
    finalized(seed.wrapping_add(n.wrapping_mul(GOLDEN_GAMMA)))
}

/// Returns the draw of an actor at a position.
pub(crate) fn mixed(key: u64, actor: u64, position: u64) -> u64
    ensures { result ≡ mixed key actor position }
{
    draw(draw(key, actor), position)
}

/// Scales a drawn number to the numbers below `n`.
pub(crate) fn below(n: u32, word: u64) -> u32
    requires some { 0 < n }
    ensures value { result ≡ below n word }
    ensures less { result < n }
{
    ((word as u128 * n as u128) >> 64) as u32
}
