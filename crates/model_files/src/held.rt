//! Which descriptors are held by requests in flight.
ghost use Rattle.std.specs.Prelude.{◌≡◌, ℕ, ◌+◌, ◌-◌, ◌<◌, ◌^◌, None, Some, true, if◌then◌else◌};
ghost use Rattle.model_files.specs.Holders.{counted, holders, is_descriptor_number, is_held};

/// For each of the 64 descriptors, numbered from 3, how many requests hold it.
#[derive(Clone, Copy)]
pub struct Held {
    counts: [u32; 64],
}

impl Held {
    /// Returns counts of 0.
    pub fn new() -> Held
        ensures { (fd : ℕ) → holders result fd ≡ 0 }
    {
        Held { counts: [0; 64] }
    }

    /// Returns whether a descriptor is held.
    pub fn holds(&self, fd: u32) -> bool
        ensures { result ≡ is_held self.now fd }
    {
        match index_of(fd) {
            Some(index) => self.counts[index] > 0,
            None => false,
        }
    }

    /// Returns whether descriptor `index` + 3 is held.
    pub(crate) fn holds_at(&self, index: usize) -> bool
        ensures { result ≡ is_held self.now (index + 3) }
    {
        index < 64 && self.counts[index] > 0
    }

    /// Counts one more request that holds a descriptor. Does nothing for a number outside of 3 to
    /// 66.
    pub fn add(&mut self, fd: u32)
        requires { holders self.old fd < 2 ^ 32 - 1 }
        ensures { (other : ℕ) → holders self.new other ≡ holders self.old other + counted fd other }
    {
        if let Some(index) = index_of(fd) {
            self.counts[index] += 1;
        }
    }

    /// Counts one request fewer.
    pub fn remove(&mut self, fd: u32)
        requires { is_descriptor_number fd ≡ true → 0 < holders self.old fd }
        ensures { (other : ℕ) → holders self.old other ≡ holders self.new other + counted fd other }
    {
        if let Some(index) = index_of(fd) {
            self.counts[index] -= 1;
        }
    }
}

// Returns the index of a descriptor's count.
fn index_of(fd: u32) -> Option<usize>
    ensures { result ≡ (if is_descriptor_number fd then Some (fd - 3) else None) }
{
    if 3 <= fd && fd < 67 {
        Some(fd as usize - 3)
    } else {
        None
    }
}
