//! What a run showed, and totals over runs.
ghost use Rattle.std.specs.Prelude.{◌≡◌, ℕ, ◌+◌, ◌<◌, ◌≤◌, ◌^◌, slice_index, length};
ghost use Rattle.std.specs.Int.{bit_at};
ghost use Rattle.search_rounds.specs.Bounds.{IsBounded};

/// What one run showed.
#[derive(Clone, Copy, PartialEq, Eq)]
pub struct Outcome {
    /// Whether it showed what is searched for.
    pub shows: bool,
    pub events: u32,
    /// The kinds of findings that it showed, one bit each.
    pub kinds: u64,
}

/// Totals over runs.
#[derive(Drop)]
pub struct Totals {
    pub runs: u64,
    pub events: u64,
    /// For each kind of finding, how many runs showed it.
    pub kinds: [u64; 64],
    ghost bounded: { IsBounded runs events kinds },
}

impl Totals {
    ghost use Rattle.std.specs.Prelude.{[]};
    ghost use Rattle.search_rounds.specs.Counting.{Adds, IsSum, Counts};

    /// Returns the totals of no run.
    pub fn new() -> Totals
        ensures { Counts result [] }
    {
        Totals {
            runs: 0,
            events: 0,
            kinds: [0; 64],
        }
    }

    /// Adds a run.
    pub fn record(&mut self, outcome: Outcome)
        requires { self.old.runs < 2 ^ 32 }
        ensures { Adds self.old outcome self.new }
    {
        let mut kinds = self.kinds;
        count_kinds(&mut kinds, outcome.kinds);
        *self = Totals {
            runs: self.runs + 1,
            events: self.events + u64::from(outcome.events),
            kinds,
        };
    }

    /// Adds the runs of other totals.
    pub fn add(&mut self, more: &Totals)
        requires { self.old.runs + more.now.runs ≤ 2 ^ 32 }
        ensures { IsSum self.old more.now self.new }
    {
        let mut kinds = self.kinds;
        add_kinds(&mut kinds, &more.kinds);
        *self = Totals {
            runs: self.runs + more.runs,
            events: self.events + more.events,
            kinds,
        };
    }
}

// Counts each kind that a run showed.
fn count_kinds(kinds: &mut [u64; 64], shown: u64)
    requires { (k : ℕ) → slice_index kinds.old k < 2 ^ 32 }
    ensures { (k : ℕ) → k < 64 → slice_index kinds.new k
        ≡ slice_index kinds.old k + bit_at shown k }
{
    for k in 0..64 {
        kinds[k] += (shown >> k) & 1;
    }
}

fn add_kinds(kinds: &mut [u64; 64], more: &[u64; 64])
    requires { (k : ℕ) → slice_index kinds.old k + slice_index more.now k ≤ 2 ^ 32 }
    ensures { (k : ℕ) → k < 64 → slice_index kinds.new k
        ≡ slice_index kinds.old k + slice_index more.now k }
{
    for k in 0..64 {
        kinds[k] += more[k];
    }
}
