ghost use Rattle.std.specs.Prelude.{◌≡◌, ◌≤◌, ◌<◌, ◌⊎◌, MatchOption};

/// The most workers of a crew.
pub const MOST_WORKERS: u32 = 16;

/// The most turns of each.
pub const MOST_TURNS: u32 = 1_000_000;

/// How many workers there are, 1 to 16, and how many turns each takes, 0 to 1,000,000.
#[derive(Clone, Copy)]
pub struct CrewSize {
    pub workers: u32,
    pub turns: u64,
    pub ghost some: { 1 ≤ workers },
    pub ghost few: { workers ≤ 16 },
    pub ghost short: { turns ≤ 1000000 },
}

impl CrewSize {
    /// So many workers and turns; `None` where no crew has so many.
    pub fn new(workers: u32, turns: u64) -> Option<CrewSize>
        ensures { MatchOption result ((workers < 1) ⊎ (16 < workers) ⊎ (1000000 < turns))
            (λ crew. (crew.workers ≡ workers) × (crew.turns ≡ turns)) }
    {
        if 1 <= workers && workers <= MOST_WORKERS && turns <= u64::from(MOST_TURNS) {
            Some(CrewSize { workers, turns })
        } else {
            None
        }
    }
}
