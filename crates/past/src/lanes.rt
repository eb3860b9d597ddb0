// Sets of 64 lanes, each a bit of a word.
ghost use Rattle.std.specs.Prelude.{◌≡◌, ◌↔◌, ◌<◌, ℕ, ◌||◌, ◌&&◌, ◌==◌, not, true, false};
ghost use Rattle.past.specs.internal.Lanes.{has};

/// Whether the lane is in the set.
pub(crate) fn has(lanes: u64, lane: usize) -> bool
    requires { lane < 64 }
    ensures { result ≡ has lanes lane }
{
    (lanes >> lane) & 1 == 1
}

/// The lanes of both sets.
pub(crate) fn both(one: u64, other: u64) -> u64
    ensures { (k : ℕ) → has result k ≡ (has one k || has other k) }
{
    one | other
}

/// The lanes of the first set that are not in the second.
pub(crate) fn without(one: u64, other: u64) -> u64
    ensures { (k : ℕ) → k < 64 → has result k ≡ (has one k && not (has other k)) }
{
    one & !other
}

/// The set of one lane.
pub(crate) fn alone(lane: usize) -> u64
    requires { lane < 64 }
    ensures { (k : ℕ) → has result k ≡ (k == lane) }
{
    1 << lane
}

/// No lane.
pub(crate) fn none() -> u64
    ensures { (k : ℕ) → has result k ≡ false }
{
    0
}

/// Whether the set has no lane.
pub(crate) fn is_none(lanes: u64) -> bool
    ensures { result ≡ true → (k : ℕ) → has lanes k ≡ false }
{
    lanes == 0
}
