// The parts of a place.
ghost use Rattle.std.specs.Prelude.{◌≡◌, ◌*◌, ◌^◌, ◌<◌, IsTrue};
ghost use Rattle.std.specs.Option.{option_copied};
ghost use Rattle.runs.specs.internal.Below.{below_child, below_branch, act_of, is_act, is_here};

use address::Entry;

/// The place below the child of this number in a sequence.
pub(crate) fn below_child(place: &[Entry], number: u64) -> Option<&[Entry]>
    ensures { option_copied result ≡ below_child number place.now }
{
    let (first, below) = place.split_first()?;
    match first {
        Entry::Ordered(entry) => {
            if u64::from(*entry) == number {
                Some(below)
            } else {
                None
            }
        }
        Entry::Branch(_) => None,
    }
}

/// The place below the branch of this number in a parallel.
pub(crate) fn below_branch(place: &[Entry], number: u64) -> Option<&[Entry]>
    ensures { option_copied result ≡ below_branch number place.now }
{
    let (first, below) = place.split_first()?;
    match first {
        Entry::Ordered(_) => None,
        Entry::Branch(entry) => {
            if u64::from(*entry) == number {
                Some(below)
            } else {
                None
            }
        }
    }
}

/// The number of the act that the place is.
fn act_of(place: &[Entry]) -> Option<u32>
    ensures { result ≡ act_of place.now }
{
    let (first, below) = place.split_first()?;
    match first {
        Entry::Ordered(entry) => { if below.is_empty() { Some(*entry) } else { None } }
        Entry::Branch(_) => None,
    }
}

/// Whether the place is the act of this number.
pub(crate) fn is_act(place: &[Entry], number: u64) -> bool
    ensures value { result ≡ is_act number place.now }
    ensures fits { IsTrue result → number < 2 ^ 32 }
{
    match act_of(place) {
        Some(act) => u64::from(act) == number,
        None => false,
    }
}

/// Whether the place is the first act of this turn of a loop, which has two acts a turn.
#[tactic(auto, using(crate::proofs::Below::even_half))]
pub(crate) fn is_turn(place: &[Entry], turn: u64) -> bool
    ensures value { result ≡ is_act (2 * turn) place.now }
    ensures fits { IsTrue result → turn < 2 ^ 32 }
{
    match act_of(place) {
        Some(act) => act % 2 == 0 && u64::from(act / 2) == turn,
        None => false,
    }
}

/// Whether the place is the command's own.
pub(crate) fn is_here(place: &[Entry]) -> bool
    ensures { result ≡ is_here place.now }
{
    place.is_empty()
}
