// The first step of a place, and what is below one.
ghost use Rattle.std.specs.Prelude.{◌≡◌, ◌+◌, ◌*◌, ℕ, [], ◌∷◌, MatchOption};
ghost use Rattle.address.specs.declared.Entry.TheVariants.{Ordered as IsOrdered, Branch as IsBranch};
ghost use Rattle.runs.specs.Moves.{Place};
ghost use Rattle.runs.specs.Tests.{same_place};

use address::Entry;

/// The number of the child or act of a sequence, and the place below it.
pub(crate) fn ordered_step(place: &[Entry]) -> Option<(u32, &[Entry])>
    ensures { MatchOption result ((n : ℕ) (a : Place) → place.now ≡ IsOrdered n ∷ a →
        ⊥) (λ step. place.now ≡ IsOrdered step.0 ∷ step.1.now) }
{
    let (first, below) = place.split_first()?;
    match first {
        Entry::Ordered(number) => Some((*number, below)),
        Entry::Branch(_) => None,
    }
}

/// The number of the branch of a parallel, and the place below it.
pub(crate) fn branch_step(place: &[Entry]) -> Option<(u32, &[Entry])>
    ensures { MatchOption result ((n : ℕ) (a : Place) → place.now ≡ IsBranch n ∷ a →
        ⊥) (λ step. place.now ≡ IsBranch step.0 ∷ step.1.now) }
{
    let (first, below) = place.split_first()?;
    match first {
        Entry::Ordered(_) => None,
        Entry::Branch(number) => Some((*number, below)),
    }
}

/// The place below the child of this number.
pub(crate) fn below_child(place: &[Entry], number: u64) -> Option<&[Entry]>
    ensures { MatchOption result ((a : Place) → place.now ≡ IsOrdered number ∷ a →
        ⊥) (λ below. place.now ≡ IsOrdered number ∷ below.now) }
{
    let (first, below) = ordered_step(place)?;
    if u64::from(first) == number {
        return Some(below);
    }
    None
}

/// Whether the place is that of this act.
pub(crate) fn is_act(place: &[Entry], number: u64) -> bool
    ensures { result ≡ same_place place.now (IsOrdered number ∷ []) }
{
    match below_child(place, number) {
        Some(below) => below.is_empty(),
        None => false,
    }
}

/// The place below the body of this turn of a loop.
pub(crate) fn below_body(place: &[Entry], turn: u64) -> Option<&[Entry]>
    ensures { MatchOption result ((a : Place) → place.now ≡ IsOrdered (2 * turn + 1) ∷ a →
        ⊥) (λ below. place.now ≡ IsOrdered (2 * turn + 1) ∷ below.now) }
{
    let (first, below) = ordered_step(place)?;
    if first % 2 == 1 && u64::from(first / 2) == turn {
        return Some(below);
    }
    None
}

/// Whether the place is that of the act with which a loop goes on behind this turn.
pub(crate) fn is_act_behind(place: &[Entry], turn: u64) -> bool
    ensures { result ≡ same_place place.now (IsOrdered (2 * (turn + 1)) ∷ []) }
{
    match ordered_step(place) {
        Some((first, below)) => {
            below.is_empty() && first > 0 && first % 2 == 0 && u64::from(first / 2 - 1) == turn
        }
        None => false,
    }
}
