// The first step of a place.
ghost use Rattle.std.specs.Prelude.{◌≡◌, ◌<◌, length, option_map, IfSome};
ghost use Rattle.process_tree.specs.internal.Steps.{ordered_step, branch_step};

use address::Entry;

/// The number of the child or act of a sequence, and the place below it.
pub(crate) fn ordered_step(place: &[Entry]) -> Option<(u32, &[Entry])>
    ensures value { option_map (λ step. (step.0, step.1.now)) result ≡ ordered_step place.now }
    ensures shorter { IfSome result (λ step. length step.1.now < length place.now) }
{
    let (first, below) = place.split_first()?;
    match first {
        Entry::Ordered(number) => Some((*number, below)),
        Entry::Branch(_) => None,
    }
}

/// The number of the branch of a parallel, and the place below it.
pub(crate) fn branch_step(place: &[Entry]) -> Option<(u32, &[Entry])>
    ensures value { option_map (λ step. (step.0, step.1.now)) result ≡ branch_step place.now }
    ensures shorter { IfSome result (λ step. length step.1.now < length place.now) }
{
    let (first, below) = place.split_first()?;
    match first {
        Entry::Ordered(_) => None,
        Entry::Branch(number) => Some((*number, below)),
    }
}
