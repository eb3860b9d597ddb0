// In which branches an event takes part.
ghost use Rattle.std.specs.Prelude.{◌≡◌, ℕ, true, Some, slice_get, MatchOption};
ghost use Rattle.runs.specs.Events.{acting};
ghost use Rattle.runs.specs.declared.event.Event.{Event as AnEvent};
ghost use Rattle.machine.specs.Branching.{is_branch};
ghost use Rattle.system_places.specs.SystemBranches.{branch_at};
ghost use Rattle.dap_views.specs.Parts.{takes_part, second_in, NoneBelow, NewestBelow};

use dependence::Live;
use runs::Event;
use system::System;
use system_places::branch_at;

/// Whether the event acts in the branch.
pub fn acts_in(system: &System, branch: u32, event: &Event) -> bool
    ensures { result ≡ is_branch branch (branch_at system.now (acting event.now)) }
{
    is_branch(branch, branch_at(system, event.acting_place()))
}

/// Whether one of the places of the event lies in the branch.
pub fn takes_part(system: &System, branch: u32, event: &Event) -> bool
    ensures { result ≡ takes_part system.now branch event.now }
{
    is_branch(branch, branch_at(system, &event.first)) || second_in(system, branch, event)
}

/// Whether the second place of the event lies in the branch.
fn second_in(system: &System, branch: u32, event: &Event) -> bool
    ensures { result ≡ second_in system.now branch event.now.second }
{
    match &event.second {
        Some(place) => is_branch(branch, branch_at(system, place)),
        None => false,
    }
}

/// Whether this is the branch.
fn is_branch(branch: u32, found: Option<u32>) -> bool
    ensures { result ≡ is_branch branch found }
{
    match found {
        Some(number) => number == branch,
        None => false,
    }
}

/// The index, counted from 0 in order of tickets, of the last live event below this index in which the branch took
/// part.
pub fn newest_below(system: &System, live: &Live, branch: u32, below: usize) -> Option<usize>
    ensures { MatchOption result (NoneBelow system.now branch live.now.live below) (λ i.
        NewestBelow system.now branch live.now.live below i) }
{
    let mut left = below;
    while left > 0 {
        left -= 1;
        if took_part_at(system, live, branch, left) {
            return Some(left);
        }
    }
    None
}

/// Whether the branch took part in the live event at this index. There may be none.
fn took_part_at(system: &System, live: &Live, branch: u32, index: usize) -> bool
    ensures is { (x : ℕ × AnEvent) → slice_get live.now.live index ≡ Some x →
        result ≡ takes_part system.now branch x.1 }
    ensures found { result ≡ true →
        (x : ℕ × AnEvent) × (slice_get live.now.live index ≡ Some x) × (takes_part system.now branch x.1 ≡ true) }
{
    match live.pair_at(index as u64) {
        Some((_, event)) => takes_part(system, branch, event),
        None => false,
    }
}
