// The places of a branch at which the state offers something.
ghost use Rattle.std.specs.Prelude.{◌≡◌, IfOk, OnOk, slice_get};
ghost use Rattle.dap_threads.specs.Frames as model;
ghost use Rattle.dap_threads.specs.Frames.{is_again, is_branch, is_place_in, is_ranked, is_ranked_in, same_rank, with_all};

use dap_views::{Rank, Sight, same_place};
use local_actions::LocalAction;
use machine::Machine;
use std::alloc::{AllocError, Global};
use system::System;
use system_places::branch_at;

/// The indexes of the actions at the places of the branch, one for each place: those that act first, then those whose
/// partner does, then those that wait.
pub fn places_in(
    alloc: Global,
    machine: &Machine,
    sight: &Sight,
    branch: u32,
) -> Result<Vec<usize>, AllocError>
    ensures { IfOk result (λ places. places.items ≡ model.places_in machine.now.checked sight.now branch) }
{
    let system = machine.checked().system();
    let mut found = Vec::new(alloc);
    add_ranked(system, sight, branch, Rank::Acts, &mut found)?;
    add_ranked(system, sight, branch, Rank::Joins, &mut found)?;
    add_ranked(system, sight, branch, Rank::Waits, &mut found)?;
    Ok(found)
}

/// Adds the places of the branch that are so far from going on.
fn add_ranked(
    system: &System,
    sight: &Sight,
    branch: u32,
    rank: Rank,
    found: &mut Vec<usize>,
) -> Result<(), AllocError>
    ensures { OnOk result (found.new.items ≡ with_all found.old.items system.now sight.now branch rank) }
{
    for index in 0..sight.actions.len() {
        if is_ranked_in(system, sight, branch, rank, index) {
            found.push(index)?;
        }
    }
    Ok(())
}

/// Whether the action at the index is the first at a place of the branch that is so far from going on.
fn is_ranked_in(system: &System, sight: &Sight, branch: u32, rank: Rank, index: usize) -> bool
    ensures { result ≡ is_ranked_in system.now sight.now branch rank index }
{
    is_place_in(system, sight.actions.as_slice(), branch, index) && is_ranked(sight, rank, index)
}

/// Whether there is an action at the index, and its place is so far from going on.
fn is_ranked(sight: &Sight, rank: Rank, index: usize) -> bool
    ensures { result ≡ is_ranked sight.now.ready rank (slice_get sight.now.actions index) }
{
    match sight.actions.as_slice().get(index) {
        Some(offered) => same_rank(sight.rank(&offered.place), rank),
        None => false,
    }
}

/// Whether both are one.
fn same_rank(one: Rank, other: Rank) -> bool
    ensures { result ≡ same_rank one other }
{
    match (one, other) {
        (Rank::Acts, Rank::Acts) | (Rank::Joins, Rank::Joins) | (Rank::Waits, Rank::Waits) => true,
        _ => false,
    }
}

/// Whether the action at the index stands in the branch, and the one before it at another place.
fn is_place_in(system: &System, actions: &[LocalAction], branch: u32, index: usize) -> bool
    ensures { result ≡ is_place_in system.now actions.now branch index }
{
    match actions.get(index) {
        Some(offered) => {
            is_branch(branch, branch_at(system, &offered.place)) && !is_again(actions, index)
        }
        None => false,
    }
}

/// Whether this branch was found.
fn is_branch(branch: u32, found: Option<u32>) -> bool
    ensures { result ≡ is_branch branch found }
{
    match found {
        Some(number) => number == branch,
        None => false,
    }
}

/// Whether the action before this has the same place.
fn is_again(actions: &[LocalAction], index: usize) -> bool
    ensures { result ≡ is_again actions.now index }
{
    if index == 0 {
        return false;
    }
    match (actions.get(index - 1), actions.get(index)) {
        (Some(one), Some(other)) => same_place(&one.place, &other.place),
        _ => false,
    }
}
