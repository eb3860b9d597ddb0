// What depends on a live event.
ghost use Rattle.runs.specs.Live.{IsLive};

use dependence::Live;
use machine::Machine;
use std::alloc::{AllocError, Global};

/// The tickets of the live events that depend on the one of this ticket, itself first, ascending: those that a rollback
/// of it takes back. None where no live event has the ticket. It is an error if there is no memory.
pub fn consequences_of(
    alloc: Global,
    machine: &Machine,
    ticket: u64,
) -> Result<Vec<u64>, AllocError> {
    let live = machine.live_events();
    let mut taken = Vec::new(alloc);
    let Some(index) = live.index_of(ticket) else {
        return Ok(taken);
    };
    taken.push(ticket)?;
    for later in (index as u64).saturating_add(1)..live.len() as u64 {
        if let Some(other) = follower_at(live, later, taken.as_slice()) {
            taken.push(other)?;
        }
    }
    Ok(taken)
}

/// The ticket of the live event at this index, where it follows one of these.
fn follower_at(live: &Live, index: u64, taken: &[u64]) -> Option<u64> {
    let Some((ticket, _)) = live.pair_at(index) else {
        return None;
    };
    if follows_one(live, ticket, taken) {
        Some(ticket)
    } else {
        None
    }
}

/// Whether the live event of this ticket follows one of these.
fn follows_one(live: &Live, ticket: u64, taken: &[u64]) -> bool
    requires { IsLive live.now.live ticket }
{
    for lead in live.leads(ticket) {
        if taken.binary_search(lead).is_ok() {
            return true;
        }
    }
    false
}
