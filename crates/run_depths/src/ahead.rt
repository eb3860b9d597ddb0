// How far on the followers of an event stand.
ghost use Rattle.std.specs.Prelude.{◌≡◌, ◌+◌, ◌<◌, ◌≤◌, length, IfOk, slice_get, Some};
ghost use Rattle.runs.specs.Live.{IsLive};
ghost use Rattle.run_depths.specs.Depths.{AreAhead, ListsAhead, StandsAt};

use dependence::Live;
use std::alloc::{AllocError, Global};
use syntax::Items;

/// For each live event, at its index counted from 0 in order of tickets, how many events further on each of its
/// followers stands.
///
/// It is an error if there is no memory.
pub fn all_ahead(alloc: Global, live: &Live) -> Result<Items<Items<usize>>, AllocError>
    ensures { IfOk result (λ rows. AreAhead live.now.live rows) }
{
    live.is_sound();
    let mut rows = Items::with_capacity(alloc, live.len())?;
    for (index, (ticket, _)) in live.iter().enumerate() {
        rows.push(ahead_of(alloc, live, index, ticket)?)?;
    }
    Ok(rows)
}

/// How many events further on than the index each follower of the event of this ticket stands, which stands there.
fn ahead_of(
    alloc: Global,
    live: &Live,
    index: usize,
    ticket: u64,
) -> Result<Items<usize>, AllocError>
    requires { StandsAt live.now.live ticket index }
    ensures { IfOk result (λ ahead. ListsAhead live.now.live index ticket ahead) }
{
    live.is_sound();
    let mut ahead = Items::new(alloc);
    let followers = live.followers(ticket);
    for follower in followers {
        ahead.push(distance(live, index, ticket, *follower))?;
    }
    Ok(ahead)
}

/// How many events further on than the index the live event of a ticket stands, which is greater than that of the event
/// at the index.
fn distance(live: &Live, index: usize, ticket: u64, follower: u64) -> usize
    requires stands { StandsAt live.now.live ticket index }
    requires live { IsLive live.now.live follower }
    requires later { ticket < follower }
    ensures { StandsAt live.now.live follower (index + result) }
{
    live.is_sound();
    match live.index_of(follower) {
        Some(other) => other - index,
        None => unreachable!(),
    }
}
