// Depths.
ghost use Rattle.std.specs.Prelude.{ℕ, ◌≡◌, ◌+◌, ◌≤◌, ◌<◌, length, max, slice_index, IfOk};
ghost use Rattle.runs.specs.Live.{IsLive};
ghost use Rattle.dependence.specs.Followers.{Follower};
ghost use Rattle.run_depths.specs.Depths.{AreDepths, IsDepth, StandsAt, AreBelow, IsBehind};

use dependence::Live;
use std::alloc::{AllocError, Global};

/// The depth of each live event, at its index counted from 0 in order of tickets: one more than the greatest depth of
/// those that it follows, and 0 where it follows none. So it is the same for all orders in which the events may have
/// been taken.
///
/// It is an error if there is no memory.
pub fn depths_of(alloc: Global, live: &Live) -> Result<Vec<usize>, AllocError>
    ensures depths { IfOk result (λ depths. AreDepths live.now.live depths.items) }
    ensures small { IfOk result (λ depths. AreBelow depths.items) }
{
    live.is_sound();
    let mut depths = Vec::with_capacity(alloc, live.len())?;
    for (ticket, _) in live.iter() {
        let depth = depth_of(live, depths.as_slice(), ticket);
        depths.push(depth)?;
    }
    Ok(depths)
}

/// The depth of the live event of this ticket, where those of the events before it are known.
fn depth_of(live: &Live, depths: &[usize], ticket: u64) -> usize
    requires live { IsLive live.now.live ticket }
    requires known { (t j : ℕ) → Follower live.now.live t ticket → StandsAt live.now.live t j → j < length depths.now }
    requires small { AreBelow depths.now }
    ensures depth { IsDepth live.now.live depths.now ticket result }
    ensures small { result ≤ length depths.now }
{
    live.is_sound();
    let mut depth = 0;
    let leads = live.leads(ticket);
    for lead in leads {
        depth = larger(depth, depth_behind(live, depths, *lead));
    }
    depth
}

/// The larger of two numbers.
pub(crate) fn larger(one: usize, other: usize) -> usize
    ensures { result ≡ max one other }
{
    if one < other { other } else { one }
}

/// One more than the depth of the live event of this ticket.
fn depth_behind(live: &Live, depths: &[usize], ticket: u64) -> usize
    requires live { IsLive live.now.live ticket }
    requires known { (j : ℕ) → StandsAt live.now.live ticket j → j < length depths.now }
    requires small { AreBelow depths.now }
    ensures depth { IsBehind live.now.live depths.now ticket result }
    ensures small { result ≤ length depths.now }
{
    match live.index_of(ticket) {
        Some(index) => depths[index] + 1,
        None => unreachable!(),
    }
}

/// One more than the depth of the event at an index.
pub(crate) fn depth_after(depths: &[usize], index: usize) -> usize
    requires inside { index < length depths.now }
    requires small { AreBelow depths.now }
    ensures depth { result ≡ slice_index depths.now index + 1 }
    ensures small { result ≤ length depths.now }
{
    depths[index] + 1
}
