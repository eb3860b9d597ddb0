// How many events depend directly on one.
ghost use Rattle.std.specs.Prelude.{◌<◌, ◌^◌, length};
ghost use Rattle.dependence.specs.Followers.{CountsDirect};
ghost use Rattle.runs.specs.Live.{FirstDependent, IsLive};
ghost use Rattle.dependence.specs.internal.Tables.{IsRising, Linked, CountsAmong};

use crate::live_events::LiveEvents;
use crate::live_list::LiveList;
use crate::whole::least_dependent;
use runs::{Event, depends_directly};

/// How many live events depend directly on the one of this ticket. The first that may is its first follower.
pub(crate) fn count_direct(list: &LiveList, ticket: u64) -> usize
    requires rising { IsRising list.now.live }
    requires linked { Linked list.now.live list.now.links }
    requires live { IsLive list.now.live ticket }
    ensures { CountsDirect list.now.live ticket result }
{
    match least_dependent(list, ticket) {
        Some(first) => count_from(list, ticket, first),
        None => 0,
    }
}

/// How many live events depend directly on the one of this ticket, of which `first` is the least dependent.
fn count_from(list: &LiveList, ticket: u64, first: u64) -> usize
    requires rising { IsRising list.now.live }
    requires live { IsLive list.now.live ticket }
    requires first { FirstDependent list.now.live ticket first }
    ensures { CountsDirect list.now.live ticket result }
{
    count_among(list.event_of(ticket), list.iter_from(first))
}

/// How many of these events depend directly on the event.
fn count_among(event: &Event, later: LiveEvents<'_>) -> usize
    requires rising { IsRising later }
    requires fits { length later < 2 ^ 64 }
    ensures { CountsAmong event.now later.entry result }
{
    let mut count = 0;
    for (_, other) in later {
        if depends_directly(event, other) {
            count += 1;
        }
    }
    count
}
