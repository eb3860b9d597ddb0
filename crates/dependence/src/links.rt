// The followers of each live event, kept at its index.
ghost use Rattle.std.specs.Prelude.{◌≡◌, ◌<◌, ◌++◌, ◌∷◌, [], ℕ, cond, IfOk, MatchResult};
ghost use Rattle.syntax.specs.Lists.{In};
ghost use Rattle.runs.specs.InOrder.{InOrder};
ghost use Rattle.runs.specs.Live.{Rising, NoneAt, IsLive};
ghost use Rattle.dependence.specs.internal.Tables.{IsRising, Falling, PartLinked, Removed};
ghost use Rattle.dependence.specs.internal.Listed.{SameLive};

use crate::indexes::index_in;
use crate::live_list::LiveList;
use smallvec::SmallVec;
use std::alloc::AllocError;

/// The tickets of followers. Mostly they are one or two, which need no memory of their own.
pub(crate) type Followers = SmallVec<u64, 2>;

/// The tickets of the events that one follows, as few mostly.
pub(crate) type Leads = SmallVec<u64, 2>;

/// Of one live event: the tickets of its followers, ascending, and of the events that it follows, falling.
#[derive(Drop)]
pub(crate) struct Links {
    pub(crate) followers: Followers,
    pub(crate) leads: Leads,
}

/// Puts the new ticket behind the followers of each of these events. Without memory for it all lists are as before.
pub(crate) fn link_all(list: &mut LiveList, leads: &[u64], ticket: u64) -> Result<(), AllocError>
    requires rising { Rising 0 list.old.live ticket }
    requires live { (t : ℕ) → In t leads.now → IsLive list.old.live t }
    requires falling { Falling leads.now }
    requires linked { PartLinked list.old.live ticket (λ t. In t []) list.old.links }
    ensures same { SameLive list.old list.new }
    ensures linked { MatchResult result (λ _. PartLinked list.old.live ticket (λ t. In t leads.now) list.new.links)
        (λ _. PartLinked list.old.live ticket (λ t. In t []) list.new.links) }
{
    for (done, lead) in leads.iter().enumerate() {
        if let Err(refused) = list.add_follower(*lead, ticket) {
            unlink_all(list, &leads[..done], ticket);
            return Err(refused);
        }
    }
    Ok(())
}

/// Takes the ticket, which is not live, out of the followers of each of these events.
pub(crate) fn unlink_all(list: &mut LiveList, leads: &[u64], ticket: u64)
    requires rising { IsRising list.old.live }
    requires absent { NoneAt list.old.live ticket }
    requires live { (t : ℕ) → In t leads.now → IsLive list.old.live t }
    requires falling { Falling leads.now }
    requires linked { PartLinked list.old.live ticket (λ t. In t leads.now) list.old.links }
    ensures same { SameLive list.old list.new }
    ensures linked { PartLinked list.old.live ticket (λ t. In t []) list.new.links }
{
    for lead in leads {
        list.remove_follower(*lead, ticket);
    }
}

/// Takes the ticket out of those that ascend.
pub(crate) fn remove(tickets: &mut Followers, ticket: u64)
    requires { InOrder ◌<◌ tickets.old.items }
    ensures { Removed ticket tickets.old.items tickets.new.items }
{
    if let Some(index) = index_in(tickets.as_slice(), ticket) {
        tickets.remove(index);
    }
}

/// Puts the ticket behind the others where it is one of those that are kept.
pub(crate) fn keep_if(is_one: bool, ticket: u64, kept: &mut Leads) -> Result<(), AllocError>
    ensures { IfOk result (λ _. kept.new.items ≡ cond is_one (kept.old.items ++ ticket ∷ []) kept.old.items) }
{
    if is_one {
        kept.push(ticket)?;
    }
    Ok(())
}
