// What is asked: the past of an event, and of the last event that wrote a variable.
ghost use Rattle.std.specs.Prelude.{◌≡◌, ℕ, IfOk, MatchOption};
ghost use Rattle.runs.specs.Live.{LastWriter, NoneAt, NoWriter, IsLive};
ghost use Rattle.past.specs.Past.{ListsPast};

use crate::sweep::whole_past;
use crate::told::told_past;
use dependence::Live;
use std::alloc::{AllocError, Global};
use syntax::Items;

/// A live event that another depends on.
#[derive(Drop)]
pub struct PastEvent {
    pub ticket: u64,
    /// where it stands among the live events, from 0 in order of tickets
    pub index: usize,
    /// whether it carried a value
    pub carries: bool,
    /// the tickets of its nearest causes, falling: of the events that are told on which it depends, with no other that
    /// is told between
    pub causes: Items<u64>,
}

/// The events that led to one.
#[derive(Drop)]
pub struct Past {
    /// in order of tickets, the last is the event itself
    pub events: Items<PastEvent>,
    /// how many more there are, which carried no value; none where all were asked for
    pub left_out: usize,
}

/// Exactly the live events on which the one of this ticket depends, itself among them, in order of tickets, each with
/// its nearest causes; where not `all` are asked for, of them those that carried a value, and the one of this ticket.
/// `None` where no live event has the ticket. It takes one sweep down over the live events, which looks only at the
/// past; where not `all` are asked for, then one up over the past for 64 of them at a time, which ends where none of
/// these may be a nearest cause any more. It is an error if there is no memory.
pub fn past_of_event(
    alloc: Global,
    live: &Live,
    ticket: u64,
    all: bool,
) -> Result<Option<Past>, AllocError>
    ensures { IfOk result (λ told.
        MatchOption told (NoneAt live.now.live ticket) (λ past. ListsPast all live.now.live ticket past)) }
{
    match live.index_of(ticket) {
        Some(_) => Ok(Some(past_of(alloc, live, ticket, all)?)),
        None => Ok(None),
    }
}

/// The same of the last live event that wrote the variable. `None` where no live event wrote it.
pub fn past_of_variable(
    alloc: Global,
    live: &Live,
    variable: u32,
    all: bool,
) -> Result<Option<Past>, AllocError>
    ensures { IfOk result (λ told.
        MatchOption told (NoWriter live.now.live variable) (λ past. (t : ℕ) × LastWriter live.now.live variable t
        × ListsPast all live.now.live t past)) }
{
    match live.last_writer(variable) {
        Some(ticket) => Ok(Some(past_of(alloc, live, ticket, all)?)),
        None => Ok(None),
    }
}

/// The past of the live event of this ticket.
fn past_of(alloc: Global, live: &Live, ticket: u64, all: bool) -> Result<Past, AllocError>
    requires { IsLive live.now.live ticket }
    ensures { IfOk result (λ past. ListsPast all live.now.live ticket past) }
{
    live.is_sound();
    let whole = whole_past(alloc, live, ticket)?;
    if all {
        Ok(all_of(whole))
    } else {
        told_past(alloc, live, whole.as_slice(), ticket)
    }
}

/// The past of which nothing is left out.
fn all_of(events: Items<PastEvent>) -> Past
    ensures { result ≡ record { events = events; left_out = 0 } }
{
    Past {
        events,
        left_out: 0,
    }
}
