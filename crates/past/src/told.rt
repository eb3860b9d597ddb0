// Of a whole past the events that are told where not all are: those that carried a value, and the one that is asked
// for. Each has its nearest causes among them.
ghost use Rattle.std.specs.Prelude.{◌≡◌, ◌<◌, [], ℕ, List, length, false, Some, slice_get, IfOk, OnOk};
ghost use Rattle.syntax.specs.Lists.{In};
ghost use Rattle.runs.specs.InOrder.{InOrder};
ghost use Rattle.runs.specs.Live.{IsLive};
ghost use Rattle.dependence.specs.internal.Tables.{IsRising};
ghost use Rattle.past.specs.Past.{ListsPast, tickets_of};
ghost use Rattle.past.specs.internal.Near.{AllLeads, AllNear, ArePlaces, tickets_at};
ghost use Rattle.past.specs.internal.Swept.{IsWhole};

use crate::blocks::{find_near, is_told};
use crate::past::{Past, PastEvent};
use dependence::Live;
use std::alloc::{AllocError, Global};
use syntax::Items;

/// Of the whole past of the event of ticket `asked`, those that are told where not all are.
pub(crate) fn told_past(
    alloc: Global,
    live: &Live,
    whole: &[PastEvent],
    asked: u64,
) -> Result<Past, AllocError>
    requires live { IsLive live.now.live asked }
    requires whole { IsWhole live.now.live asked whole.now }
    ensures { IfOk result (λ past. ListsPast false live.now.live asked past) }
{
    live.is_sound();
    let tickets = tickets_of(alloc, whole)?;
    let mut leads = Items::new(alloc);
    add_leads(alloc, live, whole, tickets.as_slice(), asked, &mut leads)?;
    let mut near = Vec::new(alloc);
    add_empty(alloc, whole.len(), &mut near)?;
    find_near(alloc, whole, leads.as_slice(), asked, near.as_mut_slice())?;
    list_told(
        alloc,
        live,
        whole,
        tickets.as_slice(),
        near.as_slice(),
        asked,
    )
}

/// Their tickets.
fn tickets_of(alloc: Global, events: &[PastEvent]) -> Result<Vec<u64>, AllocError>
    ensures { IfOk result (λ made. made.items ≡ tickets_of events.now) }
{
    events.iter().map(|event| event.ticket).collect(alloc)
}

/// Adds for each event the places of those that it follows, where there are none yet.
fn add_leads(
    alloc: Global,
    live: &Live,
    whole: &[PastEvent],
    tickets: &[u64],
    asked: u64,
    leads: &mut Items<Items<usize>>,
) -> Result<(), AllocError>
    requires rising { IsRising live.now.live }
    requires live { IsLive live.now.live asked }
    requires whole { IsWhole live.now.live asked whole.now }
    requires tickets { tickets.now ≡ tickets_of whole.now }
    requires empty { leads.old ≡ [] }
    ensures { OnOk result (AllLeads live.now.live (tickets_of whole.now) leads.new) }
{
    'places: while leads.len() < whole.len() {
        let places = places_of(alloc, tickets, whole[leads.len()].causes.as_slice())?;
        leads.push(Items::from_vec(places))?;
    }
    Ok(())
}

/// So many empty lists, where there are none yet.
fn add_empty(alloc: Global, count: usize, lists: &mut Vec<Items<usize>>) -> Result<(), AllocError>
    requires { lists.old.items ≡ [] }
    ensures size { OnOk result (length lists.new.items ≡ count) }
    ensures empty { (q : ℕ) (places : List ℕ) → slice_get lists.new.items q ≡ Some places → places ≡ [] }
{
    'lists: while lists.len() < count {
        lists.push(Items::new(alloc))?;
    }
    Ok(())
}

/// The places of these tickets, which fall.
fn places_of(alloc: Global, tickets: &[u64], some: &[u64]) -> Result<Vec<usize>, AllocError>
    requires ascending { InOrder ◌<◌ tickets.now }
    requires among { (t : ℕ) → In t some.now → In t tickets.now }
    ensures { IfOk result (λ places. ArePlaces tickets.now some.now places.items) }
{
    let mut places = Vec::with_capacity(alloc, some.len())?;
    for ticket in some {
        places.push(place_of(tickets, *ticket))?;
    }
    Ok(places)
}

/// Where the ticket stands among these, which ascend.
fn place_of(tickets: &[u64], ticket: u64) -> usize
    requires ascending { InOrder ◌<◌ tickets.now }
    requires among { In ticket tickets.now }
    ensures { slice_get tickets.now result ≡ Some ticket }
{
    match tickets.binary_search(&ticket) {
        Ok(place) => place,
        Err(_) => unreachable!(),
    }
}

/// The told events, each with its nearest causes, and how many are not told.
fn list_told(
    alloc: Global,
    live: &Live,
    whole: &[PastEvent],
    tickets: &[u64],
    near: &[Items<usize>],
    asked: u64,
) -> Result<Past, AllocError>
    requires rising { IsRising live.now.live }
    requires live { IsLive live.now.live asked }
    requires whole { IsWhole live.now.live asked whole.now }
    requires tickets { tickets.now ≡ tickets_of whole.now }
    requires near { AllNear live.now.live asked whole.now near.now }
    ensures { IfOk result (λ past. ListsPast false live.now.live asked past) }
{
    let mut events = Items::new(alloc);
    let mut left_out = 0;
    for (place, one) in whole.iter().enumerate() {
        if is_told(one, asked) {
            events.push(with_causes(alloc, one, tickets, near[place].as_slice())?)?;
        } else {
            left_out += 1;
        }
    }
    Ok(Past { events, left_out })
}

/// The event with the causes that stand at these places among the tickets.
fn with_causes(
    alloc: Global,
    event: &PastEvent,
    tickets: &[u64],
    places: &[usize],
) -> Result<PastEvent, AllocError>
    requires { (p : ℕ) → In p places.now → p < length tickets.now }
    ensures { IfOk result (λ made. made ≡ record {
      ticket = event.now.ticket;
      index = event.now.index;
      carries = event.now.carries;
      causes = tickets_at tickets.now places.now;
    }) }
{
    let causes = tickets_at(alloc, tickets, places)?;
    Ok(PastEvent {
        ticket: event.ticket,
        index: event.index,
        carries: event.carries,
        causes,
    })
}

/// The tickets at these places.
fn tickets_at(alloc: Global, tickets: &[u64], places: &[usize]) -> Result<Items<u64>, AllocError>
    requires { (p : ℕ) → In p places.now → p < length tickets.now }
    ensures { IfOk result (λ made. made ≡ tickets_at tickets.now places.now) }
{
    let mut made = Items::with_capacity(alloc, places.len())?;
    for place in places {
        made.push(tickets[*place])?;
    }
    Ok(made)
}
