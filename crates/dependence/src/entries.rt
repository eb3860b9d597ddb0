// A new event in the tables, and one taken out of them.
ghost use Rattle.std.specs.Prelude.{◌≡◌, ◌<◌, ◌++◌, ◌∷◌, [], ℕ, List, false, length, vec_len, ◌↔◌, Some, slice_get, IfOk, OnOk};
ghost use Rattle.std.specs.List.{remove};
ghost use Rattle.std.specs.List.Sorted.{IsNonDecreasing};
ghost use Rattle.std.specs.Vec.{vec_capacity};
ghost use Rattle.syntax.specs.Lists.{In};
ghost use Rattle.runs.specs.Live.{Rising, NoDependent, IsLive};
ghost use Rattle.dependence.specs.Behind.{ComesBehind};
ghost use Rattle.dependence.specs.internal.Found.{IsNewEvent, PlacesFound};
ghost use Rattle.dependence.specs.internal.Tables.{IsRising, Falling, Linked, PartLinked, Candidates, Topmost, LinkedBehind};

use crate::accesses::NewEvent;
use crate::links::{Leads, unlink_all};
use crate::live_list::LiveList;
use crate::topmost::{span, topmost};
use crate::unreached::told_topmost;
use runs::Event;
use smallvec::SmallVec;
use std::alloc::{AllocError, Global};
use syntax::Boxed;

/// The tickets of the live events that a new event follows, falling. `found` are those that its places give; what it is
/// left with says nothing.
pub(crate) fn leads_of(
    alloc: Global,
    new: &NewEvent<'_>,
    found: &mut Vec<u64>,
) -> Result<Leads, AllocError>
    requires new { IsNewEvent new.now }
    requires found { PlacesFound new.now.list.now.live new.now.event.now found.old.items }
    requires behind { ComesBehind new.now.list.now.live new.now.event.now }
    requires linked { Linked new.now.list.now.live new.now.list.now.links }
    ensures falling { IfOk result (λ leads. Falling leads.items) }
    ensures topmost { IfOk result (λ leads. (all : List ℕ) × Candidates new.now.list.now.live new.now.event.now all
        × ((t : ℕ) → In t leads.items ↔ Topmost new.now.list.now.live all t)) }
{
    new.add_by_variables(found)?;
    if found.len() <= 1 {
        return SmallVec::from_slice(alloc, found.as_slice());
    }
    sort(found);
    let tickets = found.as_slice();
    let told = told_topmost(alloc, new.list, tickets)?;
    if let Some(leads) = told {
        return Ok(leads);
    }
    let (low, high) = span(new.list, tickets);
    topmost(alloc, new.list, tickets, low, high)
}

/// Puts the tickets into ascending order.
fn sort(tickets: &mut Vec<u64>)
    ensures same { (t : ℕ) → In t tickets.old.items ↔ In t tickets.new.items }
    ensures length { length tickets.new.items ≡ length tickets.old.items }
    ensures ascending { IsNonDecreasing tickets.new.items }
{
    tickets.sort_unstable();
}

/// Room for one more event with its links and its mark.
pub(crate) fn make_room(list: &mut LiveList, marks: &mut Vec<bool>) -> Result<(), AllocError>
    ensures live { list.new.live ≡ list.old.live }
    ensures links { list.new.links ≡ list.old.links }
    ensures marks { marks.new.items ≡ marks.old.items }
    ensures room { OnOk result ((0 < list.new.room) × (vec_len marks.new < vec_capacity marks.new)) }
{
    list.make_room()?;
    marks.reserve(1)
}

/// Puts the event, which follows those of these tickets, and its mark behind the others, where there is room for them.
pub(crate) fn push_event(
    list: &mut LiveList,
    marks: &mut Vec<bool>,
    ticket: u64,
    event: Boxed<Event>,
    leads: Leads,
)
    requires rising { Rising 0 list.old.live ticket }
    requires linked { PartLinked list.old.live ticket (λ t. In t leads.items) list.old.links }
    requires room { 0 < list.old.room }
    requires marks { vec_len marks.old < vec_capacity marks.old }
    ensures live { list.new.live ≡ list.old.live ++ (ticket, event) ∷ [] }
    ensures links { LinkedBehind list.old.live ticket leads.items list.new.links }
    ensures marks { marks.new.items ≡ marks.old.items ++ false ∷ [] }
{
    list.push(ticket, event, leads);
    marks.push_reserved(false);
}

/// Takes the live event of this ticket, on which no other depends, out of the list.
pub(crate) fn take_out(list: &mut LiveList, ticket: u64) -> Boxed<Event>
    requires rising { IsRising list.old.live }
    requires linked { Linked list.old.live list.old.links }
    requires live { IsLive list.old.live ticket }
    requires alone { NoDependent list.old.live ticket }
    ensures taken { (i : ℕ) × (slice_get list.old.live i ≡ Some (ticket, result))
        × (list.new.live ≡ remove list.old.live i) }
    ensures linked { Linked list.new.live list.new.links }
{
    let kept = list.take(ticket);
    unlink_all(list, kept.links.leads.as_slice(), ticket);
    kept.event
}
