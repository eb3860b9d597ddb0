// The tables as one: what is asked of them, an event more, an event less.
ghost use Rattle.std.specs.Prelude.{◌≡◌, ◌<◌, ◌++◌, ◌∷◌, [], ℕ, true, vec_len, MatchOption, IfOk, IfErr, OnOk, OnErr};
ghost use Rattle.std.specs.Vec.{vec_capacity};
ghost use Rattle.runs.specs.Dependence.{Without};
ghost use Rattle.runs.specs.Live.{Rising, LiveAt, NoDependent, FirstDependent, WithoutTickets, IsLive, LastWriter, NoWriter};
ghost use Rattle.dependence.specs.Behind.{ComesBehind};
ghost use Rattle.dependence.specs.Followers.{ListsFollowers, ListsLeads};
ghost use Rattle.dependence.specs.Shown.{tickets_marked};
ghost use Rattle.dependence.specs.internal.Marking.{EndsAt};
ghost use Rattle.dependence.specs.internal.Tables.{IsRising, Linked};
ghost use Rattle.dependence.specs.internal.Tabled.{IsTabled, TablesOf, MoreTables};
ghost use Rattle.dependence.specs.internal.Whole.{IsWhole, IsEntered};

use crate::accesses::NewEvent;
use crate::entries::{leads_of, make_room, push_event, take_out};
use crate::links::{Leads, link_all};
use crate::live_list::LiveList;
use crate::marks::remove_mark;
use crate::puts::put_places;
use crate::tables::Tables;
use runs::{Event, writes};
use std::alloc::{AllocError, Global};
use syntax::Boxed;

/// The tickets of the followers of the live event of this ticket.
#[inline(always)]
pub(crate) fn followers_of<'a>(list: &'a LiveList, ticket: u64) -> &'a [u64]
    requires rising { IsRising list.now.live }
    requires linked { Linked list.now.live list.now.links }
    requires live { IsLive list.now.live ticket }
    ensures { ListsFollowers list.now.live ticket result.now }
{
    list.links_of(ticket).followers.as_slice()
}

/// The tickets of the live events that the one of this ticket follows.
pub(crate) fn leads_at<'a>(list: &'a LiveList, ticket: u64) -> &'a [u64]
    requires rising { IsRising list.now.live }
    requires linked { Linked list.now.live list.now.links }
    requires live { IsLive list.now.live ticket }
    ensures { ListsLeads list.now.live ticket result.now }
{
    list.links_of(ticket).leads.as_slice()
}

/// The least ticket of another live event that depends on the one of this ticket.
pub(crate) fn least_dependent(list: &LiveList, ticket: u64) -> Option<u64>
    requires rising { IsRising list.now.live }
    requires linked { Linked list.now.live list.now.links }
    requires live { IsLive list.now.live ticket }
    ensures { MatchOption result (NoDependent list.now.live ticket) (λ u. FirstDependent list.now.live ticket u) }
{
    followers_of(list, ticket).first().copied()
}

/// The ticket of the last live event that writes the variable. The last of all is looked at itself, since the table is
/// asked below a ticket, and none may be above the greatest.
pub(crate) fn last_writer(list: &LiveList, tables: &Tables, variable: u32) -> Option<u64>
    requires rising { IsRising list.now.live }
    requires tables { TablesOf list.now.live tables.now }
    ensures { MatchOption result (NoWriter list.now.live variable) (λ t. LastWriter list.now.live variable t) }
{
    let Some(last) = list.last() else {
        return None;
    };
    if writes(last.1, variable) {
        return Some(last.0);
    }
    tables.writers.last(variable, last.0)
}

/// Adds an event under a ticket that is greater than every live one. Without memory for it nothing has changed but
/// `found`, in which is looked for what it follows.
pub(crate) fn add_event(
    alloc: Global,
    list: &mut LiveList,
    marks: &mut Vec<bool>,
    tables: &mut Tables,
    found: &mut Vec<u64>,
    ticket: u64,
    event: Boxed<Event>,
) -> Result<(), Boxed<Event>>
    requires whole { IsWhole list.old.live list.old.links marks.old.items }
    requires tabled { IsTabled list.old.live tables.old }
    requires above { (t : ℕ) (e : Event) → LiveAt list.old.live t e → t < ticket }
    requires behind { ComesBehind list.old.live event }
    ensures whole { IsWhole list.new.live list.new.links marks.new.items }
    ensures tabled { IsTabled list.new.live tables.new }
    ensures ended { (end : ℕ) → EndsAt marks.old.items end → EndsAt marks.new.items end }
    ensures added { OnOk result ((list.new.live ≡ list.old.live ++ (ticket, event) ∷ [])
        × (tickets_marked list.new.live marks.new.items ≡ tickets_marked list.old.live marks.old.items)) }
    ensures refused { IfErr result (λ back. (back ≡ event) × (list.new.live ≡ list.old.live)
        × (marks.new.items ≡ marks.old.items)) }
{
    match enter(alloc, list, marks, tables, found, ticket, event.get()) {
        Ok(leads) => {
            push_event(list, marks, ticket, event, leads);
            Ok(())
        }
        Err(_) => {
            tables.remove(ticket, event.get());
            Err(event)
        }
    }
}

/// Puts an event into the tables and the followers of those that it follows, and makes room for it and its mark; what it
/// follows. Without memory for all that, what there is memory for is in the tables, and nothing is linked. In `found` it
/// is looked for.
fn enter(
    alloc: Global,
    list: &mut LiveList,
    marks: &mut Vec<bool>,
    tables: &mut Tables,
    found: &mut Vec<u64>,
    ticket: u64,
    event: &Event,
) -> Result<Leads, AllocError>
    requires rising { Rising 0 list.old.live ticket }
    requires linked { Linked list.old.live list.old.links }
    requires tabled { IsTabled list.old.live tables.old }
    requires behind { ComesBehind list.old.live event.now }
    ensures live { list.new.live ≡ list.old.live }
    ensures marks { marks.new.items ≡ marks.old.items }
    ensures more { MoreTables tables.old ticket event.now tables.new }
    ensures entered { IfOk result (λ leads.
        IsEntered list.old.live ticket event.now leads.items list.new.links tables.new) }
    ensures room { OnOk result ((0 < list.new.room) × (vec_len marks.new < vec_capacity marks.new)) }
    ensures refused { OnErr result (Linked list.old.live list.new.links) }
{
    found.clear();
    put_places(&mut tables.places, ticket, event, found)?;
    let new = NewEvent {
        list,
        tables,
        ticket,
        event,
    };
    let leads = leads_of(alloc, &new, found)?;
    make_room(list, marks)?;
    tables.put_uses(ticket, event)?;
    link_all(list, leads.as_slice(), ticket)?;
    Ok(leads)
}

/// Takes out the live event of this ticket, on which no other live event depends, with its mark. At `end` is where the
/// marks that are set end.
pub(crate) fn take_event(
    list: &mut LiveList,
    marks: &mut Vec<bool>,
    end: &mut usize,
    tables: &mut Tables,
    ticket: u64,
) -> Boxed<Event>
    requires whole { IsWhole list.old.live list.old.links marks.old.items }
    requires ended { EndsAt marks.old.items end.old }
    requires tabled { IsTabled list.old.live tables.old }
    requires live { IsLive list.old.live ticket }
    requires alone { NoDependent list.old.live ticket }
    ensures whole { IsWhole list.new.live list.new.links marks.new.items }
    ensures tabled { IsTabled list.new.live tables.new }
    ensures ended { EndsAt marks.new.items end.new }
    ensures event { LiveAt list.old.live ticket result }
    ensures live { WithoutTickets (λ t. t ≡ ticket) list.old.live list.new.live }
    ensures marked { Without
        (λ t. t
        ≡ ticket) (tickets_marked list.old.live marks.old.items) (tickets_marked list.new.live marks.new.items) }
{
    *end = remove_mark(list, marks, *end, ticket);
    let event = take_out(list, ticket);
    tables.remove(ticket, event.get());
    event
}
