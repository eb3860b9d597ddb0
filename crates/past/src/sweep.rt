// One sweep down over the live events, from the one that is asked for to the first: it marks what each of them follows,
// and lists what is marked as it comes to it.
ghost use Rattle.std.specs.Prelude.{◌≡◌, ◌<◌, ◌++◌, ◌∷◌, [], ◌⊎◌, ◌↔◌, ℕ, length, true, Some, slice_get, IfOk, OnOk};
ghost use Rattle.syntax.specs.Lists.{In};
ghost use Rattle.runs.specs.Live.{IsLive};
ghost use Rattle.dependence.specs.internal.Marking.{MarkedAt};
ghost use Rattle.dependence.specs.internal.Tables.{IsRising, StandsAt};
ghost use Rattle.past.specs.declared.past.PastEvent.{PastEvent};
ghost use Rattle.past.specs.Past.{Tells};
ghost use Rattle.past.specs.internal.Swept.{FollowsAt, IsWhole, ListsDown};

use crate::past::PastEvent;
use dependence::Live;
use runs::Event;
use std::alloc::{AllocError, Global};
use syntax::Items;

/// The live event of this ticket and those that it depends on, in order of tickets, each with those that it follows.
pub(crate) fn whole_past(
    alloc: Global,
    live: &Live,
    ticket: u64,
) -> Result<Items<PastEvent>, AllocError>
    requires { IsLive live.now.live ticket }
    ensures { IfOk result (λ events. IsWhole live.now.live ticket events) }
{
    let mut marks = no_marks(alloc, live.len())?;
    let mut events = Vec::new(alloc);
    sweep_down(alloc, live, ticket, marks.as_mut_slice(), &mut events)?;
    events.reverse();
    Ok(Items::from_vec(events))
}

/// So many marks, of which none is set.
pub(crate) fn no_marks(alloc: Global, count: usize) -> Result<Vec<bool>, AllocError>
    ensures size { IfOk result (λ marks. length marks.items ≡ count) }
    ensures none { IfOk result (λ marks. (i : ℕ) → slice_get marks.items i ≡ Some true → ⊥) }
{
    Ok(vec![in alloc; false; count]?)
}

/// Lists the event of this ticket and those that it depends on from the last to the first, where nothing is marked and
/// listed.
fn sweep_down(
    alloc: Global,
    live: &Live,
    ticket: u64,
    marks: &mut [bool],
    events: &mut Vec<PastEvent>,
) -> Result<(), AllocError>
    requires live { IsLive live.now.live ticket }
    requires size { length marks.old ≡ length live.now.live }
    requires none { (i : ℕ) → slice_get marks.old i ≡ Some true → ⊥ }
    requires empty { events.old.items ≡ [] }
    ensures { OnOk result (ListsDown live.now.live ticket 0 events.new.items) }
{
    live.is_sound();
    let mut index = index_of_live(live, ticket);
    marks[index] = true;
    index += 1;
    while index > 0 {
        index -= 1;
        if marks[index] {
            let event = event_at(alloc, live, index)?;
            mark_all(live, marks, event.causes.as_slice());
            events.push(event)?;
        }
    }
    Ok(())
}

/// The live event at this index, with those that it follows.
fn event_at(alloc: Global, live: &Live, index: usize) -> Result<PastEvent, AllocError>
    requires { index < length live.now.live }
    ensures { IfOk result (λ made. (made.index ≡ index) × Tells live.now.live made × FollowsAt live.now.live made) }
{
    match live.pair_at(index as u64) {
        Some((ticket, event)) => past_event(alloc, live, index, ticket, event),
        None => unreachable!(),
    }
}

/// The live event of this ticket, which stands at this index, with those that it follows.
fn past_event(
    alloc: Global,
    live: &Live,
    index: usize,
    ticket: u64,
    event: &Event,
) -> Result<PastEvent, AllocError>
    requires { slice_get live.now.live index ≡ Some (ticket, event.now) }
    ensures { IfOk result (λ made. (made.index ≡ index) × Tells live.now.live made × FollowsAt live.now.live made) }
{
    let causes = Items::from_vec(Vec::from_slice(alloc, live.leads(ticket))?);
    let carries = event.value.is_some();
    Ok(PastEvent {
        ticket,
        index,
        carries,
        causes,
    })
}

/// Marks the events of these tickets beside those that are marked.
fn mark_all(live: &Live, marks: &mut [bool], tickets: &[u64])
    requires rising { IsRising live.now.live }
    requires live { (t : ℕ) → In t tickets.now → IsLive live.now.live t }
    requires size { length marks.old ≡ length live.now.live }
    ensures { (u : ℕ) → MarkedAt live.now.live marks.new u ↔ (MarkedAt live.now.live marks.old u ⊎ In u tickets.now) }
{
    for ticket in tickets {
        let index = index_of_live(live, *ticket);
        marks[index] = true;
    }
}

/// Where the live event of this ticket stands.
fn index_of_live(live: &Live, ticket: u64) -> usize
    requires { IsLive live.now.live ticket }
    ensures { StandsAt live.now.live ticket result }
{
    match live.index_of(ticket) {
        Some(index) => index,
        None => unreachable!(),
    }
}
