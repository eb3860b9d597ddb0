// The events that wait for none that is left, and for how many each of the others waits.
ghost use Rattle.std.specs.Prelude.{◌≡◌, ◌<◌, ℕ, length, Some, slice_get, IfOk};
ghost use Rattle.std.specs.BinaryHeap.{heap_items};
ghost use Rattle.runs.specs.Live.{IsLive};
ghost use Rattle.runs.specs.declared.event.Event.{Event};
ghost use Rattle.dependence.specs.internal.Tables.{IsRising};
ghost use Rattle.trace_file.specs.internal.Waiting.{Counts, IsQueue, SomeTelling, TellsAll, TellsOne, CanTell, Joins};

use address::Entry;
use dependence::Live;
use runs::Event;
use std::alloc::{AllocError, Global};
use std::cmp::Reverse;
use std::collections::BinaryHeap;

/// An event that waits for none: its acting address, and its index among the live events.
#[derive(Clone, Copy, PartialEq, Eq, PartialOrd, Ord)]
pub(crate) struct Free<'a> {
    acting: &'a [Entry],
    pub(crate) index: usize,
}

/// Events that wait for none, of which that of the least acting address comes first.
pub(crate) type Queue<'a> = BinaryHeap<Reverse<Free<'a>>>;

/// How many events each live event follows.
pub(crate) fn leads_of_all(alloc: Global, live: &Live) -> Result<Vec<usize>, AllocError>
    ensures { IfOk result (λ left. Counts live.now.live (λ (t : ℕ) (u : ℕ). IsLive live.now.live t) left.items) }
{
    let mut left = Vec::new(alloc);
    for (ticket, _) in live.iter() {
        left.push(live.leads(ticket).len())?;
    }
    Ok(left)
}

/// The events that follow none.
pub(crate) fn first_free<'a>(
    alloc: Global,
    live: &'a Live,
    left: &[usize],
) -> Result<Queue<'a>, AllocError>
    requires rising { IsRising live.now.live }
    requires size { length left.now ≡ length live.now.live }
    ensures { IfOk result (λ free. IsQueue live.now.live live.now.live left.now (heap_items free)) }
{
    let mut free = BinaryHeap::new(alloc);
    for index in 0..left.len() {
        if left[index] == 0 {
            add_free(live, index, &mut free)?;
        }
    }
    Ok(free)
}

/// Tells the followers of the event at this index that the event was taken.
pub(crate) fn tell_followers<'a>(
    live: &'a Live,
    index: usize,
    left: &mut [usize],
    free: &mut Queue<'a>,
) -> Result<(), AllocError>
    requires rising { IsRising live.now.live }
    requires telling { SomeTelling live.now.live index left.old (heap_items free.old) }
    ensures { IfOk result (λ _.
        TellsAll live.now.live index left.old (heap_items free.old) left.new (heap_items free.new)) }
{
    for follower in live.followers(ticket_at(live, index)) {
        tell(live, index_of(live, *follower), left, free)?;
    }
    Ok(())
}

/// Tells the event at this index that one of those that it follows was taken.
fn tell<'a>(
    live: &'a Live,
    index: usize,
    left: &mut [usize],
    free: &mut Queue<'a>,
) -> Result<(), AllocError>
    requires { CanTell live.now.live left.old index }
    ensures { IfOk result (λ _.
        TellsOne live.now.live index left.old (heap_items free.old) left.new (heap_items free.new)) }
{
    left[index] -= 1;
    if left[index] == 0 {
        add_free(live, index, free)?;
    }
    Ok(())
}

/// Puts the event at this index into the queue.
fn add_free<'a>(live: &'a Live, index: usize, free: &mut Queue<'a>) -> Result<(), AllocError>
    requires { index < length live.now.live }
    ensures { IfOk result (λ _. Joins live.now.live index (heap_items free.old) (heap_items free.new)) }
{
    let acting = event_at(live, index).acting_place().entries();
    free.push(Reverse(Free { acting, index }))?;
    Ok(())
}

/// The ticket of the live event at this index.
fn ticket_at(live: &Live, index: usize) -> u64
    requires { index < length live.now.live }
    ensures { (e : Event) × (slice_get live.now.live index ≡ Some (result, e)) }
{
    match live.pair_at(index as u64) {
        Some((ticket, _)) => ticket,
        None => unreachable!(),
    }
}

/// The live event at this index.
fn event_at(live: &Live, index: usize) -> &Event
    requires { index < length live.now.live }
    ensures { (t : ℕ) × (slice_get live.now.live index ≡ Some (t, result.now)) }
{
    match live.pair_at(index as u64) {
        Some((_, event)) => event,
        None => unreachable!(),
    }
}

/// Where the live event of this ticket stands.
fn index_of(live: &Live, ticket: u64) -> usize
    requires { IsLive live.now.live ticket }
    ensures { (f : Event) × (slice_get live.now.live result ≡ Some (ticket, f)) }
{
    match live.index_of(ticket) {
        Some(index) => index,
        None => unreachable!(),
    }
}
