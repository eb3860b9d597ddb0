// The live events with their links, by ticket in one map.
ghost use Rattle.std.specs.Prelude.{◌≡◌, ◌<◌, ◌+◌, ◌-◌, ◌^◌, ◌++◌, ◌∷◌, [], ℕ, length, drop, Some, None, slice_get, MatchOption, MatchResult, OnOk};
ghost use Rattle.syntax.specs.Lists.{In};
ghost use Rattle.slots.specs.Places.{filled, rank, RiseFrom, Counted, EndsFilled, IsOf};
ghost use Rattle.std.specs.List.{remove};
ghost use Rattle.runs.specs.InOrder.{InOrder};
ghost use Rattle.runs.specs.Live.{LiveAt, NoneAt, IsLive, Rising};
ghost use Rattle.runs.specs.declared.event.Event.{Event};
ghost use Rattle.dependence.specs.declared.links.Links.{Links};
ghost use Rattle.dependence.specs.internal.Listed.{events_kept, links_kept, SameLive, LinksOf, TakenOut};
ghost use Rattle.dependence.specs.internal.Tables.{IsRising, StandsAt, FollowersChanged, Removed};

use crate::kept::Kept;
use crate::links::{Leads, Links, remove};
use crate::live_events::LiveEvents;
use runs::Event;
use slots::{Slots, close_up, cut_end, find, index_at, make_room, place_at, push, take_at};
use smallvec::SmallVec;
use std::alloc::{AllocError, Global};
use std::marker::Model;
use syntax::Boxed;

/// The live events in order of tickets, each with its links. One that is taken out leaves its place empty; once half
/// are empty the places are closed up.
#[derive(Drop)]
pub(crate) struct LiveList {
    alloc: Global,
    slots: Slots<Kept>,
    /// of each block of places how many are not empty
    counts: Vec<u8>,
    count: usize,
}

impl Model for LiveList {
    ghost use Rattle.std.specs.Prelude.{length};
    ghost use Rattle.indexmap.specs.IndexMap.{spare};
    ghost use Rattle.dependence.specs.internal.Listed.{Listed, listed, IsListed};

    ghost Value = { Listed };

    ghost view = { λ list. listed list.slots.entries (spare list.slots) (length list.counts.items) };

    ghost invariant = { λ list. IsListed list.slots.entries list.counts.items list.count };
}

impl LiveList {
    /// No events. It takes no memory yet.
    pub(crate) fn new(alloc: Global) -> LiveList
        ensures live { result.live ≡ [] }
        ensures links { result.links ≡ [] }
    {
        LiveList {
            alloc,
            slots: Slots::new(alloc),
            counts: Vec::new(alloc),
            count: 0,
        }
    }

    /// How many events there are.
    pub(crate) fn len(&self) -> usize
        ensures events { result ≡ length self.now.live }
        ensures links { length self.now.links ≡ length self.now.live }
    {
        self.count
    }

    /// The places.
    pub(crate) fn places(&self) -> &Slots<Kept>
        ensures live { events_kept (filled result.now.entries) ≡ self.now.live }
        ensures links { links_kept (filled result.now.entries) ≡ self.now.links }
        ensures rising { RiseFrom 0 result.now.entries }
    {
        &self.slots
    }

    /// The events, one after another.
    pub(crate) fn iter(&self) -> LiveEvents<'_>
        ensures events { result ≡ self.now.live }
        ensures fits { length result < 2 ^ 64 }
    {
        LiveEvents::of(self.slots.as_slice())
    }

    /// The events from the one of this ticket on.
    pub(crate) fn iter_from(&self, ticket: u64) -> LiveEvents<'_>
        requires { IsLive self.now.live ticket }
        ensures events { (i : ℕ) × StandsAt self.now.live ticket i × (result ≡ drop i self.now.live) }
        ensures fits { length result < 2 ^ 64 }
    {
        let place = place_of(&self.slots, ticket);
        LiveEvents::of(self.slots.as_slice().split_at(place).1)
    }

    /// Where the event of this ticket stands.
    pub(crate) fn index_of(&self, ticket: u64) -> Option<usize>
        ensures { MatchOption result (NoneAt self.now.live ticket) (λ i. StandsAt self.now.live ticket i) }
    {
        let place = find(&self.slots, ticket)?;
        Some(index_at(&self.slots, self.counts.as_slice(), self.count, place))
    }

    /// Where the live event of this ticket stands.
    pub(crate) fn index_of_live(&self, ticket: u64) -> usize
        requires { IsLive self.now.live ticket }
        ensures { StandsAt self.now.live ticket result }
    {
        match self.index_of(ticket) {
            Some(index) => index,
            None => unreachable!(),
        }
    }

    /// The ticket at an index.
    #[inline(always)]
    pub(crate) fn ticket_at(&self, index: usize) -> u64
        requires { index < length self.now.live }
        ensures { (e : Event) × (slice_get self.now.live index ≡ Some (result, e)) }
    {
        let (ticket, _) = self.kept_at(index);
        ticket
    }

    /// The ticket and the event at an index.
    pub(crate) fn pair_at(&self, index: usize) -> (u64, &Event)
        requires { index < length self.now.live }
        ensures { slice_get self.now.live index ≡ Some (result.0, result.1.now) }
    {
        let (ticket, kept) = self.kept_at(index);
        (ticket, kept.event.get())
    }

    /// The links of the event at an index.
    #[inline(always)]
    pub(crate) fn links_at(&self, index: usize) -> &Links
        requires { index < length self.now.live }
        ensures { slice_get self.now.links index ≡ Some result.now }
    {
        let (_, kept) = self.kept_at(index);
        &kept.links
    }

    /// The ticket and the links of the event at an index.
    #[inline(always)]
    pub(crate) fn linked_at(&self, index: usize) -> (u64, &Links)
        requires { index < length self.now.live }
        ensures ticket { (e : Event) × (slice_get self.now.live index ≡ Some (result.0, e)) }
        ensures links { slice_get self.now.links index ≡ Some result.1.now }
    {
        let (ticket, kept) = self.kept_at(index);
        (ticket, &kept.links)
    }

    /// The ticket, the event and the links at an index.
    #[inline(always)]
    fn kept_at(&self, index: usize) -> (u64, &Kept)
        requires { index < length self.now.live }
        ensures event { slice_get self.now.live index ≡ Some (result.0, result.1.now.event) }
        ensures links { slice_get self.now.links index ≡ Some result.1.now.links }
    {
        let place = place_at(&self.slots, self.counts.as_slice(), self.count, index);
        match self.slots.get_index(place) {
            Some((ticket, Some(kept))) => (*ticket, kept),
            _ => unreachable!(),
        }
    }

    /// The last event with its ticket.
    pub(crate) fn last(&self) -> Option<(u64, &Event)>
        ensures { MatchOption result (self.now.live ≡ []) (λ last.
            slice_get self.now.live (length self.now.live - 1) ≡ Some (last.0, last.1.now)) }
    {
        match self.slots.last() {
            Some((ticket, Some(kept))) => Some((*ticket, kept.event.get())),
            _ => None,
        }
    }

    /// The live event of this ticket.
    #[inline(always)]
    pub(crate) fn event_of(&self, ticket: u64) -> &Event
        requires { IsLive self.now.live ticket }
        ensures { LiveAt self.now.live ticket result.now }
    {
        let kept = kept_of(&self.slots, ticket);
        kept.event.get()
    }

    /// The links of the live event of this ticket.
    #[inline(always)]
    pub(crate) fn links_of(&self, ticket: u64) -> &Links
        requires { IsLive self.now.live ticket }
        ensures { LinksOf self.now ticket result.now }
    {
        let kept = kept_of(&self.slots, ticket);
        &kept.links
    }

    /// Room for one more event with its links. Without memory nothing changes.
    pub(crate) fn make_room(&mut self) -> Result<(), AllocError>
        ensures live { self.new.live ≡ self.old.live }
        ensures links { self.new.links ≡ self.old.links }
        ensures room { OnOk result (0 < self.new.room) }
    {
        make_room(&mut self.slots, &mut self.counts)
    }

    /// Puts an event behind the others that follows the events of these tickets, where there is room for it.
    pub(crate) fn push(&mut self, ticket: u64, event: Boxed<Event>, leads: Leads)
        requires rising { Rising 0 self.old.live ticket }
        requires room { 0 < self.old.room }
        ensures live { self.new.live ≡ self.old.live ++ (ticket, event) ∷ [] }
        ensures links { (m : Links) × (self.new.links ≡ self.old.links ++ m ∷ []) × (m.followers.items ≡ [])
            × (m.leads.items ≡ leads.items) }
    {
        let links = Links {
            followers: SmallVec::new(self.alloc),
            leads,
        };
        let kept = Kept { event, links };
        // The length is what says that the count fits.
        let _len = self.slots.len();
        push(&mut self.slots, self.counts.as_mut_slice(), ticket, kept);
        self.count += 1;
    }

    /// Puts the ticket behind the followers of the live event `lead`. Without memory for it they stay.
    pub(crate) fn add_follower(&mut self, lead: u64, ticket: u64) -> Result<(), AllocError>
        requires { IsLive self.old.live lead }
        ensures same { SameLive self.old self.new }
        ensures changed { MatchResult result
            (λ _. FollowersChanged self.old.live lead (λ before after. after ≡ before ++ ticket ∷ []) self.old.links self.new.links)
            (λ _. FollowersChanged self.old.live lead (λ before after. after ≡ before) self.old.links self.new.links) }
    {
        let place = place_of(&self.slots, lead);
        match &mut self.slots[place] {
            Some(kept) => {
                kept.links.followers.push(ticket)?;
                Ok(())
            }
            None => unreachable!(),
        }
    }

    /// Takes the ticket out of the followers of the live event `lead`, which ascend.
    pub(crate) fn remove_follower(&mut self, lead: u64, ticket: u64)
        requires live { IsLive self.old.live lead }
        requires ordered { (m : Links) → LinksOf self.old lead m → InOrder ◌<◌ m.followers.items }
        ensures same { SameLive self.old self.new }
        ensures changed { FollowersChanged self.old.live lead (Removed ticket) self.old.links self.new.links }
    {
        let place = place_of(&self.slots, lead);
        match &mut self.slots[place] {
            Some(kept) => remove(&mut kept.links.followers, ticket),
            None => unreachable!(),
        }
    }

    /// Takes the live event of this ticket out with its links.
    pub(crate) fn take(&mut self, ticket: u64) -> Kept
        requires { IsLive self.old.live ticket }
        ensures { (i : ℕ) × TakenOut self.old self.new ticket i result }
    {
        let place = place_of(&self.slots, ticket);
        let kept = take_at(&mut self.slots, self.counts.as_mut_slice(), place);
        self.count -= 1;
        settle(&mut self.slots, &mut self.counts, self.count);
        kept
    }
}

/// The place of the live event of this ticket.
#[inline(always)]
pub(crate) fn place_of(slots: &Slots<Kept>, ticket: u64) -> usize
    requires rising { RiseFrom 0 slots.now.entries }
    requires live { IsLive (events_kept (filled slots.now.entries)) ticket }
    ensures { IsOf slots.now.entries ticket result }
{
    match find(slots, ticket) {
        Some(place) => place,
        None => unreachable!(),
    }
}

/// What is kept of the live event of this ticket.
#[inline(always)]
fn kept_of(slots: &Slots<Kept>, ticket: u64) -> &Kept
    requires rising { RiseFrom 0 slots.now.entries }
    requires live { IsLive (events_kept (filled slots.now.entries)) ticket }
    ensures { (place : ℕ) × (slice_get slots.now.entries place ≡ Some (ticket, Some result.now)) }
{
    match &slots[place_of(slots, ticket)] {
        Some(kept) => kept,
        None => unreachable!(),
    }
}

/// Takes away empty places at the end, and all of them once half are empty.
fn settle(slots: &mut Slots<Kept>, counts: &mut Vec<u8>, count: usize)
    requires rising { RiseFrom 0 slots.old.entries }
    requires counted { Counted slots.old.entries counts.old.items }
    ensures rising { RiseFrom 0 slots.new.entries }
    ensures counted { Counted slots.new.entries counts.new.items }
    ensures filled { filled slots.new.entries ≡ filled slots.old.entries }
    ensures last { EndsFilled slots.new.entries }
{
    cut_end(slots, counts.as_slice());
    if count < slots.len() / 2 {
        close_up(slots, counts.as_mut_slice());
    }
}
