// The branches that a run passes over: they had no step, and no step since could bring them one.
ghost use Rattle.std.specs.Prelude.{◌≡◌, ◌∷◌, [], ◌<◌, ◌≤◌, Some, IfSome, MatchOption};
ghost use Rattle.system_places.specs.SystemBranches.{branch_at};
ghost use Rattle.runs.specs.Events.{places_of};
ghost use Rattle.runs.specs.Moves.{Place};
ghost use Rattle.idle_branches.specs.internal.Known.{list_at};
ghost use Rattle.shell_desk.specs.internal.Sleeping.{AllSleep, AreGiven, FacesNow, NoneSleeps, SleepBehindEvent, SleepBehindPlaces, SleepButActing, SleepButFaced, SleepButFacedAt, SleepButThese, SleepsBehind, TellsNow, acting_on, faced_by};

use crate::marks::Marks;
use address::Address;
use idle_branches::{Ends, Glance, given_on, gives_what_is_known, glance_of, offers_behind};
use local_actions::LocalAction;
use locked_execution::{Event, Machine, Reply};
use std::alloc::Global;
use system::System;
use system_places::branch_at;

/// Where a look at a branch tells nothing, and it gives on so many channels at most, all that act on them are woken behind
/// its steps, and what it offers is not listed.
const FEW_CHANNELS: usize = 16;

/// Who sleeps in a run.
#[derive(Drop)]
pub(crate) struct Sleepers {
    pub(crate) asleep: Marks,
}

impl Sleepers {
    /// None of so many branches. Without memory none will ever sleep.
    pub(crate) fn none(alloc: Global, count: u32) -> Sleepers
        ensures { NoneSleeps result.asleep }
    {
        Sleepers {
            asleep: Marks::none(alloc, count),
        }
    }

    /// The first branch from one up to another that is awake.
    pub(crate) fn first_awake(&mut self, from: u32, to: u32) -> Option<u32>
        ensures next { MatchOption result (AllSleep self.new.asleep from to)
            (λ next. (from ≤ next) × (next < to) × AllSleep self.new.asleep from next) }
        ensures same { self.new ≡ self.old }
    {
        let next = (from as usize).saturating_add(self.asleep.asleep_from(from));
        if next < to as usize {
            Some(next as u32)
        } else {
            None
        }
    }

    /// Keeps in mind who sleeps behind this reply to a branch, which the machine gave last: the branch, where it has no
    /// step; behind a step no more those to whom it may have brought one, and who took part, where a look tells that it
    /// has none.
    pub(crate) fn note(&mut self, machine: &Machine, ends: &Ends, branch: u32, reply: &Reply)
        ensures { SleepsBehind ends.now machine.now branch reply.now self.old.asleep self.new.asleep }
    {
        match reply {
            Reply::Idle => self.asleep.lull(branch),
            Reply::Stepped(_, event) => self.settle(machine, ends, event),
            _ => {}
        }
    }

    /// Keeps in mind who sleeps behind the event: both branches that took part are looked at.
    fn settle(&mut self, machine: &Machine, ends: &Ends, event: &Event)
        ensures { SleepBehindEvent ends.now machine.now event.now self.old.asleep self.new.asleep }
    {
        self.settle_at(machine, ends, &event.first);
        self.settle_second(machine, ends, &event.second);
    }

    /// The same of a step at the place, if there is one.
    fn settle_second(&mut self, machine: &Machine, ends: &Ends, second: &Option<Address>)
        ensures { SleepBehindPlaces ends.now machine.now (places_of second.now) self.old.asleep self.new.asleep }
    {
        match second {
            Some(place) => self.settle_at(machine, ends, place),
            None => {}
        }
    }

    /// The same of a step at the place.
    fn settle_at(&mut self, machine: &Machine, ends: &Ends, place: &Address)
        ensures { SleepBehindPlaces ends.now machine.now (place.now ∷ []) self.old.asleep self.new.asleep }
    {
        match branch_at(machine.checked().system(), place) {
            Some(branch) => self.settle_branch(machine, ends, branch, place),
            None => self.asleep.wake_all(),
        }
    }

    /// The same, where the place lies in this branch. Where a look at the branch tells that it has no step, it falls
    /// asleep, else it is woken; and so are those that it faces: those that the look tells, or all that it may face.
    fn settle_branch(&mut self, machine: &Machine, ends: &Ends, branch: u32, place: &Address)
        requires { branch_at machine.now.checked place.now ≡ Some branch }
        ensures { SleepBehindPlaces ends.now machine.now (place.now ∷ []) self.old.asleep self.new.asleep }
    {
        match glance_at(machine, ends, branch) {
            Glance::Rests(faced) => {
                self.wake_faced_on(ends, faced);
                self.asleep.lull(branch);
            }
            Glance::Acts(faced) => {
                self.wake_faced_on(ends, faced);
                self.asleep.wake(branch);
            }
            Glance::Unknown => {
                self.asleep.wake(branch);
                self.wake_faced_at(machine, ends, place);
            }
        }
    }

    /// Wakes who acts on this channel, if there is one.
    fn wake_faced_on(&mut self, ends: &Ends, faced: Option<u32>)
        ensures { SleepButThese (acting_on ends.now faced) self.old.asleep self.new.asleep }
    {
        match faced {
            Some(channel) => self.wake_on(ends, channel),
            None => {}
        }
    }

    /// Wakes who acts on a channel whose other side is offered behind the place, and perhaps others.
    fn wake_faced_at(&mut self, machine: &Machine, ends: &Ends, place: &Address)
        ensures { SleepButFacedAt ends.now machine.now place.now self.old.asleep self.new.asleep }
    {
        gives_what_is_known();
        match few_given(machine.checked().system(), ends, place) {
            Some(channels) => self.wake_acting(ends, channels),
            None => self.wake_offered_at(machine, ends, place),
        }
    }

    /// Wakes who acts on one of these channels.
    fn wake_acting(&mut self, ends: &Ends, channels: &[u32])
        ensures { SleepButActing ends.now channels.now self.old.asleep self.new.asleep }
    {
        for channel in channels {
            self.wake_on(ends, *channel);
        }
    }

    /// Wakes who acts on the channel.
    fn wake_on(&mut self, ends: &Ends, channel: u32)
        ensures { SleepButThese (list_at ends.now.used.acting.items channel)
            self.old.asleep self.new.asleep }
    {
        self.wake_each(ends.acting_on(channel));
    }

    /// Wakes who acts on a channel whose other side is offered behind the place; without memory all.
    fn wake_offered_at(&mut self, machine: &Machine, ends: &Ends, place: &Address)
        ensures { SleepButFacedAt ends.now machine.now place.now self.old.asleep self.new.asleep }
    {
        machine.is_sound();
        let (tree, store) = machine.state();
        match offers_behind(self.asleep.alloc(), tree, store, place.entries()) {
            Ok(offers) => self.wake_faced(ends, offers.as_slice()),
            Err(_) => self.asleep.wake_all(),
        }
    }

    /// Wakes who acts on a channel at whose other side one of these is.
    fn wake_faced(&mut self, ends: &Ends, offers: &[LocalAction])
        ensures { SleepButFaced ends.now offers.now self.old.asleep self.new.asleep }
    {
        for offer in offers {
            self.wake_each(faced_by(ends, offer));
        }
    }

    /// Wakes these.
    fn wake_each(&mut self, branches: &[u32])
        ensures { SleepButThese branches.now self.old.asleep self.new.asleep }
    {
        for branch in branches {
            self.asleep.wake(*branch);
        }
    }
}

/// What a look at the branch tells.
fn glance_at(machine: &Machine, ends: &Ends, branch: u32) -> Glance
    ensures rests { TellsNow result ends.now machine.now branch }
    ensures faced { (a : Place) → branch_at machine.now.checked a ≡ Some branch → FacesNow result machine.now a }
{
    machine.is_sound();
    let (tree, _) = machine.state();
    glance_of(ends, machine.checked().system(), tree, branch)
}

/// The channels on which the branch gives in which the place lies, where they are few.
fn few_given<'a>(system: &System, ends: &'a Ends, place: &Address) -> Option<&'a [u32]>
    ensures { IfSome result (λ channels. AreGiven system.now ends.now place.now channels.now) }
{
    match branch_at(system, place) {
        Some(branch) => few_of(ends.given_by(branch)),
        None => None,
    }
}

/// These, where they are few.
fn few_of(channels: &[u32]) -> Option<&[u32]>
    ensures { IfSome result (λ few. few.now ≡ channels.now) }
{
    if channels.len() <= FEW_CHANNELS {
        Some(channels)
    } else {
        None
    }
}

/// The branches that act on a channel at whose other side the action is.
fn faced_by<'a>(ends: &'a Ends, offer: &LocalAction) -> &'a [u32]
    ensures { result.now ≡ faced_by ends.now offer.now }
{
    match given_on(&offer.action) {
        Some(channel) => ends.acting_on(channel),
        None => &[],
    }
}
