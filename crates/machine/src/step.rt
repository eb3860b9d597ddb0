// Taking one event.
ghost use Rattle.std.specs.Prelude.{◌≡◌, ◌≤◌, ◌<◌, ◌∷◌, ◌++◌, [], ℕ, List, Some, suc, length, MatchOption, IfOk, IfErr, OnOk, OnErr};
ghost use Rattle.sharing_check.specs.declared.checked.Checked.{Checked};
ghost use Rattle.runs.specs.Steps.{Allowed};
ghost use Rattle.runs.specs.InOrder.{InOrder};
ghost use Rattle.runs.specs.Live.{LiveAt};
ghost use Rattle.runs.specs.Object.{Reaches, most_live, last_ticket, with_event};
ghost use Rattle.runs.specs.Ready.{ReadyList};
ghost use Rattle.runs.specs.Does.{Answers};
ghost use Rattle.runs.specs.Commands.{Command};
ghost use Rattle.machine.specs.Results.{step_reply};
ghost use Rattle.local_actions.specs.Actions.{OffersExactly, Precedes};
ghost use Rattle.dependence.specs.Behind.{ComesBehind};
ghost use Rattle.event_inverse.specs.Grown.{TreeAndStore, state_of_tree, applied};
ghost use Rattle.event_inverse.specs.View.{inverse_view};
ghost use Rattle.event_inverse.specs.declared.record.Inverse.{Inverse};
ghost use Rattle.machine.specs.internal.Choosing.{IsLimit, TakesFound};
ghost use Rattle.machine.specs.internal.Histories.{execution, tree_of, Holds, KnowsUses};
ghost use Rattle.machine.specs.internal.Entering.{Entered, NotEntered};

use crate::history::History;
use crate::reply::in_vec;
use allowed_events::{event_with, ready_events};
use channel_uses::ChannelUses;
use event_inverse::{Inverse, apply_by, invert_by};
use local_actions::{LocalAction, actions_of};
use rows::Rows;
use runs::{Choice, Event, LAST_TICKET, MOST_LIVE_EVENTS, Refusal};
use sharing_check::Checked;
use std::alloc::{AllocError, Global};
use syntax::{Boxed, Items};

impl History {
    /// Takes the event that the choice means.
    pub(crate) fn step(
        &mut self,
        alloc: Global,
        system: &Checked,
        uses: &ChannelUses,
        choice: &Choice,
    ) -> Result<(u64, Event), Refusal>
        requires holds { Holds system.now self.old }
        requires uses { KnowsUses system.now uses.now }
        ensures answers { Answers (execution system.now self.old) (Command.Step choice.now) (step_reply result)
            (execution system.now self.new) }
        ensures holds { Holds system.now self.new }
        ensures marked { self.new.live.marked ≡ self.old.live.marked }
    {
        match event_with(alloc, uses, &self.tree, &self.store, choice) {
            Ok(found) => self.take_found(alloc, system, found),
            Err(_) => Err(Refusal::Memory),
        }
    }

    /// Takes the event that was found, where the limits leave room for it. There may be no memory for an event that is
    /// taken, and for no other.
    fn take_found(
        &mut self,
        alloc: Global,
        system: &Checked,
        found: Option<Event>,
    ) -> Result<(u64, Event), Refusal>
        requires holds { Holds system.now self.old }
        requires allowed { (e : Event) → found ≡ Some e → Allowed (state_of_tree (tree_of self.old)) e }
        ensures taken { TakesFound (execution system.now self.old) found result (execution system.now self.new) }
        ensures holds { Holds system.now self.new }
        ensures marked { self.new.live.marked ≡ self.old.live.marked }
    {
        let Some(event) = found else {
            return Err(Refusal::NotReady);
        };
        if let Some(why) = self.limit() {
            return Err(why);
        }
        self.add(alloc, system, event)
    }

    /// Why no event is taken, where one is found, but the limits leave no room for it.
    pub(crate) fn limit(&self) -> Option<Refusal>
        ensures { MatchOption result ((length self.now.live.live < most_live) × (self.now.next ≤ last_ticket)) (λ why.
            IsLimit (length self.now.live.live) self.now.next why) }
    {
        if self.live.len() as u64 >= MOST_LIVE_EVENTS {
            return Some(Refusal::HistoryFull);
        }
        if self.next > LAST_TICKET {
            return Some(Refusal::Spent);
        }
        None
    }

    /// Makes the event, and enters it under the next ticket. The copy that is told is made first.
    #[inline(always)]
    pub(crate) fn add(
        &mut self,
        alloc: Global,
        system: &Checked,
        event: Event,
    ) -> Result<(u64, Event), Refusal>
        requires holds { Holds system.now self.old }
        requires allowed { Allowed (state_of_tree (tree_of self.old)) event }
        requires few { length self.old.live.live < most_live }
        requires unspent { self.old.next ≤ last_ticket }
        ensures done { IfOk result (λ entry. entry ≡ (self.old.next, event)) }
        ensures added { OnOk result (execution system.now self.new ≡ with_event (execution system.now self.old) event) }
        ensures memory { IfErr result (λ why. why ≡ Refusal.Memory) }
        ensures unchanged { OnErr result (execution system.now self.new ≡ execution system.now self.old) }
        ensures holds { Holds system.now self.new }
        ensures marked { self.new.live.marked ≡ self.old.live.marked }
    {
        let Ok(kept) = Boxed::new(alloc, event) else {
            return Err(Refusal::Memory);
        };
        let Ok(told) = kept.get().copy(alloc) else {
            return Err(Refusal::Memory);
        };
        match self.make(alloc, system, kept) {
            Ok(ticket) => Ok((ticket, told)),
            Err(_) => Err(Refusal::Memory),
        }
    }

    /// Makes the event, and enters it under the next ticket, which is given.
    #[inline(never)]
    fn make(
        &mut self,
        alloc: Global,
        system: &Checked,
        kept: Boxed<Event>,
    ) -> Result<u64, AllocError>
        requires holds { Holds system.now self.old }
        requires allowed { Allowed (state_of_tree (tree_of self.old)) kept }
        requires few { length self.old.live.live < most_live }
        requires unspent { self.old.next ≤ last_ticket }
        ensures ticket { IfOk result (λ ticket. ticket ≡ self.old.next) }
        ensures added { OnOk result (execution system.now self.new ≡ with_event (execution system.now self.old) kept) }
        ensures unchanged { OnErr result (execution system.now self.new ≡ execution system.now self.old) }
        ensures holds { Holds system.now self.new }
        ensures marked { self.new.live.marked ≡ self.old.live.marked }
    {
        let ticket = self.next;
        system.shares_well();
        let inverse = apply_by(alloc, &mut self.tree, &mut self.store, kept.get())?;
        match self.enter(inverse, kept) {
            Ok(()) => Ok(ticket),
            Err((inverse, kept)) => {
                let event = kept.get();
                self.unmake(event, inverse);
                Err(AllocError)
            }
        }
    }

    /// Enters the event that was made last under the next ticket, with what its undo needs. Without memory both are
    /// given back, and tree and values are as the event made them.
    fn enter(&mut self, inverse: Inverse, kept: Boxed<Event>) -> Result<(), (Inverse, Boxed<Event>)>
        requires above { (t : ℕ) (e : Event) → LiveAt self.old.live.live t e → t < self.old.next }
        requires behind { ComesBehind self.old.live.live kept }
        requires unspent { self.old.next ≤ last_ticket }
        ensures entered { OnOk result (Entered self.old kept inverse self.new) }
        ensures refused { OnErr result (NotEntered self.old self.new) }
        ensures back { IfErr result (λ back. (back.0 ≡ inverse) × (back.1 ≡ kept)) }
    {
        if let Err(back) = self.inverses.push(inverse) {
            return Err((back, kept));
        }
        match self.live.add(self.next, kept) {
            Ok(()) => {
                self.next += 1;
                Ok(())
            }
            Err(kept) => Err((take_newest(&mut self.inverses), kept)),
        }
    }

    /// Takes the event that was made last back on the tree and in the store. It is rare, and stands by itself so that what
    /// it holds has no place in each step.
    #[inline(never)]
    fn unmake(&mut self, event: &Event, mut inverse: Inverse)
        requires { (T : TreeAndStore) × (applied T event.now ≡ Some (tree_of self.old, inverse_view inverse)) }
        ensures tree { (T : TreeAndStore) → applied T event.now ≡ Some (tree_of self.old, inverse_view inverse) →
            tree_of self.new ≡ T }
        ensures live { self.new.live ≡ self.old.live }
        ensures inverses { self.new.inverses ≡ self.old.inverses }
        ensures next { self.new.next ≡ self.old.next }
    {
        invert_by(&mut self.tree, &mut self.store, event, &mut inverse);
    }

    /// The events that are allowed now, in order.
    pub(crate) fn ready(&self, alloc: Global) -> Result<Vec<Event>, AllocError>
        ensures { (system : Checked) → Holds system self.now → IfOk result (λ events.
            Reaches (execution system self.now) (state_of_tree (tree_of self.now))
            × ReadyList (state_of_tree (tree_of self.now)) events.items) }
    {
        in_vec(ready_events(alloc, &self.tree, &self.store))
    }

    /// The actions that are offered now, in order of place.
    pub(crate) fn actions(&self, alloc: Global) -> Result<Items<LocalAction>, AllocError>
        ensures offered { (system : Checked) → Holds system self.now → IfOk result (λ actions.
            Reaches (execution system self.now) (state_of_tree (tree_of self.now))
            × OffersExactly (state_of_tree (tree_of self.now)) actions) }
        ensures in_order { (system : Checked) → Holds system self.now → IfOk result (λ actions.
            InOrder Precedes actions) }
    {
        actions_of(alloc, &self.tree, &self.store)
    }
}

/// Takes the last of the inverses out.
fn take_newest(inverses: &mut Rows<Inverse>) -> Inverse
    requires { 0 < length inverses.old }
    ensures { (older : List Inverse) (newest : Inverse) → inverses.old ≡ older ++ newest ∷ [] →
        (inverses.new ≡ older) × (result ≡ newest) }
{
    let last = inverses.len() - 1;
    inverses.remove(last)
}
