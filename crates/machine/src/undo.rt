// Taking one event back.
ghost use Rattle.std.specs.Prelude.{◌≡◌, Some, IsSome, slice_get};
ghost use Rattle.sharing_check.specs.declared.checked.Checked.{Checked};
ghost use Rattle.runs.specs.Dependence.{Without};
ghost use Rattle.runs.specs.Live.{LiveAt, IsLive, NoDependent, WithoutTickets};
ghost use Rattle.runs.specs.Does.{Undoes};
ghost use Rattle.event_inverse.specs.Laws.{UndoneBy};
ghost use Rattle.event_inverse.specs.View.{both_view, inverse_view};
ghost use Rattle.event_inverse.specs.internal.Reverted.{reverted};
ghost use Rattle.machine.specs.Marks.{marks_behind};
ghost use Rattle.machine.specs.Results.{undo_reply};
ghost use Rattle.machine.specs.internal.Histories.{execution, Holds};

use crate::history::History;
use event_inverse::{Inverse, invert_by};
use process_tree::Tree;
use runs::{Event, Refusal};
use store::Store;
use syntax::Boxed;

impl History {
    /// Takes the event of this ticket back where no other live event depends on it.
    pub(crate) fn undo(&mut self, ticket: u64) -> Result<Event, Refusal>
        requires { (system : Checked) × Holds system self.old }
        ensures answers { (system : Checked) →
            Undoes (execution system self.old) ticket (undo_reply ticket result) (execution system self.new) }
        ensures holds { (system : Checked) → Holds system self.old → Holds system self.new }
        ensures marked { self.new.live.marked ≡ marks_behind (undo_reply ticket result) self.old.live.marked }
    {
        match self.undo_boxed(ticket) {
            Ok(event) => Ok(event.into_inner()),
            Err(why) => Err(why),
        }
    }

    /// The same, and the event stays where it lies on the heap: what is refused moves no event.
    fn undo_boxed(&mut self, ticket: u64) -> Result<Boxed<Event>, Refusal>
        requires { (system : Checked) × Holds system self.old }
        ensures answers { (system : Checked) →
            Undoes (execution system self.old) ticket (undo_reply ticket result) (execution system self.new) }
        ensures holds { (system : Checked) → Holds system self.old → Holds system self.new }
        ensures marked { self.new.live.marked ≡ marks_behind (undo_reply ticket result) self.old.live.marked }
    {
        match self.live.index_of(ticket) {
            Some(index) => self.undo_at(ticket, index),
            None => Err(Refusal::NoSuchEvent),
        }
    }

    /// Takes the event of this ticket, which stands at this index, back where no other live event depends on it.
    fn undo_at(&mut self, ticket: u64, index: usize) -> Result<Boxed<Event>, Refusal>
        requires holds { (system : Checked) × Holds system self.old }
        requires at { (e : Event) × (slice_get self.old.live.live index ≡ Some (ticket, e)) }
        ensures answers { (system : Checked) →
            Undoes (execution system self.old) ticket (undo_reply ticket result) (execution system self.new) }
        ensures holds { (system : Checked) → Holds system self.old → Holds system self.new }
        ensures marked { self.new.live.marked ≡ marks_behind (undo_reply ticket result) self.old.live.marked }
    {
        match self.live.first_dependent(ticket) {
            Some(dependent) => Err(Refusal::NeededBy(dependent)),
            None => Ok(self.take_back(ticket, index)),
        }
    }

    /// Takes the event of this ticket, which stands at this index, back. No other live event depends on it.
    fn take_back(&mut self, ticket: u64, index: usize) -> Boxed<Event>
        requires holds { (system : Checked) × Holds system self.old }
        requires at { (e : Event) × (slice_get self.old.live.live index ≡ Some (ticket, e)) }
        requires alone { NoDependent self.old.live.live ticket }
        ensures event { LiveAt self.old.live.live ticket result }
        ensures live { WithoutTickets (λ t. t ≡ ticket) self.old.live.live self.new.live.live }
        ensures marked { Without (λ t. t ≡ ticket) self.old.live.marked self.new.live.marked }
        ensures next { self.new.next ≡ self.old.next }
        ensures holds { (system : Checked) → Holds system self.old → Holds system self.new }
    {
        let event = self.live.take_boxed(ticket);
        let inverse = self.inverses.remove(index);
        undo_by(&mut self.tree, &mut self.store, event.get(), inverse);
        event
    }
}

/// Takes an event back by its inverse, which is dropped.
fn undo_by(tree: &mut Tree, store: &mut Store, event: &Event, mut inverse: Inverse)
    requires { IsSome (reverted (both_view tree.old store.old) event.now (inverse_view inverse)) }
    ensures { UndoneBy (both_view tree.old store.old) (event.now, inverse_view inverse) (both_view tree.new store.new) }
{
    invert_by(tree, store, event, &mut inverse);
}
