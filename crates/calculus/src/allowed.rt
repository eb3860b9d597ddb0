// The events that are allowed now.
ghost use Rattle.std.specs.Prelude.{◌≡◌, ◌↔◌, [], ◌∷◌, ◌++◌, map, Some, IfOk, OnOk};
ghost use Rattle.runs.specs.Moves as moves;
ghost use Rattle.syntax.specs.Lists.{In};
ghost use Rattle.runs.specs.Events.{at};
ghost use Rattle.runs.specs.Steps.{Allowed};
ghost use Rattle.runs.specs.WellFormed.{WellFormed};
ghost use Rattle.runs.specs.declared.event.Event.{Event};
ghost use Rattle.runs.specs.internal.Made as made;
ghost use Rattle.runs.specs.internal.AllowedEvents as model;
ghost use Rattle.calculus.specs.ResidualTree.{state_of};
ghost use Rattle.calculus.specs.internal.Walk.{located_of};

use crate::Plain;
use crate::make_event::{is_first, made_alone, sent};
use crate::moves::Move;
use crate::step::made_apart;
use crate::walk::{Offer, add_offers};
use address::Address;
use runs::Event;
use std::alloc::{AllocError, Global};
use syntax::Items;
use value::Value;

impl Plain {
    /// The events that are allowed in this state, in no order. A place with a number of 2^32 and more is answered as
    /// want of memory: a description that has one, or a run that gets to one, takes more than there is.
    pub fn allowed(&self, alloc: Global) -> Result<Items<Event>, AllocError>
        ensures computed { IfOk result (λ events. events ≡ model.allowed_events (state_of self.now)) }
        ensures listed { WellFormed (state_of self.now).residual →
            IfOk result (λ events. (e : Event) → In e events ↔ Allowed (state_of self.now) e) }
    {
        events_offered(alloc, self)
    }
}

/// The events that the moves of a state make.
fn events_offered(alloc: Global, state: &Plain) -> Result<Items<Event>, AllocError>
    ensures { IfOk result (λ events. events ≡ model.allowed_events (state_of state.now)) }
{
    let values = state.values.as_slice();
    let root = Address::from_vec(Vec::new(alloc));
    let mut offers = Items::new(alloc);
    add_offers(alloc, values, state.left.get(), &root, &mut offers)?;
    events_among(alloc, values, offers.as_slice())
}

/// The events that these moves make.
fn events_among(
    alloc: Global,
    values: &[Value],
    offers: &[Offer],
) -> Result<Items<Event>, AllocError>
    ensures { IfOk result (λ events. events ≡ model.events_among values.now (map located_of offers.now)) }
{
    let mut events = Items::new(alloc);
    add_alone(alloc, values, offers, &mut events)?;
    for offer in offers {
        add_with(alloc, values, offer, offers, &mut events)?;
    }
    Ok(events)
}

/// Adds the events of one move alone.
fn add_alone(
    alloc: Global,
    values: &[Value],
    offers: &[Offer],
    events: &mut Items<Event>,
) -> Result<(), AllocError>
    ensures { IfOk result (λ _. events.new ≡ events.old ++ model.events_alone values.now (map located_of offers.now)) }
{
    for offer in offers {
        add(
            made_alone(alloc, values, &offer.place, offer.by.get())?,
            events,
        )?;
    }
    Ok(())
}

/// Adds the events of this move with each of the others. A move that is no first of two is not tried with them.
fn add_with(
    alloc: Global,
    values: &[Value],
    one: &Offer,
    others: &[Offer],
    events: &mut Items<Event>,
) -> Result<(), AllocError>
    ensures { IfOk result (λ _.
        events.new ≡ events.old ++ model.events_with values.now (located_of one.now) (map located_of others.now)) }
{
    if is_first(one.by.get()) {
        add_meetings(alloc, values, one, others, events)
    } else {
        Ok(())
    }
}

/// Adds the events of this move, as the first of two, with each of the others.
fn add_meetings(
    alloc: Global,
    values: &[Value],
    one: &Offer,
    others: &[Offer],
    events: &mut Items<Event>,
) -> Result<(), AllocError>
    ensures { IfOk result (λ _.
        events.new ≡ events.old ++ model.events_with values.now (located_of one.now) (map located_of others.now)) }
{
    for other in others {
        add(event_of_two(alloc, values, one, other)?, events)?;
    }
    Ok(())
}

/// The event of this move and another that meets it, if they make one.
fn event_of_two(
    alloc: Global,
    values: &[Value],
    one: &Offer,
    other: &Offer,
) -> Result<Option<Event>, AllocError>
    ensures { IfOk result (λ r.
        r ≡ made.event_of values.now
        (located_of one.now ∷ model.meets values.now (located_of one.now) (located_of other.now) ∷ [])) }
{
    let by = one.by.get();
    let met = other.by.get();
    match (by, met) {
        (Move::Sends(_, width, value, true), Move::Opens(channel, arm, _)) => {
            let received = sent(values, *width, value);
            event_of_open(alloc, values, one, &other.place, *channel, *arm, received)
        }
        _ => made_apart(alloc, values, &one.place, by, &other.place, met),
    }
}

/// The event of this move and the open of an arm at the place that receives the value, if they make one.
fn event_of_open(
    alloc: Global,
    values: &[Value],
    one: &Offer,
    place: &Address,
    channel: u32,
    arm: u32,
    received: Value,
) -> Result<Option<Event>, AllocError>
    ensures { IfOk result (λ r.
        r ≡ made.event_of values.now
        (located_of one.now ∷ at place.now (moves.opens channel arm (Some received)) ∷ [])) }
{
    let opens = Move::Opens(channel, arm, Some(received));
    made_apart(alloc, values, &one.place, one.by.get(), place, &opens)
}

/// Adds the event, if there is one.
fn add(made: Option<Event>, events: &mut Items<Event>) -> Result<(), AllocError>
    ensures { OnOk result (events.new ≡ events.old ++ model.those made []) }
{
    match made {
        Some(event) => events.push(event),
        None => Ok(()),
    }
}
