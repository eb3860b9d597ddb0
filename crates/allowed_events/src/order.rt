// The order in which events are listed.
ghost use Rattle.std.specs.Prelude.{◌≡◌, ◌≤◌, ◌↔◌, true, length, IsTrue};
ghost use Rattle.address.specs.Order.{order_of};
ghost use Rattle.runs.specs.InOrder.{InOrder};
ghost use Rattle.runs.specs.Ready.{other, Sooner};
ghost use Rattle.runs.specs.Choices.{choice_of};
ghost use Rattle.allowed_events.specs.internal.Sorting.{is_sooner, sooner_count};

use address::{Entry, compare};
use runs::{Choice, Event, Kind};
use std::cmp::Ordering;

/// Whether the first event comes before the second: by acting address, then by arm, then by the other action's address.
fn is_sooner(one: &Event, two: &Event) -> bool
    ensures { result ≡ is_sooner one.now two.now }
{
    match compare(one.acting_place(), two.acting_place()) {
        Ordering::Less => true,
        Ordering::Greater => false,
        Ordering::Equal => {
            let arm = one.arm_to_open();
            let other_arm = two.arm_to_open();
            if arm < other_arm {
                true
            } else if arm == other_arm {
                order_of(other_place(one), other_place(two)).is_lt()
            } else {
                false
            }
        }
    }
}

/// The place of the action that does not act, the root's where one action alone takes part.
pub(crate) fn other_place(event: &Event) -> &[Entry]
    ensures { result.now ≡ other event.now }
{
    match (event.kind, &event.second) {
        (Kind::Meet | Kind::Open | Kind::Close, _) => event.first.entries(),
        (Kind::Sync, Some(second)) => second.entries(),
        _ => &[],
    }
}

/// Where the first place stands to the second.
pub(crate) fn order_of(one: &[Entry], two: &[Entry]) -> Ordering
    ensures { result ≡ order_of one.now two.now }
{
    one.cmp(two)
}

/// How many of these events, where they are in order, come before the event. It looks from the last on.
pub(crate) fn sooner_count(event: &Event, sorted: &[Event]) -> usize
    ensures within { result ≤ length sorted.now }
    ensures counted { InOrder Sooner sorted.now → result ≡ sooner_count event.now sorted.now }
{
    let mut index = sorted.len();
    while index > 0 {
        if is_sooner(&sorted[index - 1], event) {
            return index;
        }
        index -= 1;
    }
    0
}

/// Whether the events are in order as they are. It looks from the last on.
pub(crate) fn are_in_order(events: &[Event]) -> bool
    ensures { result ≡ true → InOrder Sooner events.now }
{
    let mut index = events.len();
    while index > 1 {
        index -= 1;
        if !is_sooner(&events[index - 1], &events[index]) {
            return false;
        }
    }
    true
}

/// Whether the choice takes the event.
pub(crate) fn has_choice(event: &Event, choice: &Choice) -> bool
    ensures { IsTrue result ↔ (choice_of event.now ≡ choice.now) }
{
    event.acting_place().equals(&choice.place) && event.arm_to_open() == choice.arm
}
