ghost use Rattle.std.specs.Prelude.{◌≡◌, ◌↔◌, IsTrue, IfOk};
ghost use Rattle.std.specs.Option.{option_copied};
ghost use Rattle.runs.specs.Choices.{choice_of, opened_arm};
ghost use Rattle.runs.specs.Events.{acting, acting_at};
ghost use Rattle.runs.specs.Tests.{same_event};

use crate::same::{same_kind, same_numbers, same_place, same_places, same_values, same_variables};
use address::Address;
use std::alloc::{AllocError, Global};
use system::Variables;
use value::Value;

/// The kinds of event.
#[derive(Clone, Copy, Debug, PartialEq, Eq)]
pub enum Kind {
    /// an assignment
    Assign,
    /// the test of an `if`, a `case` or a `while`
    Test,
    /// a turn of a loop begins
    Turn,
    /// a send and a receive
    Meet,
    /// a send or sync, and the opening of an arm that encloses a command
    Open,
    /// the end of that command, which releases the send or sync
    Close,
    /// two syncs
    Sync,
}

/// One step of a description. What a kind does not have is absent.
#[derive(Debug, Drop)]
pub struct Event {
    pub kind: Kind,
    /// where it is: of a meeting the sender's place, of two syncs the lesser place
    pub first: Address,
    /// the other side's place, where two sides take part
    pub second: Option<Address>,
    /// the arm that is taken or opened, from 0
    pub arm: Option<u32>,
    /// the number of the channel on which both sides meet
    pub channel: Option<u32>,
    /// what is written or sent, of the width of the variable or channel
    pub value: Option<Value>,
    /// the number of the variable that is written
    pub written: Option<u32>,
    /// the variables that its expressions read
    pub read: Variables,
}

/// A place at which a designer may take a step, and the arm to open there (0 where it opens none).
#[derive(Debug, Drop)]
pub struct Choice {
    pub place: Address,
    pub arm: u32,
}

impl Event {
    /// An equal event in memory of its own.
    pub fn copy(&self, alloc: Global) -> Result<Event, AllocError>
        ensures { IfOk result (λ made. made ≡ self.now) }
    {
        let first = self.first.copy(alloc)?;
        let second = copy_place(alloc, &self.second)?;
        let read = self.read.copy(alloc)?;
        Ok(Event {
            kind: self.kind,
            first,
            second,
            arm: self.arm,
            channel: self.channel,
            value: self.value,
            written: self.written,
            read,
        })
    }

    /// Whether both are the same event.
    pub fn equals(&self, other: &Event) -> bool
        ensures { result ≡ same_event self.now other.now }
    {
        same_kind(self.kind, other.kind)
            && same_place(&self.first, &other.first)
            && same_places(&self.second, &other.second)
            && same_numbers(self.arm, other.arm)
            && same_numbers(self.channel, other.channel)
            && same_values(self.value, other.value)
            && same_numbers(self.written, other.written)
            && same_variables(&self.read, &other.read)
    }

    /// Where a designer takes the event, and the arm that is opened there: that of the receiving side where two
    /// sides differ, else the first place.
    pub fn choice(&self, alloc: Global) -> Result<Choice, AllocError>
        ensures { IfOk result (λ made. made ≡ choice_of self.now) }
    {
        let place = self.acting_place().copy(alloc)?;
        Ok(Choice {
            place,
            arm: self.arm_to_open(),
        })
    }

    /// The arm that is opened, 0 where none is.
    pub fn arm_to_open(&self) -> u32
        ensures { result ≡ (choice_of self.now).arm }
    {
        opened_arm(self.kind, self.arm)
    }

    /// The place of the receiving side where two sides differ, else the first place.
    pub fn acting_place(&self) -> &Address
        ensures { result.now ≡ acting self.now }
    {
        match (self.kind, &self.second) {
            (Kind::Meet | Kind::Open | Kind::Close, Some(second)) => second,
            _ => &self.first,
        }
    }
}

impl PartialEq for Event {
    ghost use Rattle.std.specs.Prelude.{◌≡◌, ◌↔◌, IsTrue};
    ghost use Rattle.std.specs.Cmp.{partial_equiv_from_equiv};
    ghost use Rattle.runs.specs.Tests.{same_event};
    ghost use Rattle.runs.specs.internal.EventLaws.{same_event-equivalence};

    ghost eq = { same_event };

    ghost laws = { partial_equiv_from_equiv same_event-equivalence };

    fn eq(&self, other: &Event) -> bool
        ensures value { result ≡ same_event self.now other.now }
        ensures equal { IsTrue result ↔ (self.now ≡ other.now) }
    {
        self.equals(other)
    }
}

impl Eq for Event {
    ghost use Rattle.runs.specs.internal.EventLaws.{same_event-equivalence};

    ghost laws = { same_event-equivalence };
}

/// A copy of the place, if there is one.
fn copy_place(alloc: Global, place: &Option<Address>) -> Result<Option<Address>, AllocError>
    ensures { IfOk result (λ made. made ≡ place.now) }
{
    match place {
        Some(place) => Ok(Some(place.copy(alloc)?)),
        None => Ok(None),
    }
}

/// The arm that is opened, 0 where none is.
fn opened_arm(kind: Kind, arm: Option<u32>) -> u32
    ensures { result ≡ opened_arm kind arm }
{
    match (kind, arm) {
        (Kind::Open, Some(arm)) => arm,
        _ => 0,
    }
}
