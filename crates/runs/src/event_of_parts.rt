// Events of their parts. Each has copies of the places that it is given.
ghost use Rattle.std.specs.Prelude.{◌≡◌, [], Some, None, IfOk};

use crate::{Event, Kind};
use address::Address;
use std::alloc::{AllocError, Global};
use system::Variables;
use value::Value;

impl Event {
    /// The assignment of a value of the variable's width, whose expression reads these variables.
    pub fn assignment(
        alloc: Global,
        place: &Address,
        variable: u32,
        value: Value,
        read: Variables,
    ) -> Result<Event, AllocError>
        ensures { IfOk result (λ made.
            made
            ≡ record {
              kind = Kind.Assign;
              first = place.now;
              second = None;
              arm = None;
              channel = None;
              value = Some value;
              written = Some variable;
              read = read;
            }) }
    {
        let first = place.copy(alloc)?;
        Ok(Event {
            kind: Kind::Assign,
            first,
            second: None,
            arm: None,
            channel: None,
            value: Some(value),
            written: Some(variable),
            read,
        })
    }

    /// The test that takes this arm, or none, and reads these variables.
    pub fn test(
        alloc: Global,
        place: &Address,
        arm: Option<u32>,
        read: Variables,
    ) -> Result<Event, AllocError>
        ensures { IfOk result (λ made.
            made
            ≡ record {
              kind = Kind.Test;
              first = place.now;
              second = None;
              arm = arm;
              channel = None;
              value = None;
              written = None;
              read = read;
            }) }
    {
        let first = place.copy(alloc)?;
        Ok(Event {
            kind: Kind::Test,
            first,
            second: None,
            arm,
            channel: None,
            value: None,
            written: None,
            read,
        })
    }

    /// A turn of a loop.
    pub fn turn(alloc: Global, place: &Address) -> Result<Event, AllocError>
        ensures { IfOk result (λ made.
            made
            ≡ record {
              kind = Kind.Turn;
              first = place.now;
              second = None;
              arm = None;
              channel = None;
              value = None;
              written = None;
              read = [];
            }) }
    {
        let first = place.copy(alloc)?;
        Ok(Event {
            kind: Kind::Turn,
            first,
            second: None,
            arm: None,
            channel: None,
            value: None,
            written: None,
            read: Variables::none(alloc),
        })
    }

    /// A send of a value of the channel's width and its receive, into the variable that is written, if there is one.
    pub fn meeting(
        alloc: Global,
        sender: &Address,
        receiver: &Address,
        channel: u32,
        value: Value,
        written: Option<u32>,
        read: Variables,
    ) -> Result<Event, AllocError>
        ensures { IfOk result (λ made.
            made
            ≡ record {
              kind = Kind.Meet;
              first = sender.now;
              second = Some receiver.now;
              arm = None;
              channel = Some channel;
              value = Some value;
              written = written;
              read = read;
            }) }
    {
        let first = sender.copy(alloc)?;
        let second = receiver.copy(alloc)?;
        Ok(Event {
            kind: Kind::Meet,
            first,
            second: Some(second),
            arm: None,
            channel: Some(channel),
            value: Some(value),
            written,
            read,
        })
    }

    /// The opening of an arm by a send, which has a value, or by a sync.
    pub fn opening(
        alloc: Global,
        sender: &Address,
        receiver: &Address,
        channel: u32,
        arm: u32,
        value: Option<Value>,
        read: Variables,
    ) -> Result<Event, AllocError>
        ensures { IfOk result (λ made.
            made
            ≡ record {
              kind = Kind.Open;
              first = sender.now;
              second = Some receiver.now;
              arm = Some arm;
              channel = Some channel;
              value = value;
              written = None;
              read = read;
            }) }
    {
        let first = sender.copy(alloc)?;
        let second = receiver.copy(alloc)?;
        Ok(Event {
            kind: Kind::Open,
            first,
            second: Some(second),
            arm: Some(arm),
            channel: Some(channel),
            value,
            written: None,
            read,
        })
    }

    /// The end of an arm, which releases the sender.
    pub fn close(
        alloc: Global,
        sender: &Address,
        receiver: &Address,
        channel: u32,
    ) -> Result<Event, AllocError>
        ensures { IfOk result (λ made.
            made
            ≡ record {
              kind = Kind.Close;
              first = sender.now;
              second = Some receiver.now;
              arm = None;
              channel = Some channel;
              value = None;
              written = None;
              read = [];
            }) }
    {
        without_data(alloc, Kind::Close, sender, receiver, channel)
    }

    /// Two syncs that meet, the one at the lesser place first.
    pub fn sync(
        alloc: Global,
        lesser: &Address,
        greater: &Address,
        channel: u32,
    ) -> Result<Event, AllocError>
        ensures { IfOk result (λ made.
            made
            ≡ record {
              kind = Kind.Sync;
              first = lesser.now;
              second = Some greater.now;
              arm = None;
              channel = Some channel;
              value = None;
              written = None;
              read = [];
            }) }
    {
        without_data(alloc, Kind::Sync, lesser, greater, channel)
    }
}

/// The event of two sides that pass no data.
fn without_data(
    alloc: Global,
    kind: Kind,
    first: &Address,
    second: &Address,
    channel: u32,
) -> Result<Event, AllocError>
    ensures { IfOk result (λ made.
        made
        ≡ record {
          kind = kind;
          first = first.now;
          second = Some second.now;
          arm = None;
          channel = Some channel;
          value = None;
          written = None;
          read = [];
        }) }
{
    let first = first.copy(alloc)?;
    let second = second.copy(alloc)?;
    Ok(Event {
        kind,
        first,
        second: Some(second),
        arm: None,
        channel: Some(channel),
        value: None,
        written: None,
        read: Variables::none(alloc),
    })
}
