use runs::{Choice, Event, Refusal};
use syntax::Items;
use value::Value;

/// What a session may ask. Tickets and lines are `u64`, numbers of variables and branches `u32`.
#[derive(Debug, Drop)]
pub enum Command {
    /// take the event with this choice
    Step(Choice),
    /// take back the live event of this ticket
    Undo(u64),
    /// take back the live event of this ticket and all that depend on it
    Roll(u64),
    /// take back the last live event that wrote this variable, and all that depend on it
    RollValue(u32),
    /// ask for the last live event that wrote this variable
    Blame(u32),
    /// ask for the events that may be taken
    Ready,
    /// ask for the live events that depend on the one of this ticket
    Consequences(u64),
    /// ask for the live events
    Live,
    /// ask for the value of this variable
    Value(u32),
    /// take the first event of this branch that is on no line with a breakpoint of the session
    Branch(u32),
    /// set a breakpoint of the session on this line
    Break(u64),
    /// clear the breakpoint of the session on this line, if there is one
    Clear(u64),
}

/// What is answered.
#[derive(Debug, Drop)]
pub enum Reply {
    /// the event was taken, under this ticket
    Stepped(u64, Event),
    /// the event of this ticket was taken back
    Undone(u64, Event),
    /// so many events were taken back
    Rolled(u64),
    /// the event of this ticket
    Blamed(u64),
    /// the events, in order of acting address, then arm
    Ready(Items<Event>),
    /// the tickets, ascending
    Consequences(Items<u64>),
    /// the tickets, ascending, and their events
    Live(Items<(u64, Event)>),
    /// the value
    Value(Value),
    /// all events of the branch are on lines with a breakpoint, the first of them on this one
    Stopped(u64),
    /// no event of the branch may be taken
    Idle,
    /// the breakpoint is set, or there is none now
    Done,
    /// nothing was done
    Refused(Refusal),
}
