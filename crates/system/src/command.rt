ghost use Rattle.std.specs.Prelude.{◌≡◌, IfOk};

use crate::{Expression, Use};
use std::alloc::{AllocError, Global};
use syntax::{Boxed, Items};
use value::Width;

/// A command, and the line of its first token, from 1 (a `[` is not counted).
#[cycle(command)]
#[derive(Drop)]
pub struct Command {
    pub line: u64,
    pub action: Boxed<Action>,
}

/// What a command does. A sequence and a parallel have at least two children.
#[cycle(command)]
#[derive(Drop)]
pub enum Action {
    Continue,
    Halt,
    /// to the variable, of this width, the value of the expression
    Assign(Use, Width, Expression),
    /// on the channel, of this width, the value of the expression
    Send(Use, Width, Expression),
    /// on the channel, into the variable
    Receive(Use, Use),
    /// a handshake without data on the channel
    Sync(Use),
    Loop(Command),
    /// `loop while guard then body end`
    While(Expression, Command),
    /// the first guarded body whose guard is true, else the last
    If(Items<Guarded>, Option<Command>),
    /// the first body with a label equal to the expression's value, else the last
    Case(Expression, Items<Labelled>, Option<Command>),
    /// `c -> then body end`: the handshake is completed when the body has ended
    Input(Use, Command),
    Select(Items<Arm>),
    Arbitrate(Items<Arm>),
    Sequence(Items<Command>),
    Parallel(Items<Command>),
}

impl Command {
    /// The command on `line` that does `action`. Without memory the action is dropped.
    pub fn new(alloc: Global, line: u64, action: Action) -> Result<Command, AllocError>
        ensures { IfOk result (λ made. made ≡ record { line = line; action = action }) }
    {
        Ok(Command {
            line,
            action: Boxed::new(alloc, action)?,
        })
    }
}

/// An arm of `if`.
#[cycle(command)]
#[derive(Drop)]
pub struct Guarded {
    pub guard: Expression,
    pub body: Command,
}

/// An arm of `case`, with the values of its labels.
#[cycle(command)]
#[derive(Drop)]
pub struct Labelled {
    pub labels: Items<u64>,
    pub body: Command,
}

/// An arm of `select` or `arbitrate`: a command enclosed by an input on the channel.
#[cycle(command)]
#[derive(Drop)]
pub struct Arm {
    pub channel: Use,
    pub body: Command,
}
