use syntax::{Items, Shared};
use system::{Decision, Expression};
use value::Width;

/// A command, which never changes. It is a handle: trees share what it stands for.
#[cycle(code)]
#[derive(Drop)]
pub enum Code {
    Continue,
    Halt,
    Once(Shared<Once>),
    Sender(Shared<Sender>),
    Repeat(Shared<Repeat>),
    Decide(Shared<Decide>),
    Await(Shared<Await>),
    InTurn(Shared<Row>),
    SideBySide(Shared<Row>),
    /// the environment's receives on an output port
    Drain(u32),
}

/// Commands in a row.
#[cycle(code)]
#[derive(Drop)]
pub struct Row {
    pub codes: Items<Code>,
}

/// What makes one move.
#[derive(Drop)]
pub enum Once {
    /// to the variable, at this width, the value of the expression
    Assign(u32, Width, Expression),
    /// on the channel, into the variable
    Receive(u32, u32),
}

/// What may be held.
#[derive(Drop)]
pub enum Sender {
    /// on the channel, at this width, the value of the expression
    Send(u32, Width, Expression),
    Sync(u32),
}

/// A loop, with its guard where it has one.
#[cycle(code)]
#[derive(Drop)]
pub struct Repeat {
    pub guard: Option<Expression>,
    pub body: Code,
}

/// An `if` or `case`, the else last.
#[cycle(code)]
#[derive(Drop)]
pub struct Decide {
    pub decision: Decision,
    pub arms: Items<Code>,
}

/// An enclosed input, `select` or `arbitrate`.
#[cycle(code)]
#[derive(Drop)]
pub struct Await {
    pub channels: Items<u32>,
    pub arms: Items<Code>,
}
