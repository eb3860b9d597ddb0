ghost use Rattle.std.specs.Prelude.{◌≡◌, IfOk};

use crate::{Boxed, Expr, Identifier, Items, Name, Span};
use std::alloc::{AllocError, Global};

/// A command. Brackets round it make no node.
#[cycle(command)]
#[derive(Drop)]
pub struct Command {
    /// From its first token to its last. A `[` before the first and a `]` behind the last are not counted.
    pub span: Span,
    pub action: Boxed<Action>,
}

/// What a command does.
#[cycle(command)]
#[derive(Drop)]
pub enum Action {
    Continue,
    Halt,
    /// `sync channel`
    Sync(Identifier),
    /// `loop body end`
    Loop(Command),
    /// `loop while guard then body end`
    While(Expr, Command),
    /// `if` with one guarded command or more, and what stands after `else`.
    If(Items<Guarded>, Option<Command>),
    /// `case` with its expression, one arm or more, and what stands after `else`.
    Case(Expr, Items<CaseArm>, Option<Command>),
    /// `select` with one arm or more.
    Select(Items<Arm>),
    /// `arbitrate` with its two arms. The second has a place of its own: with both in it, each action would be larger.
    Arbitrate(Arm, Boxed<Arm>),
    /// `variable := value`
    Assign(Identifier, Expr),
    /// `channel <- value`
    Send(Identifier, Expr),
    /// `channel -> variable`
    Receive(Identifier, Identifier),
    /// `channel -> then body end`, which holds the value open while the body runs.
    Input(Identifier, Command),
    /// `procedure (arguments)`
    Call(Identifier, Items<Identifier>),
    /// Two commands or more with `;` between them.
    Sequence(Items<Command>),
    /// Two commands or more with `||` between them.
    Parallel(Items<Command>),
}

impl Command {
    /// The command that does `action`. Without memory the action is dropped.
    pub fn new(alloc: Global, span: Span, action: Action) -> Result<Command, AllocError>
        ensures { IfOk result (λ made. made ≡ record { span = span; action = action }) }
    {
        Ok(Command {
            span,
            action: Boxed::new(alloc, action)?,
        })
    }
}

/// `guard then body` of an `if`.
#[cycle(command)]
#[derive(Drop)]
pub struct Guarded {
    pub guard: Expr,
    pub body: Command,
}

/// `labels then body` of a `case`.
#[cycle(command)]
#[derive(Drop)]
pub struct CaseArm {
    /// One or more.
    pub labels: Items<Label>,
    pub body: Command,
}

/// `channel then body` of a `select` or an `arbitrate`.
#[cycle(command)]
#[derive(Drop)]
pub struct Arm {
    pub channel: Identifier,
    pub body: Command,
}

/// A label of a `case`.
#[derive(Drop)]
pub struct Label {
    pub span: Span,
    pub value: LabelValue,
}

/// A label's value: a number, or an enumeration's element.
#[derive(Drop)]
pub enum LabelValue {
    Number(u64),
    Name(Name),
}
