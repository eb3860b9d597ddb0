// Commands made of their parts. Each is a function of its own, so that the recursion that calls them takes little
// stack.
ghost use Rattle.std.specs.Prelude.{◌≡◌, IfOk};

use crate::instance::Instance;
use std::alloc::{AllocError, Global};
use syntax::Items;
use system::{Action, Arm, Command, Guarded, Labelled};
use types::{ChannelUse, VariableUse};
use value::Width;

/// `continue`.
#[inline(never)]
pub fn continue_command(alloc: Global, line: u64) -> Result<Command, AllocError>
    ensures { IfOk result (λ made. made ≡ record { line = line; action = Action.Continue }) }
{
    Command::new(alloc, line, Action::Continue)
}

/// `halt`.
#[inline(never)]
pub fn halt_command(alloc: Global, line: u64) -> Result<Command, AllocError>
    ensures { IfOk result (λ made. made ≡ record { line = line; action = Action.Halt }) }
{
    Command::new(alloc, line, Action::Halt)
}

/// A `loop` over the body.
#[inline(never)]
pub fn loop_command(alloc: Global, line: u64, body: Command) -> Result<Command, AllocError>
    ensures { IfOk result (λ made. made ≡ record { line = line; action = Action.Loop body }) }
{
    Command::new(alloc, line, Action::Loop(body))
}

/// An `if` of these arms, with what its `else` holds, if it has one.
#[inline(never)]
pub fn if_command(
    alloc: Global,
    line: u64,
    arms: Items<Guarded>,
    last: Option<Command>,
) -> Result<Command, AllocError>
    ensures { IfOk result (λ made. made ≡ record { line = line; action = Action.If arms last }) }
{
    Command::new(alloc, line, Action::If(arms, last))
}

/// A `select` of these arms.
#[inline(never)]
pub fn select_command(alloc: Global, line: u64, arms: Items<Arm>) -> Result<Command, AllocError>
    ensures { IfOk result (λ made. made ≡ record { line = line; action = Action.Select arms }) }
{
    Command::new(alloc, line, Action::Select(arms))
}

/// An `arbitrate` of these arms.
#[inline(never)]
pub fn arbitrate_command(alloc: Global, line: u64, arms: Items<Arm>) -> Result<Command, AllocError>
    ensures { IfOk result (λ made. made ≡ record { line = line; action = Action.Arbitrate arms }) }
{
    Command::new(alloc, line, Action::Arbitrate(arms))
}

/// The children one after the other.
#[inline(never)]
pub fn sequence_command(
    alloc: Global,
    line: u64,
    children: Items<Command>,
) -> Result<Command, AllocError>
    ensures { IfOk result (λ made. made ≡ record { line = line; action = Action.Sequence children }) }
{
    Command::new(alloc, line, Action::Sequence(children))
}

/// The children side by side.
#[inline(never)]
pub fn parallel_command(
    alloc: Global,
    line: u64,
    children: Items<Command>,
) -> Result<Command, AllocError>
    ensures { IfOk result (λ made. made ≡ record { line = line; action = Action.Parallel children }) }
{
    Command::new(alloc, line, Action::Parallel(children))
}

impl Instance {
    ghost use Rattle.elaborate.specs.internal.Instances as instances;

    /// A `loop` that ends where the guard is 0.
    #[inline(never)]
    pub fn while_command(
        &self,
        alloc: Global,
        line: u64,
        guard: &types::Expression,
        body: Command,
    ) -> Result<Command, AllocError>
        ensures { IfOk result (λ made.
            made ≡ record { line = line; action = Action.While (instances.expression_in self.now guard.now) body }) }
    {
        let guard = self.expression(alloc, guard)?;
        Command::new(alloc, line, Action::While(guard, body))
    }

    /// A `case` of these arms, with what its `else` holds, if it has one.
    #[inline(never)]
    pub fn case_command(
        &self,
        alloc: Global,
        line: u64,
        subject: &types::Expression,
        arms: Items<Labelled>,
        last: Option<Command>,
    ) -> Result<Command, AllocError>
        ensures { IfOk result (λ made.
            made
            ≡ record { line = line; action = Action.Case (instances.expression_in self.now subject.now) arms last }) }
    {
        let subject = self.expression(alloc, subject)?;
        Command::new(alloc, line, Action::Case(subject, arms, last))
    }

    /// An input on the channel that encloses the body.
    #[inline(never)]
    pub fn input_command(
        &self,
        alloc: Global,
        line: u64,
        channel: ChannelUse,
        body: Command,
    ) -> Result<Command, AllocError>
        ensures { IfOk result (λ made.
            made ≡ record { line = line; action = Action.Input (instances.channel_use self.now channel) body }) }
    {
        Command::new(alloc, line, Action::Input(self.channel_use(channel), body))
    }

    /// An assignment of the value to the variable.
    #[inline(never)]
    pub fn assign_command(
        &self,
        alloc: Global,
        line: u64,
        variable: VariableUse,
        width: Width,
        value: &types::Expression,
    ) -> Result<Command, AllocError>
        ensures { IfOk result (λ made.
            made
            ≡ record {
              line = line;
              action =
                  Action.Assign (instances.variable_use self.now variable) width
                  (instances.expression_in self.now value.now);
            }) }
    {
        let value = self.expression(alloc, value)?;
        Command::new(
            alloc,
            line,
            Action::Assign(self.variable_use(variable), width, value),
        )
    }

    /// A send of the value on the channel.
    #[inline(never)]
    pub fn send_command(
        &self,
        alloc: Global,
        line: u64,
        channel: ChannelUse,
        width: Width,
        value: &types::Expression,
    ) -> Result<Command, AllocError>
        ensures { IfOk result (λ made.
            made
            ≡ record {
              line = line;
              action =
                  Action.Send (instances.channel_use self.now channel) width
                  (instances.expression_in self.now value.now);
            }) }
    {
        let value = self.expression(alloc, value)?;
        Command::new(
            alloc,
            line,
            Action::Send(self.channel_use(channel), width, value),
        )
    }

    /// A receive from the channel into the variable.
    #[inline(never)]
    pub fn receive_command(
        &self,
        alloc: Global,
        line: u64,
        channel: ChannelUse,
        variable: VariableUse,
    ) -> Result<Command, AllocError>
        ensures { IfOk result (λ made.
            made
            ≡ record {
              line = line;
              action =
                  Action.Receive (instances.channel_use self.now channel) (instances.variable_use self.now variable);
            }) }
    {
        Command::new(
            alloc,
            line,
            Action::Receive(self.channel_use(channel), self.variable_use(variable)),
        )
    }

    /// A sync on the channel.
    #[inline(never)]
    pub fn sync_command(
        &self,
        alloc: Global,
        line: u64,
        channel: ChannelUse,
    ) -> Result<Command, AllocError>
        ensures { IfOk result (λ made.
            made ≡ record { line = line; action = Action.Sync (instances.channel_use self.now channel) }) }
    {
        Command::new(alloc, line, Action::Sync(self.channel_use(channel)))
    }
}
