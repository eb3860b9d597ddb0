// The names in a command, and what each form without arms owes as a whole, beside what its parts are.
ghost use Rattle.std.specs.Prelude.{◌≡◌, IfOk};
ghost use Rattle.types.specs.Commands as spec;
ghost use Rattle.types.specs.Findings.{becomes};
ghost use Rattle.types.specs.internal.Scopes.{entries, scope_of};
ghost use Rattle.types.specs.Names.{find};
ghost use Rattle.types.specs.Uses as uses;
ghost use Rattle.types.specs.internal.Least.{least};
ghost use Rattle.types.specs.declared.tree.Action.TheVariants as typed;

use crate::expression::Valued;
use crate::scope::Scope;
use crate::verdict::{Verdict, both};
use crate::{Action, Binding, ChannelUse, Command, Fault, VariableUse, uses};
use std::alloc::{AllocError, Global};
use syntax::Identifier;
use value::Width;

pub(crate) fn target(
    scope: &Scope,
    opened: &[Binding],
    variable: &Identifier,
) -> Verdict<(VariableUse, Width)>
    ensures { result ≡ spec.target variable.now (scope_of scope.now) opened.now }
{
    uses::target_use(
        scope.names.find(opened, &variable.name),
        variable.span.start,
    )
}

pub(crate) fn sender(
    scope: &Scope,
    opened: &[Binding],
    channel: &Identifier,
) -> Verdict<(ChannelUse, Width)>
    ensures { result ≡ spec.sender channel.now (scope_of scope.now) opened.now }
{
    uses::sending_use(scope.names.find(opened, &channel.name), channel.span.start)
}

pub(crate) fn receiver(
    scope: &Scope,
    opened: &[Binding],
    channel: &Identifier,
) -> Verdict<(ChannelUse, Width)>
    ensures { result ≡ spec.receiver channel.now (scope_of scope.now) opened.now }
{
    uses::receiving_use(scope.names.find(opened, &channel.name), channel.span.start)
}

pub(crate) fn channel_alone(channel: &Verdict<(ChannelUse, Width)>) -> Verdict<ChannelUse>
    ensures { result ≡ spec.channel_alone channel.now }
{
    match channel {
        Ok(found) => Ok(found.0),
        Err(fault) => Err(*fault),
    }
}

/// The channels that are open in an arm on the channel. A name that is no such channel opens none.
pub(crate) fn opened_by(
    alloc: Global,
    opened: &[Binding],
    channel: &Verdict<ChannelUse>,
) -> Result<Vec<Binding>, AllocError>
    ensures { IfOk result (λ inner. inner.items ≡ spec.opened_by opened.now channel.now) }
{
    let mut inner = Vec::from_slice(alloc, opened)?;
    if let Ok(channel) = channel {
        inner.push(channel.channel)?;
    }
    Ok(inner)
}

/// A handshake without data.
pub(crate) fn sync(scope: &Scope, opened: &[Binding], channel: &Identifier) -> Verdict<Action>
    ensures { result
        ≡ becomes (λ u. typed.Sync u)
        (uses.sync_use (find (entries scope.now.names) opened.now channel.now.name) channel.now.span.start) }
{
    let found = scope.names.find(opened, &channel.name);
    Ok(Action::Sync(uses::sync_use(found, channel.span.start)?))
}

#[tactic(auto, unfolding(crate::specs::Commands::assignment))]
pub(crate) fn assignment(
    target: Verdict<(VariableUse, Width)>,
    value: Verdict<Valued>,
    value_start: u64,
) -> Verdict<Action>
    ensures { result ≡ spec.assignment least target value value_start }
{
    let ((variable, width), value) = both(target, value)?;
    if value.width > width.bits() {
        return Err(Fault::TooWide(value_start));
    }
    Ok(Action::Assign(variable, width, value.expression))
}

#[tactic(auto, unfolding(crate::specs::Commands::sending))]
pub(crate) fn sending(
    channel: Verdict<(ChannelUse, Width)>,
    value: Verdict<Valued>,
    value_start: u64,
) -> Verdict<Action>
    ensures { result ≡ spec.sending least channel value value_start }
{
    let ((channel, width), value) = both(channel, value)?;
    if value.width > width.bits() {
        return Err(Fault::TooWide(value_start));
    }
    Ok(Action::Send(channel, width, value.expression))
}

#[tactic(auto, unfolding(crate::specs::Commands::receiving))]
pub(crate) fn receiving(
    channel: Verdict<(ChannelUse, Width)>,
    target: Verdict<(VariableUse, Width)>,
) -> Verdict<Action>
    ensures { result ≡ spec.receiving least channel target }
{
    let ((channel, sent), (variable, held)) = both(channel, target)?;
    if sent.bits() > held.bits() {
        return Err(Fault::TooWide(variable.offset));
    }
    Ok(Action::Receive(channel, variable))
}

#[tactic(auto, unfolding(crate::specs::Commands::guarded_loop))]
pub(crate) fn guarded_loop(
    guard: Verdict<Valued>,
    guard_start: u64,
    body: Verdict<Command>,
) -> Verdict<Action>
    ensures { result ≡ spec.guarded_loop least guard guard_start body }
{
    let (guard, body) = both(guard, body)?;
    if guard.width != 1 {
        return Err(Fault::GuardNotOneBit(guard_start));
    }
    Ok(Action::While(guard.expression, body))
}

#[tactic(auto, unfolding(crate::specs::Commands::enclosing))]
pub(crate) fn enclosing(
    channel: Verdict<(ChannelUse, Width)>,
    body: Verdict<Command>,
) -> Verdict<Action>
    ensures { result ≡ spec.enclosing least channel body }
{
    let ((channel, _), body) = both(channel, body)?;
    Ok(Action::Input(channel, body))
}
