ghost use Rattle.std.specs.Prelude.{◌≡◌, [], ◌∷◌, Ok, IfOk, OnOk, map};
ghost use Rattle.std.specs.Option.{option_map};
ghost use Rattle.types.specs.Arms as arms_of;
ghost use Rattle.types.specs.Commands as spec;
ghost use Rattle.types.specs.Commands.{judged_command};
ghost use Rattle.types.specs.Findings as findings;
ghost use Rattle.types.specs.internal.CommandParts.{judged_action, judged_arm, judged_guarded, judged_labelled};
ghost use Rattle.types.specs.internal.Least.{least};
ghost use Rattle.types.specs.internal.Owed as owed;
ghost use Rattle.types.specs.internal.Scopes.{scope_of};
ghost use Rattle.syntax.specs.declared.command.Action.TheVariants as form;
ghost use Rattle.types.specs.declared.tree.Action.TheVariants as typed;

use crate::arms::{
    Arms, arm_of, cased, conditional, distinct, guarded, labelled, new_labels, one_bit,
    settled_labels, width_of,
};
use crate::call::called;
use crate::expression::settled_expression;
use crate::forms::{
    assignment, channel_alone, enclosing, guarded_loop, opened_by, receiver, receiving, sender,
    sending, sync, target,
};
use crate::scope::Scope;
use crate::verdict::{Settled, Verdict, and, with_next};
use crate::{Action, Arm, Binding, Command, Guarded, Labelled, uses};
use indexmap::IndexSet;
use std::alloc::{AllocError, Global};
use syntax::{Expr, Identifier, Items};

/// The command with its names settled, at a place around which these channels are open.
#[cycle(settled_command)]
pub(crate) fn settled_command(
    alloc: Global,
    scope: &Scope,
    opened: &[Binding],
    command: &syntax::Command,
) -> Settled<Command>
    ensures { IfOk result (λ made. made ≡ judged_command least command.now (scope_of scope.now) opened.now) }
{
    let action = settled_action(alloc, scope, opened, command.action.get())?;
    made(alloc, command.span.line, action)
}

/// The command on the line that does the action.
fn made(alloc: Global, line: u64, action: Verdict<Action>) -> Settled<Command>
    ensures { IfOk result (λ made. made ≡ findings.becomes (spec.command_of line) action) }
{
    match action {
        Ok(action) => Ok(Ok(Command::new(alloc, line, action)?)),
        Err(fault) => Ok(Err(fault)),
    }
}

/// What a command does. A function for each form with children, and of those the child first that it recurses on: its
/// depth is what falls. The rarer ones are never put in here, so that the recursion takes little stack.
#[cycle(settled_command)]
fn settled_action(
    alloc: Global,
    scope: &Scope,
    opened: &[Binding],
    action: &syntax::Action,
) -> Settled<Action>
    ensures { IfOk result (λ made. made ≡ judged_action least action.now (scope_of scope.now) opened.now) }
{
    match action {
        syntax::Action::Continue => Ok(Ok(Action::Continue)),
        syntax::Action::Halt => Ok(Ok(Action::Halt)),
        syntax::Action::Sync(channel) => Ok(sync(scope, opened, channel)),
        syntax::Action::Assign(variable, value) => {
            settled_assign(alloc, scope, opened, variable, value)
        }
        syntax::Action::Send(channel, value) => settled_send(alloc, scope, opened, channel, value),
        syntax::Action::Receive(channel, variable) => {
            let channel = receiver(scope, opened, channel);
            Ok(receiving(channel, target(scope, opened, variable)))
        }
        syntax::Action::Call(procedure, arguments) => {
            called(alloc, scope, opened, procedure, arguments.as_slice())
        }
        syntax::Action::Loop(body) => settled_loop(alloc, scope, opened, body),
        syntax::Action::While(guard, body) => settled_while(alloc, scope, opened, body, guard),
        syntax::Action::If(arms, last) => {
            let last = settled_last(alloc, scope, opened, last)?;
            settled_if(alloc, scope, opened, arms.as_slice(), last)
        }
        syntax::Action::Case(subject, arms, last) => {
            let last = settled_last(alloc, scope, opened, last)?;
            settled_case(alloc, scope, opened, arms.as_slice(), last, subject)
        }
        syntax::Action::Input(channel, body) => settled_input(alloc, scope, opened, body, channel),
        syntax::Action::Select(arms) => settled_select(alloc, scope, opened, arms.as_slice()),
        syntax::Action::Arbitrate(first, second) => {
            let first = settled_arm(alloc, scope, opened, first)?;
            settled_arbitrate(alloc, scope, opened, second.get(), first)
        }
        syntax::Action::Sequence(children) => {
            settled_sequence(alloc, scope, opened, children.as_slice())
        }
        syntax::Action::Parallel(children) => {
            settled_parallel(alloc, scope, opened, children.as_slice())
        }
    }
}

fn settled_assign(
    alloc: Global,
    scope: &Scope,
    opened: &[Binding],
    variable: &Identifier,
    value: &Expr,
) -> Settled<Action>
    ensures { IfOk result (λ made.
        made
        ≡ spec.assignment least (spec.target variable.now (scope_of scope.now) opened.now)
        (spec.value least value.now (scope_of scope.now) opened.now) (spec.start_of value.now)) }
{
    let settled = settled_expression(alloc, &scope.names, opened, value)?;
    let target = target(scope, opened, variable);
    Ok(assignment(target, settled, value.span.start))
}

fn settled_send(
    alloc: Global,
    scope: &Scope,
    opened: &[Binding],
    channel: &Identifier,
    value: &Expr,
) -> Settled<Action>
    ensures { IfOk result (λ made.
        made
        ≡ spec.sending least (spec.sender channel.now (scope_of scope.now) opened.now)
        (spec.value least value.now (scope_of scope.now) opened.now) (spec.start_of value.now)) }
{
    let settled = settled_expression(alloc, &scope.names, opened, value)?;
    let channel = sender(scope, opened, channel);
    Ok(sending(channel, settled, value.span.start))
}

#[cycle(settled_command)]
fn settled_loop(
    alloc: Global,
    scope: &Scope,
    opened: &[Binding],
    body: &syntax::Command,
) -> Settled<Action>
    ensures { IfOk result (λ made. made ≡ judged_action least (form.Loop body.now) (scope_of scope.now) opened.now) }
{
    Ok(settled_command(alloc, scope, opened, body)?.map(Action::Loop))
}

#[cycle(settled_command)]
#[inline(never)]
fn settled_while(
    alloc: Global,
    scope: &Scope,
    opened: &[Binding],
    body: &syntax::Command,
    guard: &Expr,
) -> Settled<Action>
    ensures { IfOk result (λ made.
        made ≡ judged_action least (form.While guard.now body.now) (scope_of scope.now) opened.now) }
{
    let start = guard.span.start;
    let guard = settled_expression(alloc, &scope.names, opened, guard)?;
    let body = settled_command(alloc, scope, opened, body)?;
    Ok(guarded_loop(guard, start, body))
}

#[cycle(settled_command)]
#[inline(never)]
fn settled_if(
    alloc: Global,
    scope: &Scope,
    opened: &[Binding],
    arms: &[syntax::Guarded],
    last: Verdict<Option<Command>>,
) -> Settled<Action>
    ensures { IfOk result (λ made.
        made
        ≡ arms_of.conditional least
        (spec.each least (map (judged_guarded least) arms.now) (scope_of scope.now) opened.now) last) }
{
    let arms = settled_guarded(alloc, scope, opened, arms)?;
    Ok(conditional(arms, last))
}

#[cycle(settled_command)]
#[inline(never)]
fn settled_case(
    alloc: Global,
    scope: &Scope,
    opened: &[Binding],
    arms: &[syntax::CaseArm],
    last: Verdict<Option<Command>>,
    subject: &Expr,
) -> Settled<Action>
    ensures { IfOk result (λ made.
        made
        ≡ arms_of.cased least (spec.value least subject.now (scope_of scope.now) opened.now)
        (spec.each least (map (judged_labelled least) arms.now) (scope_of scope.now) opened.now) last) }
{
    let subject = settled_expression(alloc, &scope.names, opened, subject)?;
    let arms = settled_labelled(alloc, scope, opened, width_of(&subject), arms)?;
    cased(alloc, subject, arms, last)
}

#[cycle(settled_command)]
#[inline(never)]
fn settled_input(
    alloc: Global,
    scope: &Scope,
    opened: &[Binding],
    body: &syntax::Command,
    channel: &Identifier,
) -> Settled<Action>
    ensures { IfOk result (λ made.
        made ≡ judged_action least (form.Input channel.now body.now) (scope_of scope.now) opened.now) }
{
    let channel = receiver(scope, opened, channel);
    let inner = opened_by(alloc, opened, &channel_alone(&channel))?;
    let body = settled_command(alloc, scope, inner.as_slice(), body)?;
    Ok(enclosing(channel, body))
}

#[cycle(settled_command)]
#[inline(never)]
fn settled_select(
    alloc: Global,
    scope: &Scope,
    opened: &[Binding],
    arms: &[syntax::Arm],
) -> Settled<Action>
    ensures { IfOk result (λ made. made ≡ judged_action least (form.Select arms.now) (scope_of scope.now) opened.now) }
{
    let arms = settled_arms(alloc, scope, opened, arms)?;
    Ok(distinct(alloc, arms)?.map(Action::Select))
}

#[cycle(settled_command)]
#[inline(never)]
fn settled_arbitrate(
    alloc: Global,
    scope: &Scope,
    opened: &[Binding],
    second: &syntax::Arm,
    first: Verdict<Arm>,
) -> Settled<Action>
    ensures { IfOk result (λ made.
        made
        ≡ findings.becomes (λ these. typed.Arbitrate these)
        (arms_of.distinct least
        (findings.all least (first ∷ judged_arm least second.now (scope_of scope.now) opened.now ∷ [])))) }
{
    let second = settled_arm(alloc, scope, opened, second)?;
    let arms = Ok(Items::with_capacity(alloc, 2)?);
    let arms = with_next(with_next(arms, first)?, second)?;
    Ok(distinct(alloc, arms)?.map(Action::Arbitrate))
}

#[cycle(settled_command)]
fn settled_sequence(
    alloc: Global,
    scope: &Scope,
    opened: &[Binding],
    children: &[syntax::Command],
) -> Settled<Action>
    ensures { IfOk result (λ made.
        made ≡ judged_action least (form.Sequence children.now) (scope_of scope.now) opened.now) }
{
    Ok(settled_commands(alloc, scope, opened, children)?.map(Action::Sequence))
}

#[cycle(settled_command)]
fn settled_parallel(
    alloc: Global,
    scope: &Scope,
    opened: &[Binding],
    children: &[syntax::Command],
) -> Settled<Action>
    ensures { IfOk result (λ made.
        made ≡ judged_action least (form.Parallel children.now) (scope_of scope.now) opened.now) }
{
    Ok(settled_commands(alloc, scope, opened, children)?.map(Action::Parallel))
}

/// Each of the commands.
#[cycle(settled_command)]
fn settled_commands(
    alloc: Global,
    scope: &Scope,
    opened: &[Binding],
    commands: &[syntax::Command],
) -> Settled<Items<Command>>
    ensures { IfOk result (λ made.
        made ≡ spec.each least (map (judged_command least) commands.now) (scope_of scope.now) opened.now) }
{
    let mut settled = Ok(Items::with_capacity(alloc, commands.len())?);
    for command in commands {
        let next = settled_command(alloc, scope, opened, command)?;
        settled = with_next(settled, next)?;
    }
    Ok(settled)
}

/// What stands after `else`, if anything.
#[cycle(settled_command)]
fn settled_last(
    alloc: Global,
    scope: &Scope,
    opened: &[Binding],
    last: &Option<syntax::Command>,
) -> Settled<Option<Command>>
    ensures { IfOk result (λ made.
        made ≡ spec.last_of least (option_map (judged_command least) last.now) (scope_of scope.now) opened.now) }
{
    match last {
        Some(body) => Ok(settled_command(alloc, scope, opened, body)?.map(Some)),
        None => Ok(Ok(None)),
    }
}

/// The arms of an `if`.
#[cycle(settled_command)]
fn settled_guarded(
    alloc: Global,
    scope: &Scope,
    opened: &[Binding],
    arms: &[syntax::Guarded],
) -> Result<Arms<Guarded>, AllocError>
    ensures arms { IfOk result (λ made.
        made.arms ≡ findings.all least (map (owed.guarded_arm (scope_of scope.now) opened.now) arms.now)) }
    ensures own { IfOk result (λ made.
        made.own ≡ findings.demands least (map (owed.guard_owed (scope_of scope.now) opened.now) arms.now)) }
{
    let mut settled = Ok(Items::with_capacity(alloc, arms.len())?);
    let mut own = Ok(());
    for arm in arms {
        let (next, owed) = settled_guarded_arm(alloc, scope, opened, arm)?;
        settled = with_next(settled, next)?;
        own = and(own, owed);
    }
    Ok(Arms { arms: settled, own })
}

/// An arm of an `if`, and what it owes where its guard is right.
#[cycle(settled_command)]
fn settled_guarded_arm(
    alloc: Global,
    scope: &Scope,
    opened: &[Binding],
    arm: &syntax::Guarded,
) -> Result<(Verdict<Guarded>, Verdict<()>), AllocError>
    ensures arm { IfOk result (λ made. made.0 ≡ owed.guarded_arm (scope_of scope.now) opened.now arm.now) }
    ensures own { IfOk result (λ made. made.1 ≡ owed.guard_owed (scope_of scope.now) opened.now arm.now) }
{
    let guard = settled_expression(alloc, &scope.names, opened, &arm.guard)?;
    let own = one_bit(&guard, arm.guard.span.start);
    let body = settled_command(alloc, scope, opened, &arm.body)?;
    Ok((guarded(guard, body), own))
}

/// The arms of a `case` over an expression of so many bits.
#[cycle(settled_command)]
fn settled_labelled(
    alloc: Global,
    scope: &Scope,
    opened: &[Binding],
    width: u8,
    arms: &[syntax::CaseArm],
) -> Result<Arms<Labelled>, AllocError>
    ensures arms { IfOk result (λ made.
        made.arms ≡ findings.all least (map (owed.labelled_arm (scope_of scope.now) opened.now) arms.now)) }
    ensures own { IfOk result (λ made.
        made.own ≡ owed.labels_owed width [] (Ok tt) (map (owed.labels_of (scope_of scope.now) opened.now) arms.now)) }
{
    let mut seen = IndexSet::new(alloc);
    labelled_behind(alloc, scope, opened, width, arms, &mut seen)
}

/// The same, where these values were seen before. (It only borrows them, so that no early end drops them.)
#[cycle(settled_command)]
fn labelled_behind(
    alloc: Global,
    scope: &Scope,
    opened: &[Binding],
    width: u8,
    arms: &[syntax::CaseArm],
    seen: &mut IndexSet<u64>,
) -> Result<Arms<Labelled>, AllocError>
    ensures arms { IfOk result (λ made.
        made.arms ≡ findings.all least (map (owed.labelled_arm (scope_of scope.now) opened.now) arms.now)) }
    ensures own { IfOk result (λ made.
        made.own
        ≡ owed.labels_owed width seen.old.keys (Ok tt)
        (map (owed.labels_of (scope_of scope.now) opened.now) arms.now)) }
{
    let mut settled = Ok(Items::with_capacity(alloc, arms.len())?);
    let mut own = Ok(());
    for arm in arms {
        let (next, owed) = settled_labelled_arm(alloc, scope, opened, width, arm, seen)?;
        settled = with_next(settled, next)?;
        own = and(own, owed);
    }
    Ok(Arms { arms: settled, own })
}

/// An arm of a `case`, and what its labels owe where these values were seen before it.
#[cycle(settled_command)]
fn settled_labelled_arm(
    alloc: Global,
    scope: &Scope,
    opened: &[Binding],
    width: u8,
    arm: &syntax::CaseArm,
    seen: &mut IndexSet<u64>,
) -> Result<(Verdict<Labelled>, Verdict<()>), AllocError>
    ensures arm { IfOk result (λ made. made.0 ≡ owed.labelled_arm (scope_of scope.now) opened.now arm.now) }
    ensures own { IfOk result (λ made.
        made.1 ≡ owed.labels_owe width seen.old.keys (owed.labels_of (scope_of scope.now) opened.now arm.now)) }
    ensures seen { OnOk result (seen.new.keys
        ≡ owed.seen_after seen.old.keys (owed.labels_of (scope_of scope.now) opened.now arm.now)) }
{
    let labels = settled_labels(alloc, scope, opened, arm.labels.as_slice())?;
    let own = new_labels(seen, width, &labels)?;
    let body = settled_command(alloc, scope, opened, &arm.body)?;
    Ok((labelled(alloc, labels, body)?, own))
}

/// The arms of a `select`.
#[cycle(settled_command)]
fn settled_arms(
    alloc: Global,
    scope: &Scope,
    opened: &[Binding],
    arms: &[syntax::Arm],
) -> Settled<Items<Arm>>
    ensures { IfOk result (λ made.
        made ≡ spec.each least (map (judged_arm least) arms.now) (scope_of scope.now) opened.now) }
{
    let mut settled = Ok(Items::with_capacity(alloc, arms.len())?);
    for arm in arms {
        let next = settled_arm(alloc, scope, opened, arm)?;
        settled = with_next(settled, next)?;
    }
    Ok(settled)
}

/// An arm of a `select` or an `arbitrate`.
#[cycle(settled_command)]
fn settled_arm(alloc: Global, scope: &Scope, opened: &[Binding], arm: &syntax::Arm) -> Settled<Arm>
    ensures { IfOk result (λ made. made ≡ judged_arm least arm.now (scope_of scope.now) opened.now) }
{
    let found = scope.names.find(opened, &arm.channel.name);
    let channel = uses::arm_use(found, arm.channel.span.start);
    let inner = opened_by(alloc, opened, &channel)?;
    let body = settled_command(alloc, scope, inner.as_slice(), &arm.body)?;
    Ok(arm_of(channel, body))
}
