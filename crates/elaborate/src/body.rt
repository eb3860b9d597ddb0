// The body of a procedure with its calls replaced and its names by numbers.
ghost use Rattle.std.specs.Prelude.{◌≡◌, [], map, IfOk, OnOk};
ghost use Rattle.std.specs.Option.{option_map};
ghost use Rattle.elaborate.specs.internal.Instances.{channel_use, expression_in};
ghost use Rattle.elaborate.specs.internal.Makers as body;
ghost use Rattle.elaborate.specs.internal.BodyParts.{maker_of_guarded, maker_of_labelled, maker_of_arm};
ghost use Rattle.system.specs.declared.command.Action.TheViews as action;

use crate::forms::{
    arbitrate_command, continue_command, halt_command, if_command, loop_command, parallel_command,
    select_command, sequence_command,
};
use crate::instance::{Entrance, Instance};
use crate::made::Made;
use std::alloc::{AllocError, Global};
use syntax::Items;
use system::{Action, Arm, Command, Guarded, Labelled};
use types::{ChannelUse, Procedure};

/// The command with numbers for its names and bodies for its calls. `earlier` has the procedures that it may call.
#[cycle(body)]
fn command_of(
    alloc: Global,
    command: &types::Command,
    instance: &Instance,
    earlier: &[Procedure],
    made: &mut Made,
) -> Result<Command, AllocError>
    ensures tree { IfOk result (λ tree.
        tree ≡ (body.maker_of (body.makers earlier.now) command.now instance.now made.old).0) }
    ensures made { OnOk result (made.new
        ≡ (body.maker_of (body.makers earlier.now) command.now instance.now made.old).1) }
{
    let line = command.line;
    match command.action.get() {
        types::Action::Call(procedure, arguments) => {
            let call = made.calls.saturating_add(1);
            let entrance = instance.entrance(alloc, arguments.as_slice(), call)?;
            let body = called_body(alloc, *procedure as usize, entrance, earlier, made)?;
            made.calls = call;
            Ok(body)
        }
        types::Action::Loop(body) => loop_of(alloc, body, line, instance, earlier, made),
        types::Action::While(guard, body) => {
            while_of(alloc, body, line, guard, instance, earlier, made)
        }
        types::Action::If(arms, last) => {
            if_of(alloc, arms.as_slice(), last, line, instance, earlier, made)
        }
        types::Action::Case(subject, arms, last) => {
            let arms = arms.as_slice();
            let subject = subject.get();
            case_of(alloc, arms, last, line, subject, instance, earlier, made)
        }
        types::Action::Input(channel, body) => {
            input_of(alloc, body, line, *channel, instance, earlier, made)
        }
        types::Action::Select(arms) => {
            select_of(alloc, arms.as_slice(), line, instance, earlier, made)
        }
        types::Action::Arbitrate(arms) => {
            arbitrate_of(alloc, arms.as_slice(), line, instance, earlier, made)
        }
        types::Action::Sequence(children) => {
            sequence_of(alloc, children.as_slice(), line, instance, earlier, made)
        }
        types::Action::Parallel(children) => {
            parallel_of(alloc, children.as_slice(), line, instance, earlier, made)
        }
        types::Action::Continue => continue_command(alloc, line),
        types::Action::Halt => halt_command(alloc, line),
        types::Action::Assign(variable, width, value) => {
            instance.assign_command(alloc, line, *variable, *width, value)
        }
        types::Action::Send(channel, width, value) => {
            instance.send_command(alloc, line, *channel, *width, value)
        }
        types::Action::Receive(channel, variable) => {
            instance.receive_command(alloc, line, *channel, *variable)
        }
        types::Action::Sync(channel) => instance.sync_command(alloc, line, *channel),
    }
}

/// A `loop`. This and the forms below are functions of their own, so that the recursion takes little stack where a
/// command has another form.
#[cycle(body)]
#[inline(never)]
fn loop_of(
    alloc: Global,
    inside: &types::Command,
    line: u64,
    instance: &Instance,
    earlier: &[Procedure],
    made: &mut Made,
) -> Result<Command, AllocError>
    ensures tree { IfOk result (λ tree.
        tree
        ≡ (body.around line action.Loop (body.maker_of (body.makers earlier.now) inside.now instance.now made.old)).0) }
    ensures made { OnOk result (made.new
        ≡ (body.maker_of (body.makers earlier.now) inside.now instance.now made.old).1) }
{
    let inside = command_of(alloc, inside, instance, earlier, made)?;
    loop_command(alloc, line, inside)
}

/// A `loop` that ends where the guard is 0.
#[cycle(body)]
#[inline(never)]
fn while_of(
    alloc: Global,
    inside: &types::Command,
    line: u64,
    guard: &types::Expression,
    instance: &Instance,
    earlier: &[Procedure],
    made: &mut Made,
) -> Result<Command, AllocError>
    ensures tree { IfOk result (λ tree.
        tree
        ≡ (body.around line (action.While (expression_in instance.now guard.now))
        (body.maker_of (body.makers earlier.now) inside.now instance.now made.old)).0) }
    ensures made { OnOk result (made.new
        ≡ (body.maker_of (body.makers earlier.now) inside.now instance.now made.old).1) }
{
    let inside = command_of(alloc, inside, instance, earlier, made)?;
    instance.while_command(alloc, line, guard, inside)
}

/// An `if`.
#[cycle(body)]
#[inline(never)]
fn if_of(
    alloc: Global,
    arms: &[types::Guarded],
    last: &Option<types::Command>,
    line: u64,
    instance: &Instance,
    earlier: &[Procedure],
    made: &mut Made,
) -> Result<Command, AllocError>
    ensures tree { IfOk result (λ tree.
        tree
        ≡ (body.around line (λ r. action.If r.0 r.1)
        (body.arms_and_last (map (maker_of_guarded (body.makers earlier.now)) arms.now)
        (option_map (body.maker_of (body.makers earlier.now)) last.now) instance.now made.old)).0) }
    ensures made { OnOk result (made.new
        ≡ (body.arms_and_last (map (maker_of_guarded (body.makers earlier.now)) arms.now)
        (option_map (body.maker_of (body.makers earlier.now)) last.now) instance.now made.old).1) }
{
    let arms = guarded_of(alloc, arms, instance, earlier, made)?;
    let last = last_of(alloc, last, instance, earlier, made)?;
    if_command(alloc, line, arms, last)
}

/// A `case`.
#[cycle(body)]
#[inline(never)]
fn case_of(
    alloc: Global,
    arms: &[types::Labelled],
    last: &Option<types::Command>,
    line: u64,
    subject: &types::Expression,
    instance: &Instance,
    earlier: &[Procedure],
    made: &mut Made,
) -> Result<Command, AllocError>
    ensures tree { IfOk result (λ tree.
        tree
        ≡ (body.around line (λ r. action.Case (expression_in instance.now subject.now) r.0 r.1)
        (body.arms_and_last (map (maker_of_labelled (body.makers earlier.now)) arms.now)
        (option_map (body.maker_of (body.makers earlier.now)) last.now) instance.now made.old)).0) }
    ensures made { OnOk result (made.new
        ≡ (body.arms_and_last (map (maker_of_labelled (body.makers earlier.now)) arms.now)
        (option_map (body.maker_of (body.makers earlier.now)) last.now) instance.now made.old).1) }
{
    let arms = labelled_of(alloc, arms, instance, earlier, made)?;
    let last = last_of(alloc, last, instance, earlier, made)?;
    instance.case_command(alloc, line, subject, arms, last)
}

/// An input on the channel that encloses a command.
#[cycle(body)]
#[inline(never)]
fn input_of(
    alloc: Global,
    inside: &types::Command,
    line: u64,
    channel: ChannelUse,
    instance: &Instance,
    earlier: &[Procedure],
    made: &mut Made,
) -> Result<Command, AllocError>
    ensures tree { IfOk result (λ tree.
        tree
        ≡ (body.around line (action.Input (channel_use instance.now channel))
        (body.maker_of (body.makers earlier.now) inside.now instance.now made.old)).0) }
    ensures made { OnOk result (made.new
        ≡ (body.maker_of (body.makers earlier.now) inside.now instance.now made.old).1) }
{
    let inside = command_of(alloc, inside, instance, earlier, made)?;
    instance.input_command(alloc, line, channel, inside)
}

/// A `select`.
#[cycle(body)]
#[inline(never)]
fn select_of(
    alloc: Global,
    arms: &[types::Arm],
    line: u64,
    instance: &Instance,
    earlier: &[Procedure],
    made: &mut Made,
) -> Result<Command, AllocError>
    ensures tree { IfOk result (λ tree.
        tree
        ≡ (body.around line action.Select
        (body.all_onto [] (map (maker_of_arm (body.makers earlier.now)) arms.now) instance.now made.old)).0) }
    ensures made { OnOk result (made.new
        ≡ (body.all_onto [] (map (maker_of_arm (body.makers earlier.now)) arms.now) instance.now made.old).1) }
{
    let arms = arms_of(alloc, arms, instance, earlier, made)?;
    select_command(alloc, line, arms)
}

/// An `arbitrate`.
#[cycle(body)]
#[inline(never)]
fn arbitrate_of(
    alloc: Global,
    arms: &[types::Arm],
    line: u64,
    instance: &Instance,
    earlier: &[Procedure],
    made: &mut Made,
) -> Result<Command, AllocError>
    ensures tree { IfOk result (λ tree.
        tree
        ≡ (body.around line action.Arbitrate
        (body.all_onto [] (map (maker_of_arm (body.makers earlier.now)) arms.now) instance.now made.old)).0) }
    ensures made { OnOk result (made.new
        ≡ (body.all_onto [] (map (maker_of_arm (body.makers earlier.now)) arms.now) instance.now made.old).1) }
{
    let arms = arms_of(alloc, arms, instance, earlier, made)?;
    arbitrate_command(alloc, line, arms)
}

/// Commands one after the other.
#[cycle(body)]
#[inline(never)]
fn sequence_of(
    alloc: Global,
    children: &[types::Command],
    line: u64,
    instance: &Instance,
    earlier: &[Procedure],
    made: &mut Made,
) -> Result<Command, AllocError>
    ensures tree { IfOk result (λ tree.
        tree
        ≡ (body.around line action.Sequence
        (body.all_onto [] (map (body.maker_of (body.makers earlier.now)) children.now) instance.now made.old)).0) }
    ensures made { OnOk result (made.new
        ≡ (body.all_onto [] (map (body.maker_of (body.makers earlier.now)) children.now) instance.now made.old).1) }
{
    let children = commands_of(alloc, children, instance, earlier, made)?;
    sequence_command(alloc, line, children)
}

/// Commands side by side.
#[cycle(body)]
#[inline(never)]
fn parallel_of(
    alloc: Global,
    children: &[types::Command],
    line: u64,
    instance: &Instance,
    earlier: &[Procedure],
    made: &mut Made,
) -> Result<Command, AllocError>
    ensures tree { IfOk result (λ tree.
        tree
        ≡ (body.around line action.Parallel
        (body.all_onto [] (map (body.maker_of (body.makers earlier.now)) children.now) instance.now made.old)).0) }
    ensures made { OnOk result (made.new
        ≡ (body.all_onto [] (map (body.maker_of (body.makers earlier.now)) children.now) instance.now made.old).1) }
{
    let children = commands_of(alloc, children, instance, earlier, made)?;
    parallel_command(alloc, line, children)
}

/// The commands in order.
#[cycle(body)]
fn commands_of(
    alloc: Global,
    commands: &[types::Command],
    instance: &Instance,
    earlier: &[Procedure],
    made: &mut Made,
) -> Result<Items<Command>, AllocError>
    ensures tree { IfOk result (λ tree.
        tree
        ≡ (body.all_onto [] (map (body.maker_of (body.makers earlier.now)) commands.now) instance.now made.old).0) }
    ensures made { OnOk result (made.new
        ≡ (body.all_onto [] (map (body.maker_of (body.makers earlier.now)) commands.now) instance.now made.old).1) }
{
    let mut children = Items::with_capacity(alloc, commands.len())?;
    for command in commands {
        children.push(command_of(alloc, command, instance, earlier, made)?)?;
    }
    Ok(children)
}

/// The arms of an `if`.
#[cycle(body)]
fn guarded_of(
    alloc: Global,
    arms: &[types::Guarded],
    instance: &Instance,
    earlier: &[Procedure],
    made: &mut Made,
) -> Result<Items<Guarded>, AllocError>
    ensures tree { IfOk result (λ tree.
        tree ≡ (body.all_onto [] (map (maker_of_guarded (body.makers earlier.now)) arms.now) instance.now made.old).0) }
    ensures made { OnOk result (made.new
        ≡ (body.all_onto [] (map (maker_of_guarded (body.makers earlier.now)) arms.now) instance.now made.old).1) }
{
    let mut children = Items::with_capacity(alloc, arms.len())?;
    for arm in arms {
        let guard = instance.expression(alloc, &arm.guard)?;
        let body = command_of(alloc, &arm.body, instance, earlier, made)?;
        children.push(Guarded { guard, body })?;
    }
    Ok(children)
}

/// The arms of a `case`.
#[cycle(body)]
fn labelled_of(
    alloc: Global,
    arms: &[types::Labelled],
    instance: &Instance,
    earlier: &[Procedure],
    made: &mut Made,
) -> Result<Items<Labelled>, AllocError>
    ensures tree { IfOk result (λ tree.
        tree
        ≡ (body.all_onto [] (map (maker_of_labelled (body.makers earlier.now)) arms.now) instance.now made.old).0) }
    ensures made { OnOk result (made.new
        ≡ (body.all_onto [] (map (maker_of_labelled (body.makers earlier.now)) arms.now) instance.now made.old).1) }
{
    let mut children = Items::with_capacity(alloc, arms.len())?;
    for arm in arms {
        let labels = Items::from_vec(Vec::from_slice(alloc, arm.labels.as_slice())?);
        let body = command_of(alloc, &arm.body, instance, earlier, made)?;
        children.push(Labelled { labels, body })?;
    }
    Ok(children)
}

/// The arms of a `select` or an `arbitrate`.
#[cycle(body)]
fn arms_of(
    alloc: Global,
    arms: &[types::Arm],
    instance: &Instance,
    earlier: &[Procedure],
    made: &mut Made,
) -> Result<Items<Arm>, AllocError>
    ensures tree { IfOk result (λ tree.
        tree ≡ (body.all_onto [] (map (maker_of_arm (body.makers earlier.now)) arms.now) instance.now made.old).0) }
    ensures made { OnOk result (made.new
        ≡ (body.all_onto [] (map (maker_of_arm (body.makers earlier.now)) arms.now) instance.now made.old).1) }
{
    let mut children = Items::with_capacity(alloc, arms.len())?;
    for arm in arms {
        let channel = instance.channel_use(arm.channel);
        let body = command_of(alloc, &arm.body, instance, earlier, made)?;
        children.push(Arm { channel, body })?;
    }
    Ok(children)
}

/// What stands behind an `else`, if there is one.
#[cycle(body)]
fn last_of(
    alloc: Global,
    last: &Option<types::Command>,
    instance: &Instance,
    earlier: &[Procedure],
    made: &mut Made,
) -> Result<Option<Command>, AllocError>
    ensures tree { IfOk result (λ tree.
        tree ≡ (body.last_of (option_map (body.maker_of (body.makers earlier.now)) last.now) instance.now made.old).0) }
    ensures made { OnOk result (made.new
        ≡ (body.last_of (option_map (body.maker_of (body.makers earlier.now)) last.now) instance.now made.old).1) }
{
    match last {
        Some(body) => Ok(Some(command_of(alloc, body, instance, earlier, made)?)),
        None => Ok(None),
    }
}

/// The body of the procedure that is entered so, with locals of its own. A body that is a call alone is gone along, so
/// that long chains of such calls take no stack. A procedure that is not there does nothing.
#[cycle(body)]
pub fn called_body(
    alloc: Global,
    procedure: usize,
    entrance: Entrance,
    earlier: &[Procedure],
    made: &mut Made,
) -> Result<Command, AllocError>
    ensures tree { IfOk result (λ tree.
        tree ≡ (body.after_call 0 (body.called (body.makers earlier.now) procedure entrance made.old)).0) }
    ensures made { OnOk result (made.new
        ≡ (body.after_call 0 (body.called (body.makers earlier.now) procedure entrance made.old)).1) }
{
    let mut earlier = earlier;
    let mut called = procedure;
    let mut entrance = entrance;
    while let Some(procedure) = earlier.get(called) {
        earlier = &earlier[..called];
        let instance = made.instance(alloc, entrance, procedure.locals.as_slice())?;
        match procedure.body.action.get() {
            types::Action::Call(next, arguments) => {
                called = *next as usize;
                entrance = instance.into_entrance(alloc, arguments.as_slice())?;
            }
            _ => {
                let body = command_of(alloc, &procedure.body, &instance, earlier, made)?;
                made.calls = 0;
                return Ok(body);
            }
        }
    }
    let nothing = Command::new(alloc, 0, Action::Continue)?;
    made.calls = 0;
    Ok(nothing)
}
