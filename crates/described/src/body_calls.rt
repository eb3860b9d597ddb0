// The calls that stand in the body of a procedure.
ghost use Rattle.std.specs.Prelude.{◌≡◌, [], map, IfOk, OnOk};
ghost use Rattle.std.specs.Option.{option_map};
ghost use Rattle.described.specs.Calls as model;
ghost use Rattle.described.specs.internal.CallParts as parts;

use address::{Address, Entry};
use std::alloc::{AllocError, Global};
use syntax::Items;
use types::{Action, Arm, Command, Guarded, Labelled};

/// A call as it stands in a body.
#[derive(Drop)]
pub(crate) struct BodyCall {
    /// the place at which the body of the called procedure stands, in the first turn of each loop around it
    pub(crate) place: Address,
    /// the line of the call, from 1
    pub(crate) line: u64,
    /// the procedure, by its place in the description
    pub(crate) procedure: u32,
}

/// The calls of the body, which stands at this place.
pub(crate) fn calls_of(
    alloc: Global,
    body: &Command,
    place: &Address,
) -> Result<Items<BodyCall>, AllocError>
    ensures { IfOk result (λ calls. calls ≡ model.calls_in body.now place.now) }
{
    let mut calls = Items::new(alloc);
    add_calls(alloc, body, place, &mut calls)?;
    Ok(calls)
}

/// Adds the calls of the command, which stands at this place.
#[cycle(calls)]
fn add_calls(
    alloc: Global,
    command: &Command,
    place: &Address,
    calls: &mut Items<BodyCall>,
) -> Result<(), AllocError>
    ensures { OnOk result (calls.new ≡ model.calls_onto command.now place.now calls.old) }
{
    let line = command.line;
    match command.action.get() {
        Action::Continue | Action::Halt | Action::Assign(_, _, _) => Ok(()),
        Action::Send(_, _, _) | Action::Receive(_, _) | Action::Sync(_) => Ok(()),
        Action::Loop(body) => add_inner(alloc, body, place, calls),
        Action::While(_, body) => add_inner(alloc, body, place, calls),
        Action::If(arms, last) => {
            add_guarded(alloc, arms.as_slice(), place, calls)?;
            add_last(alloc, last, place, calls)
        }
        Action::Case(_, arms, last) => {
            add_labelled(alloc, arms.as_slice(), place, calls)?;
            add_last(alloc, last, place, calls)
        }
        Action::Input(_, body) => add_inner(alloc, body, place, calls),
        Action::Select(arms) | Action::Arbitrate(arms) => {
            add_arms(alloc, arms.as_slice(), place, calls)
        }
        Action::Sequence(children) => add_sequence(alloc, children.as_slice(), place, calls),
        Action::Parallel(children) => add_branches(alloc, children.as_slice(), place, calls),
        Action::Call(procedure, _) => add_call(alloc, place, line, *procedure, calls),
    }
}

/// Adds one call.
fn add_call(
    alloc: Global,
    place: &Address,
    line: u64,
    procedure: u32,
    calls: &mut Items<BodyCall>,
) -> Result<(), AllocError>
    ensures { OnOk result (calls.new ≡ model.with_call line procedure place.now calls.old) }
{
    let place = place.copy(alloc)?;
    calls.push(BodyCall {
        place,
        line,
        procedure,
    })
}

/// Adds the calls of what stands in a loop, in its first turn, or in an arm.
#[cycle(calls)]
fn add_inner(
    alloc: Global,
    command: &Command,
    place: &Address,
    calls: &mut Items<BodyCall>,
) -> Result<(), AllocError>
    ensures { OnOk result (calls.new ≡ model.inner (model.calls_onto command.now) place.now calls.old) }
{
    let inner = Address::below(alloc, place.entries(), Entry::Ordered(1))?;
    add_calls(alloc, command, &inner, calls)
}

/// Adds the calls of the arms of an `if`.
#[cycle(calls)]
fn add_guarded(
    alloc: Global,
    arms: &[Guarded],
    place: &Address,
    calls: &mut Items<BodyCall>,
) -> Result<(), AllocError>
    ensures { OnOk result (calls.new ≡ model.in_turns (map parts.calls_onto_guarded arms.now) place.now calls.old) }
{
    for arm in arms {
        add_inner(alloc, &arm.body, place, calls)?;
    }
    Ok(())
}

/// Adds the calls of the arms of a `case`.
#[cycle(calls)]
fn add_labelled(
    alloc: Global,
    arms: &[Labelled],
    place: &Address,
    calls: &mut Items<BodyCall>,
) -> Result<(), AllocError>
    ensures { OnOk result (calls.new ≡ model.in_turns (map parts.calls_onto_labelled arms.now) place.now calls.old) }
{
    for arm in arms {
        add_inner(alloc, &arm.body, place, calls)?;
    }
    Ok(())
}

/// Adds the calls of the arms of a `select` or an `arbitrate`.
#[cycle(calls)]
fn add_arms(
    alloc: Global,
    arms: &[Arm],
    place: &Address,
    calls: &mut Items<BodyCall>,
) -> Result<(), AllocError>
    ensures { OnOk result (calls.new ≡ model.in_turns (map parts.calls_onto_arm arms.now) place.now calls.old) }
{
    for arm in arms {
        add_inner(alloc, &arm.body, place, calls)?;
    }
    Ok(())
}

/// Adds the calls of what stands behind an `else`.
#[cycle(calls)]
fn add_last(
    alloc: Global,
    last: &Option<Command>,
    place: &Address,
    calls: &mut Items<BodyCall>,
) -> Result<(), AllocError>
    ensures { OnOk result (calls.new ≡ model.in_last (option_map model.calls_onto last.now) place.now calls.old) }
{
    match last {
        Some(body) => add_inner(alloc, body, place, calls),
        None => Ok(()),
    }
}

/// Adds the calls of the children of a sequence.
#[cycle(calls)]
fn add_sequence(
    alloc: Global,
    children: &[Command],
    place: &Address,
    calls: &mut Items<BodyCall>,
) -> Result<(), AllocError>
    ensures { OnOk result (calls.new ≡ model.in_sequence 0 (map model.calls_onto children.now) place.now calls.old) }
{
    for (index, child) in children.iter().enumerate() {
        let inner = Address::below(alloc, place.entries(), Entry::Ordered(as_number(index)?))?;
        add_calls(alloc, child, &inner, calls)?;
    }
    Ok(())
}

/// Adds the calls of the branches of a parallel.
#[cycle(calls)]
fn add_branches(
    alloc: Global,
    children: &[Command],
    place: &Address,
    calls: &mut Items<BodyCall>,
) -> Result<(), AllocError>
    ensures { OnOk result (calls.new ≡ model.in_branches 0 (map model.calls_onto children.now) place.now calls.old) }
{
    for (index, child) in children.iter().enumerate() {
        let inner = Address::below(alloc, place.entries(), Entry::Branch(as_number(index)?))?;
        add_calls(alloc, child, &inner, calls)?;
    }
    Ok(())
}

/// The number in 32 bits. It is an error if it has more, which no system reaches.
fn as_number(index: usize) -> Result<u32, AllocError>
    ensures { IfOk result (λ number. number ≡ index) }
{
    match u32::try_from(index) {
        Ok(number) => Ok(number),
        Err(_) => Err(AllocError),
    }
}
