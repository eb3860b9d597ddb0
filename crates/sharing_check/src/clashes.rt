// The uses of variables in a system that clash, found branch by branch of each parallel. Of two tables that are put
// together the smaller one's entries move, so that each moves no oftener than the logarithm of their number.
ghost use Rattle.std.specs.Prelude.{◌≡◌, ◌≤◌, ℕ, map, IfOk, MatchOption};
ghost use Rattle.std.specs.Option.{option_map};
ghost use Rattle.sharing_check.specs.internal.Gathering as model;
ghost use Rattle.sharing_check.specs.Refusal.{ClashesAt, Least};

use crate::found::Found;
use std::alloc::{AllocError, Global};
use system::{Action, Arm, Command, Expression, Guarded, Labelled, System, Variable};

/// The least offset of a use that clashes with another one.
pub fn least_clash(alloc: Global, system: &System) -> Result<Option<u64>, AllocError>
    ensures { IfOk result (λ found.
        MatchOption found ((o : ℕ) → ClashesAt system.now o → ⊥) (λ o. Least (ClashesAt system.now) o)) }
{
    let mut found = Found::new(alloc);
    add_command(alloc, system.variables.as_slice(), &system.main, &mut found)?;
    Ok(found.least())
}

/// Adds what an expression reads.
fn add_reads(expression: &Expression, found: &mut Found) -> Result<(), AllocError>
    ensures { IfOk result (λ _. found.new ≡ model.reading expression.now found.old) }
{
    match expression {
        Expression::Constant(_) | Expression::Received(_, _) => {}
        Expression::Variable(variable, _) => found.add(*variable, false)?,
        Expression::Binary(_, left, right) => {
            add_reads(left.get(), found)?;
            add_reads(right.get(), found)?;
        }
        Expression::Not(operand) | Expression::Cast(operand, _) => {
            add_reads(operand.get(), found)?;
        }
    }
    Ok(())
}

/// Adds the uses of a command, and looks for clashes at each parallel in it.
#[cycle(gathering)]
fn add_command(
    alloc: Global,
    variables: &[Variable],
    command: &Command,
    found: &mut Found,
) -> Result<(), AllocError>
    ensures { IfOk result (λ _. found.new ≡ model.gathering variables.now command.now found.old) }
{
    match command.action.get() {
        Action::Continue | Action::Halt | Action::Sync(_) => Ok(()),
        Action::Assign(variable, _, value) => {
            found.add(*variable, true)?;
            add_reads(value, found)
        }
        Action::Send(_, _, value) => add_reads(value, found),
        Action::Receive(_, variable) => found.add(*variable, true),
        Action::Loop(body) | Action::Input(_, body) => add_command(alloc, variables, body, found),
        Action::While(guard, body) => {
            add_reads(guard, found)?;
            add_command(alloc, variables, body, found)
        }
        Action::If(arms, last) => {
            add_guarded(alloc, variables, arms.as_slice(), found)?;
            add_last(alloc, variables, last, found)
        }
        Action::Case(subject, arms, last) => {
            add_reads(subject, found)?;
            add_labelled(alloc, variables, arms.as_slice(), found)?;
            add_last(alloc, variables, last, found)
        }
        Action::Select(arms) | Action::Arbitrate(arms) => {
            add_arms(alloc, variables, arms.as_slice(), found)
        }
        Action::Sequence(children) => { add_sequence(alloc, variables, children.as_slice(), found) }
        Action::Parallel(children) => { add_parallel(alloc, variables, children.as_slice(), found) }
    }
}

/// Adds the children of a parallel, alone, and then what was touched before. It is a function of its own, so that the
/// recursion takes little stack where a command has another form.
#[cycle(gathering)]
#[inline(never)]
fn add_parallel(
    alloc: Global,
    variables: &[Variable],
    children: &[Command],
    found: &mut Found,
) -> Result<(), AllocError>
    ensures { IfOk result (λ _.
        found.new ≡ model.side_by_side variables.now (map (model.gathering variables.now) children.now) found.old) }
{
    let around = found.take_touches(alloc);
    add_branches(alloc, variables, children, found)?;
    found.put_back(around)
}

/// Adds the children of a sequence.
#[cycle(gathering)]
fn add_sequence(
    alloc: Global,
    variables: &[Variable],
    children: &[Command],
    found: &mut Found,
) -> Result<(), AllocError>
    ensures { IfOk result (λ _.
        found.new ≡ model.in_turn (map (model.gathering variables.now) children.now) found.old) }
{
    for child in children {
        add_command(alloc, variables, child, found)?;
    }
    Ok(())
}

/// Adds the children of a parallel.
#[cycle(gathering)]
fn add_branches(
    alloc: Global,
    variables: &[Variable],
    children: &[Command],
    found: &mut Found,
) -> Result<(), AllocError>
    ensures { IfOk result (λ _.
        found.new ≡ model.all_beside variables.now (map (model.gathering variables.now) children.now) found.old) }
{
    for child in children {
        add_branch(alloc, variables, child, found)?;
    }
    Ok(())
}

/// Adds a child of a parallel, and looks for clashes with those before it.
#[cycle(gathering)]
fn add_branch(
    alloc: Global,
    variables: &[Variable],
    child: &Command,
    found: &mut Found,
) -> Result<(), AllocError>
    ensures { IfOk result (λ _.
        found.new ≡ model.beside variables.now (model.gathering variables.now child.now) found.old) }
{
    match child.action.get() {
        // These touch no variable.
        Action::Continue | Action::Halt | Action::Sync(_) => Ok(()),
        _ => {
            let earlier = found.take_touches(alloc);
            add_command(alloc, variables, child, found)?;
            found.join(variables, earlier)
        }
    }
}

/// Adds the arms of an `if`.
#[cycle(gathering)]
fn add_guarded(
    alloc: Global,
    variables: &[Variable],
    arms: &[Guarded],
    found: &mut Found,
) -> Result<(), AllocError>
    ensures { IfOk result (λ _.
        found.new ≡ model.in_turn (map (model.gathering_guarded variables.now) arms.now) found.old) }
{
    for arm in arms {
        add_reads(&arm.guard, found)?;
        add_command(alloc, variables, &arm.body, found)?;
    }
    Ok(())
}

/// Adds the arms of a `case`.
#[cycle(gathering)]
fn add_labelled(
    alloc: Global,
    variables: &[Variable],
    arms: &[Labelled],
    found: &mut Found,
) -> Result<(), AllocError>
    ensures { IfOk result (λ _.
        found.new ≡ model.in_turn (map (model.gathering_labelled variables.now) arms.now) found.old) }
{
    for arm in arms {
        add_command(alloc, variables, &arm.body, found)?;
    }
    Ok(())
}

/// Adds the arms of a `select` or an `arbitrate`.
#[cycle(gathering)]
fn add_arms(
    alloc: Global,
    variables: &[Variable],
    arms: &[Arm],
    found: &mut Found,
) -> Result<(), AllocError>
    ensures { IfOk result (λ _.
        found.new ≡ model.in_turn (map (model.gathering_arm variables.now) arms.now) found.old) }
{
    for arm in arms {
        add_command(alloc, variables, &arm.body, found)?;
    }
    Ok(())
}

/// Adds what stands behind an `else`.
#[cycle(gathering)]
fn add_last(
    alloc: Global,
    variables: &[Variable],
    last: &Option<Command>,
    found: &mut Found,
) -> Result<(), AllocError>
    ensures { IfOk result (λ _.
        found.new ≡ model.then_last (option_map (model.gathering variables.now) last.now) found.old) }
{
    match last {
        Some(body) => add_command(alloc, variables, body, found),
        None => Ok(()),
    }
}
