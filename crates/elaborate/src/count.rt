// How large a system is, counted before it is made.
ghost use Rattle.std.specs.Prelude.{◌≡◌, ◌↔◌, IsTrue, map, IfOk, length, List, [], slice_index_or, ◌-◌};
ghost use Rattle.std.specs.Option.{option_map};
ghost use Rattle.elaborate.specs.Size.{nothing, IsSmall};
ghost use Rattle.elaborate.specs.SourceSize as model;
ghost use Rattle.elaborate.specs.internal.Limited.{limited};
ghost use Rattle.elaborate.specs.internal.SizeParts.{size_of_guarded, size_of_labelled, size_of_arm};

use std::alloc::{AllocError, Global};
use types::{Action, Arm, Command, Expression, Guarded, Labelled, Procedure};

/// The most nodes of a system.
const MOST_NODES: u32 = 16384;

/// The most commands one inside the other: one and the 1,024 around it.
const MOST_NESTED: u32 = 1025;

/// How large a part of a system is, its calls replaced. Each number is at most one more than its limit.
#[derive(Clone, Copy, Debug)]
pub struct Size {
    pub nodes: u32,
    /// the most commands one inside the other
    pub levels: u32,
}

impl Size {
    /// Nothing.
    const NONE: Size = Size {
        nodes: 0,
        levels: 0,
    };
}

/// So many nodes without a command.
fn plain_nodes(nodes: usize) -> Size
    ensures { result ≡ model.plain_nodes limited nodes }
{
    Size {
        nodes: nodes.min(MOST_NODES as usize + 1) as u32,
        levels: 0,
    }
}

/// Both parts, side by side.
fn beside(first: Size, second: Size) -> Size
    ensures { result ≡ model.beside limited first second }
{
    Size {
        nodes: first.nodes.saturating_add(second.nodes).min(MOST_NODES + 1),
        levels: first.levels.max(second.levels).min(MOST_NESTED + 1),
    }
}

/// A command with these parts.
fn around(parts: Size) -> Size
    ensures { result ≡ model.around limited parts }
{
    Size {
        nodes: parts.nodes.saturating_add(1).min(MOST_NODES + 1),
        levels: parts.levels.saturating_add(1).min(MOST_NESTED + 1),
    }
}

/// The size of an expression.
fn size_of_expression(expression: &Expression) -> Size
    ensures { result ≡ model.expression_size limited expression.now }
{
    match expression {
        Expression::Constant(_) | Expression::Variable(_, _) | Expression::Received(_, _) => {
            plain_nodes(1)
        }
        Expression::Binary(_, left, right) => {
            let left = size_of_expression(left.get());
            let right = size_of_expression(right.get());
            beside(plain_nodes(1), beside(left, right))
        }
        Expression::Not(operand) | Expression::Cast(operand, _) => {
            beside(plain_nodes(1), size_of_expression(operand.get()))
        }
    }
}

/// The size of a command, where `sizes` has that of each procedure before.
#[cycle(size)]
fn size_of(command: &Command, sizes: &[Size]) -> Size
    ensures { result ≡ model.size_of limited sizes.now command.now }
{
    match command.action.get() {
        Action::Call(procedure, _) => size_of_call(*procedure, sizes),
        Action::Continue | Action::Halt | Action::Receive(_, _) | Action::Sync(_) => {
            around(Size::NONE)
        }
        Action::Assign(_, _, value) | Action::Send(_, _, value) => {
            around(size_of_expression(value))
        }
        Action::Loop(body) | Action::Input(_, body) => around(size_of(body, sizes)),
        Action::While(guard, body) => {
            around(beside(size_of_expression(guard), size_of(body, sizes)))
        }
        Action::If(arms, last) => {
            let arms = size_of_guarded(arms.as_slice(), sizes);
            around(beside(arms, size_of_last(last, sizes)))
        }
        Action::Case(subject, arms, last) => {
            let arms = size_of_labelled(arms.as_slice(), sizes);
            let parts = beside(arms, size_of_last(last, sizes));
            around(beside(size_of_expression(subject.get()), parts))
        }
        Action::Select(arms) | Action::Arbitrate(arms) => {
            around(size_of_arms(arms.as_slice(), sizes))
        }
        Action::Sequence(children) | Action::Parallel(children) => {
            around(size_of_all(children.as_slice(), sizes))
        }
    }
}

/// The size of a procedure that is called. One that is not there is a command that does nothing.
fn size_of_call(procedure: u32, sizes: &[Size]) -> Size
    ensures { result ≡ slice_index_or sizes.now procedure (model.around limited nothing) }
{
    match sizes.get(procedure as usize) {
        Some(size) => *size,
        None => around(Size::NONE),
    }
}

/// The size of commands side by side.
#[cycle(size)]
fn size_of_all(commands: &[Command], sizes: &[Size]) -> Size
    ensures { result ≡ model.all_beside limited nothing (map (model.size_of limited sizes.now) commands.now) }
{
    let mut size = Size::NONE;
    for command in commands {
        size = beside(size, size_of(command, sizes));
    }
    size
}

/// The size of the arms of an `if`.
#[cycle(size)]
fn size_of_guarded(arms: &[Guarded], sizes: &[Size]) -> Size
    ensures { result ≡ model.all_beside limited nothing (map (size_of_guarded limited sizes.now) arms.now) }
{
    let mut size = Size::NONE;
    for arm in arms {
        let guard = size_of_expression(&arm.guard);
        size = beside(size, beside(guard, size_of(&arm.body, sizes)));
    }
    size
}

/// The size of the arms of a `case`.
#[cycle(size)]
fn size_of_labelled(arms: &[Labelled], sizes: &[Size]) -> Size
    ensures { result ≡ model.all_beside limited nothing (map (size_of_labelled limited sizes.now) arms.now) }
{
    let mut size = Size::NONE;
    for arm in arms {
        size = beside(size, size_of(&arm.body, sizes));
    }
    size
}

/// The size of the arms of a `select` or an `arbitrate`.
#[cycle(size)]
fn size_of_arms(arms: &[Arm], sizes: &[Size]) -> Size
    ensures { result ≡ model.all_beside limited nothing (map (size_of_arm limited sizes.now) arms.now) }
{
    let mut size = Size::NONE;
    for arm in arms {
        size = beside(size, size_of(&arm.body, sizes));
    }
    size
}

/// The size of what stands behind an `else`.
#[cycle(size)]
fn size_of_last(last: &Option<Command>, sizes: &[Size]) -> Size
    ensures { result ≡ model.last_size (option_map (model.size_of limited sizes.now) last.now) }
{
    match last {
        Some(body) => size_of(body, sizes),
        None => Size::NONE,
    }
}

/// The size of a procedure where it is called: a node for each local, and its body.
fn size_of_procedure(procedure: &Procedure, sizes: &[Size]) -> Size
    ensures { result ≡ model.procedure_size limited sizes.now procedure.now }
{
    let locals = plain_nodes(procedure.locals.len());
    beside(locals, size_of(&procedure.body, sizes))
}

/// The size of each procedure.
fn sizes_of(alloc: Global, procedures: &[Procedure]) -> Result<Vec<Size>, AllocError>
    ensures { IfOk result (λ sizes. sizes.items ≡ model.sizes_onto limited [] procedures.now) }
{
    let mut sizes = Vec::with_capacity(alloc, procedures.len())?;
    for procedure in procedures {
        let size = size_of_procedure(procedure, sizes.as_slice());
        sizes.push(size)?;
    }
    Ok(sizes)
}

/// The last size. Where there is none, there is a command that does nothing.
fn last_of(sizes: &[Size]) -> Size
    ensures { result ≡ slice_index_or sizes.now (length sizes.now - 1) (model.around limited nothing) }
{
    match sizes.get(sizes.len().saturating_sub(1)) {
        Some(size) => *size,
        None => around(Size::NONE),
    }
}

/// The size of the last procedure, with the branches of the environment for its ports and the values that they send.
/// Each number is cut above its limit.
fn size_of_system(
    alloc: Global,
    procedures: &[Procedure],
    ports: usize,
    values: usize,
) -> Result<Size, AllocError>
    ensures { IfOk result (λ size. size ≡ model.system_size limited procedures.now ports values) }
{
    let sizes = sizes_of(alloc, procedures)?;
    let environment = beside(plain_nodes(ports), plain_nodes(values));
    Ok(beside(last_of(sizes.as_slice()), environment))
}

/// Whether the last procedure, with a node for each of its ports and for each value, has at most 16,384 nodes and no
/// command inside more than 1,024 others.
pub fn is_small(
    alloc: Global,
    procedures: &[Procedure],
    ports: usize,
    values: usize,
) -> Result<bool, AllocError>
    ensures { IfOk result (λ small. IsTrue small
        ↔ IsSmall (model.system_size model.whole procedures.now ports values)) }
{
    let size = size_of_system(alloc, procedures, ports, values)?;
    Ok(within_limits(size))
}

/// Whether a size is within the limits.
fn within_limits(size: Size) -> bool
    ensures { IsTrue result ↔ IsSmall size }
{
    size.nodes <= MOST_NODES && size.levels <= MOST_NESTED
}
