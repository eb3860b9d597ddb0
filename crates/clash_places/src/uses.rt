// The uses of variables in a command, each with its place.
ghost use Rattle.std.specs.Prelude.{◌≡◌, ◌++◌, ◌∷◌, [], map, IfOk, OnOk};
ghost use Rattle.std.specs.Option.{option_map};
ghost use Rattle.address.specs.declared.Entry.TheVariants as entry;
ghost use Rattle.sharing_check.specs.Uses as model;
ghost use Rattle.clash_places.specs.Parts as parts;

use address::Entry;
use std::alloc::{AllocError, Global};
use std::marker::Model;
use system::{Action, Arm, Command, Expression, Guarded, Labelled, Use};

/// A use of a variable. Contracts see it as the definition of the rule on sharing has it.
#[derive(Drop)]
pub struct PlacedUse {
    /// the way to it from the root
    pub way: Vec<Entry>,
    pub number: u32,
    /// where its name stands in the source
    pub at: u64,
    pub is_write: bool,
}

impl Model for PlacedUse {
    ghost use Rattle.sharing_check.specs.Uses.{VariableUse};
    ghost use Rattle.clash_places.specs.Parts.{placed};

    ghost Value = { VariableUse };

    ghost view = { λ one. placed one.way.items one.number one.at one.is_write };
}

/// A use that has no way to go.
fn here(alloc: Global, variable: Use, is_write: bool) -> PlacedUse
    ensures { result ≡ model.here variable is_write }
{
    PlacedUse {
        way: Vec::new(alloc),
        number: variable.number,
        at: variable.offset,
        is_write,
    }
}

/// A use behind an entry.
fn farther(alloc: Global, entry: Entry, one: &PlacedUse) -> Result<PlacedUse, AllocError>
    ensures { IfOk result (λ made. made ≡ model.farther entry one.now) }
{
    let mut way = Vec::new(alloc);
    way.push(entry)?;
    way.extend_from_slice(one.way.as_slice())?;
    Ok(PlacedUse {
        way,
        number: one.number,
        at: one.at,
        is_write: one.is_write,
    })
}

/// Adds uses behind an entry.
fn add_behind(
    alloc: Global,
    entry: Entry,
    others: &[PlacedUse],
    uses: &mut Vec<PlacedUse>,
) -> Result<(), AllocError>
    ensures { OnOk result (uses.new.items ≡ uses.old.items ++ model.behind entry others.now) }
{
    for other in others {
        uses.push(farther(alloc, entry, other)?)?;
    }
    Ok(())
}

/// The entry of this child of a sequence, or of this arm. It is an error if the number has more than 32 bits, which no
/// text reaches.
fn ordered(number: usize) -> Result<Entry, AllocError>
    ensures { IfOk result (λ made. made ≡ entry.Ordered number) }
{
    Ok(Entry::Ordered(small(number)?))
}

/// The entry of this branch. It is an error if the number has more than 32 bits, which no text reaches.
fn branch(number: usize) -> Result<Entry, AllocError>
    ensures { IfOk result (λ made. made ≡ entry.Branch number) }
{
    Ok(Entry::Branch(small(number)?))
}

/// The number in 32 bits.
fn small(number: usize) -> Result<u32, AllocError>
    ensures { IfOk result (λ small. small ≡ number) }
{
    match u32::try_from(number) {
        Ok(small) => Ok(small),
        Err(_) => Err(AllocError),
    }
}

/// Adds the variables that an expression names.
fn add_named(expression: &Expression, named: &mut Vec<Use>) -> Result<(), AllocError>
    ensures { OnOk result (named.new.items ≡ named.old.items ++ model.named expression.now) }
{
    match expression {
        Expression::Constant(_) | Expression::Received(_, _) => Ok(()),
        Expression::Variable(variable, _) => Ok(named.push(*variable)?),
        Expression::Binary(_, left, right) => {
            add_named(left.get(), named)?;
            add_named(right.get(), named)
        }
        Expression::Not(operand) | Expression::Cast(operand, _) => add_named(operand.get(), named),
    }
}

/// Adds what an expression reads.
fn add_reads(
    alloc: Global,
    expression: &Expression,
    uses: &mut Vec<PlacedUse>,
) -> Result<(), AllocError>
    ensures { OnOk result (uses.new.items ≡ uses.old.items ++ model.reads expression.now) }
{
    let mut named = Vec::new(alloc);
    add_named(expression, &mut named)?;
    for variable in named.as_slice() {
        uses.push(here(alloc, *variable, false))?;
    }
    Ok(())
}

/// Adds the uses of variables in a command.
#[cycle(uses)]
pub fn add_uses(
    alloc: Global,
    command: &Command,
    uses: &mut Vec<PlacedUse>,
) -> Result<(), AllocError>
    ensures { OnOk result (uses.new.items ≡ uses.old.items ++ model.uses_of command.now) }
{
    match command.action.get() {
        Action::Continue | Action::Halt | Action::Sync(_) => Ok(()),
        Action::Assign(variable, _, value) => {
            uses.push(here(alloc, *variable, true))?;
            add_reads(alloc, value, uses)
        }
        Action::Send(_, _, value) => add_reads(alloc, value, uses),
        Action::Receive(_, variable) => Ok(uses.push(here(alloc, *variable, true))?),
        Action::Loop(body) | Action::Input(_, body) => add_uses(alloc, body, uses),
        Action::While(guard, body) => {
            add_reads(alloc, guard, uses)?;
            add_uses(alloc, body, uses)
        }
        Action::If(arms, last) => {
            add_guarded(alloc, arms.as_slice(), uses)?;
            add_last(alloc, arms.len(), last, uses)
        }
        Action::Case(subject, arms, last) => {
            add_reads(alloc, subject, uses)?;
            add_labelled(alloc, arms.as_slice(), uses)?;
            add_last(alloc, arms.len(), last, uses)
        }
        Action::Select(arms) | Action::Arbitrate(arms) => add_arms(alloc, arms.as_slice(), uses),
        Action::Sequence(children) => add_sequence(alloc, children.as_slice(), uses),
        Action::Parallel(children) => add_branches(alloc, children.as_slice(), uses),
    }
}

/// Adds those of a command that stands behind an entry.
#[cycle(uses)]
fn add_child(
    alloc: Global,
    entry: Entry,
    command: &Command,
    uses: &mut Vec<PlacedUse>,
) -> Result<(), AllocError>
    ensures { OnOk result (uses.new.items ≡ uses.old.items ++ model.behind entry (model.uses_of command.now)) }
{
    let mut own = Vec::new(alloc);
    add_uses(alloc, command, &mut own)?;
    add_behind(alloc, entry, own.as_slice(), uses)
}

/// Adds those of the children of a sequence.
#[cycle(uses)]
fn add_sequence(
    alloc: Global,
    children: &[Command],
    uses: &mut Vec<PlacedUse>,
) -> Result<(), AllocError>
    ensures { OnOk result (uses.new.items
        ≡ uses.old.items ++ model.numbered entry.Ordered 0 (map model.uses_of children.now)) }
{
    for (index, child) in children.iter().enumerate() {
        add_child(alloc, ordered(index)?, child, uses)?;
    }
    Ok(())
}

/// Adds those of the branches of a parallel.
#[cycle(uses)]
fn add_branches(
    alloc: Global,
    children: &[Command],
    uses: &mut Vec<PlacedUse>,
) -> Result<(), AllocError>
    ensures { OnOk result (uses.new.items
        ≡ uses.old.items ++ model.numbered entry.Branch 0 (map model.uses_of children.now)) }
{
    for (index, child) in children.iter().enumerate() {
        add_child(alloc, branch(index)?, child, uses)?;
    }
    Ok(())
}

/// Adds those of the arms of a `select` or an `arbitrate`.
#[cycle(uses)]
fn add_arms(alloc: Global, arms: &[Arm], uses: &mut Vec<PlacedUse>) -> Result<(), AllocError>
    ensures { OnOk result (uses.new.items
        ≡ uses.old.items ++ model.numbered entry.Ordered 0 (map parts.uses_of_arm arms.now)) }
{
    for (index, arm) in arms.iter().enumerate() {
        add_child(alloc, ordered(index)?, &arm.body, uses)?;
    }
    Ok(())
}

/// Adds those of the arms of a `case`.
#[cycle(uses)]
fn add_labelled(
    alloc: Global,
    arms: &[Labelled],
    uses: &mut Vec<PlacedUse>,
) -> Result<(), AllocError>
    ensures { OnOk result (uses.new.items
        ≡ uses.old.items ++ model.numbered entry.Ordered 0 (map parts.uses_of_labelled arms.now)) }
{
    for (index, arm) in arms.iter().enumerate() {
        add_child(alloc, ordered(index)?, &arm.body, uses)?;
    }
    Ok(())
}

/// Adds those of the arms of an `if`.
#[cycle(uses)]
fn add_guarded(alloc: Global, arms: &[Guarded], uses: &mut Vec<PlacedUse>) -> Result<(), AllocError>
    ensures { OnOk result (uses.new.items
        ≡ uses.old.items ++ model.numbered entry.Ordered 0 (map parts.uses_of_guarded arms.now)) }
{
    for (index, arm) in arms.iter().enumerate() {
        add_guarded_arm(alloc, ordered(index)?, arm, uses)?;
    }
    Ok(())
}

/// Adds those of an arm of an `if`, its guard before its body.
#[cycle(uses)]
fn add_guarded_arm(
    alloc: Global,
    entry: Entry,
    arm: &Guarded,
    uses: &mut Vec<PlacedUse>,
) -> Result<(), AllocError>
    ensures { OnOk result (uses.new.items ≡ uses.old.items ++ model.behind entry (parts.uses_of_guarded arm.now)) }
{
    let mut own = Vec::new(alloc);
    add_reads(alloc, &arm.guard, &mut own)?;
    add_uses(alloc, &arm.body, &mut own)?;
    add_behind(alloc, entry, own.as_slice(), uses)
}

/// Adds those behind an `else`, which stands behind so many arms.
#[cycle(uses)]
fn add_last(
    alloc: Global,
    arms: usize,
    last: &Option<Command>,
    uses: &mut Vec<PlacedUse>,
) -> Result<(), AllocError>
    ensures { OnOk result (uses.new.items
        ≡ uses.old.items ++ parts.of_last arms (option_map model.uses_of last.now)) }
{
    match last {
        Some(body) => add_child(alloc, ordered(arms)?, body, uses),
        None => Ok(()),
    }
}
