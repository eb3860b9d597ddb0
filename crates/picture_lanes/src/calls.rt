// Calls: the blocks that they make.
ghost use Rattle.std.specs.Prelude.{◌≡◌, ◌∷◌, ◌++◌, [], ℕ, IfOk, OnOk, MatchOption, length, slice_get};
ghost use Rattle.std.specs.Option.{option_copied};
ghost use Rattle.picture_lanes.specs.Calls as model;

use crate::lane::Instance;
use itoa::Buffer;
use std::alloc::{AllocError, Global};
use syntax::Items;
use types::{Action, Binding, ChannelUse, Command, Procedure};

/// What a command stands for behind all calls, and in which block: where it is a call, that of the body that is called,
/// which is a block of its own.
pub(crate) fn behind_calls<'a>(
    alloc: Global,
    procedures: &'a [Procedure],
    written: &'a Command,
    block: usize,
    instances: &mut Items<Instance>,
) -> Result<(&'a Command, usize), AllocError>
    ensures { IfOk result (λ at. record { written = at.0.now; block = at.1; instances = instances.new }
        ≡ model.behind_calls (length procedures.now) procedures.now
        (record { written = written.now; block = block; instances = instances.old })) }
{
    let mut written = written;
    let mut block = block;
    for passed in 0..procedures.len() {
        let _calls = passed;
        match enter(alloc, procedures, written, block, instances)? {
            Some(body) => {
                written = body;
                block = instances.len().saturating_sub(1);
            }
            None => return Ok((written, block)),
        }
    }
    Ok((written, block))
}

/// Adds the block that the command makes, if it is a call, and gives the body that is called.
fn enter<'a>(
    alloc: Global,
    procedures: &'a [Procedure],
    written: &'a Command,
    block: usize,
    instances: &mut Items<Instance>,
) -> Result<Option<&'a Command>, AllocError>
    ensures { IfOk result (λ body. model.IsEntered procedures.now written.now block instances.old instances.new
        (option_copied body)) }
{
    let Action::Call(number, arguments) = written.action.get() else {
        return Ok(None);
    };
    let Some(called) = procedures.get(*number as usize) else {
        return Ok(None);
    };
    let made = instance_of(
        alloc,
        procedures,
        instances.as_slice(),
        block,
        written.line,
        *number as usize,
        called,
        arguments.as_slice(),
    )?;
    instances.push(made)?;
    Ok(Some(&called.body))
}

/// The block that a call on this line in the block makes, of the procedure of this number.
fn instance_of(
    alloc: Global,
    procedures: &[Procedure],
    instances: &[Instance],
    block: usize,
    line: u64,
    number: usize,
    called: &Procedure,
    arguments: &[ChannelUse],
) -> Result<Instance, AllocError>
    ensures { IfOk result (λ made.
        made ≡ model.instance_of procedures.now instances.now block line number called.now arguments.now) }
{
    let procedure = Items::from_vec(Vec::from_slice(alloc, called.name.text())?);
    let prefix = next_prefix(alloc, instances, block)?;
    let arguments = argument_names(alloc, procedures, instances.get(block), arguments)?;
    Ok(Instance {
        procedure,
        number,
        prefix,
        parent: Some(block),
        call_line: line,
        line: called.body.line,
        arguments,
    })
}

/// What stands before the names that the next call of the block makes.
fn next_prefix(alloc: Global, instances: &[Instance], block: usize) -> Result<Items<u8>, AllocError>
    ensures { IfOk result (λ prefix. prefix ≡ model.next_prefix instances.now block) }
{
    let Some(around) = instances.get(block) else {
        return Ok(Items::new(alloc));
    };
    let mut prefix = Vec::from_slice(alloc, around.prefix.as_slice())?;
    let mut buffer = Buffer::new();
    let digits = buffer.format(calls_of(instances, block) + 1);
    prefix.extend_from_slice(digits.as_bytes())?;
    prefix.push(b':')?;
    Ok(Items::from_vec(prefix))
}

/// How many calls the block has made.
fn calls_of(instances: &[Instance], block: usize) -> usize
    ensures calls { result ≡ model.calls_of block instances.now }
    ensures most { model.IsAtMost result instances.now }
{
    let mut calls = 0;
    for instance in instances {
        if is_in(instance.parent, block) {
            calls += 1;
        }
    }
    calls
}

/// Whether what has this parent is called by the block.
fn is_in(parent: Option<usize>, block: usize) -> bool
    ensures { result ≡ model.is_in block parent }
{
    match parent {
        Some(parent) => parent == block,
        None => false,
    }
}

/// The names of the arguments as the block around the call has them, with commas.
fn argument_names(
    alloc: Global,
    procedures: &[Procedure],
    around: Option<&Instance>,
    arguments: &[ChannelUse],
) -> Result<Items<u8>, AllocError>
    ensures { IfOk result (λ names. names
        ≡ model.argument_names procedures.now (option_copied around.entry) arguments.now) }
{
    match around {
        Some(around) => names_by(alloc, procedures.get(around.number), arguments),
        None => Ok(Items::new(alloc)),
    }
}

/// The same by the procedure that calls.
fn names_by(
    alloc: Global,
    caller: Option<&Procedure>,
    arguments: &[ChannelUse],
) -> Result<Items<u8>, AllocError>
    ensures { IfOk result (λ names. names ≡ model.names_by (option_copied caller.entry) arguments.now) }
{
    let Some(caller) = caller else {
        return Ok(Items::new(alloc));
    };
    let mut names = Vec::new(alloc);
    for argument in arguments {
        add_name(&mut names, bound_name(caller, argument.channel))?;
    }
    Ok(Items::from_vec(names))
}

/// Adds a name, with a comma before it if it is not the first.
fn add_name(names: &mut Vec<u8>, name: &[u8]) -> Result<(), AllocError>
    ensures { OnOk result (names.new.items ≡ model.with_name names.old.items name.now) }
{
    if !names.is_empty() {
        names.extend_from_slice(b", ")?;
    }
    names.extend_from_slice(name)?;
    Ok(())
}

/// The name of a port or a local of the procedure.
fn bound_name(procedure: &Procedure, binding: Binding) -> &[u8]
    ensures { result.now ≡ model.bound_name procedure.now binding }
{
    match binding {
        Binding::Port(place) => match procedure.ports.get(place as usize) {
            Some(port) => port.name.text(),
            None => b"?",
        },
        Binding::Local(place) => match procedure.locals.get(place as usize) {
            Some(local) => local.name.text(),
            None => b"?",
        },
    }
}
