// The declarations: a scope for each block, and its signals in it.
use crate::numbers::add_number;
use crate::signals::{add_code, of_channel, of_variable, small, width_of};
use picture_data::{Instance, prefix_length};
use std::alloc::{AllocError, Global};
use system::System;

/// A signal that a block declares. They are in order of blocks, and of one in order of signals.
#[derive(Clone, Copy, Debug, PartialEq, Eq, PartialOrd, Ord)]
struct Declared {
    block: usize,
    signal: u64,
    /// the number of its variable, or of its channel
    number: u32,
}

/// Adds all declarations.
pub(crate) fn add_declarations(
    alloc: Global,
    out: &mut Vec<u8>,
    system: &System,
    instances: &[Instance],
) -> Result<(), AllocError> {
    let declared = declared_in(alloc, system, instances)?;
    let mut open: Vec<usize> = Vec::new(alloc);
    let mut next = 0;
    for (block, instance) in instances.iter().enumerate() {
        close_to(out, &mut open, instance.parent)?;
        add_scope(out, instance)?;
        open.push(block)?;
        next = add_signals(alloc, out, system, declared.as_slice(), block, next)?;
    }
    close_to(out, &mut open, None)
}

/// Ends the scopes that are open within this block.
fn close_to(
    out: &mut Vec<u8>,
    open: &mut Vec<usize>,
    block: Option<usize>,
) -> Result<(), AllocError> {
    'scopes: while let Some(inner) = open.pop() {
        if Some(inner) == block {
            open.push(inner)?;
            return Ok(());
        }
        out.extend_from_slice(b"$upscope $end\n")?;
    }
    Ok(())
}

/// Begins the scope of a block.
fn add_scope(out: &mut Vec<u8>, instance: &Instance) -> Result<(), AllocError> {
    out.extend_from_slice(b"$scope module ")?;
    out.extend_from_slice(instance.procedure.as_slice())?;
    if let Some((_, before)) = instance.prefix.as_slice().split_last() {
        out.extend_from_slice(b"_")?;
        out.extend_from_slice(last_part(before))?;
    }
    out.extend_from_slice(b" $end\n")
}

/// What stands behind the last `:`.
fn last_part(name: &[u8]) -> &[u8] {
    &name[prefix_length(name)..]
}

/// Adds the signals of a block, from this one of the declared on, and where the next block's begin.
fn add_signals(
    alloc: Global,
    out: &mut Vec<u8>,
    system: &System,
    declared: &[Declared],
    block: usize,
    first: usize,
) -> Result<usize, AllocError> {
    for index in first..declared.len() {
        let one = declared[index];
        if one.block != block {
            return Ok(index);
        }
        add_signal(alloc, out, system, one)?;
    }
    Ok(declared.len().max(first))
}

/// Adds a signal, and those of the actions of a channel.
fn add_signal(
    alloc: Global,
    out: &mut Vec<u8>,
    system: &System,
    declared: Declared,
) -> Result<(), AllocError> {
    let name = name_of(alloc, system, declared)?;
    let own = last_part(name.as_slice());
    if declared.signal < system.variables.len() as u64 {
        return add_line(out, system, b"reg", declared.signal, own, b"");
    }
    add_line(out, system, b"wire", declared.signal, own, b"")?;
    add_line(
        out,
        system,
        b"wire",
        declared.signal.saturating_add(1),
        own,
        b"_A",
    )?;
    add_line(
        out,
        system,
        b"wire",
        declared.signal.saturating_add(2),
        own,
        b"_B",
    )
}

/// The whole name of what a signal shows.
fn name_of(alloc: Global, system: &System, declared: Declared) -> Result<Vec<u8>, AllocError> {
    let mut name = Vec::new(alloc);
    let found = if declared.signal < system.variables.len() as u64 {
        system.variable_name(declared.number)
    } else {
        system.channel_name(declared.number)
    };
    if let Some(found) = found {
        found.write_to(&mut name)?;
    }
    Ok(name)
}

/// Adds the declaration of a signal.
fn add_line(
    out: &mut Vec<u8>,
    system: &System,
    kind: &[u8],
    signal: u64,
    name: &[u8],
    action: &[u8],
) -> Result<(), AllocError> {
    let width = width_of(system, signal);
    out.extend_from_slice(b"$var ")?;
    out.extend_from_slice(kind)?;
    out.push(b' ')?;
    add_number(out, width)?;
    out.push(b' ')?;
    add_code(out, signal)?;
    out.push(b' ')?;
    out.extend_from_slice(name)?;
    out.extend_from_slice(action)?;
    if width > 1 {
        out.extend_from_slice(b" [")?;
        add_number(out, width - 1)?;
        out.extend_from_slice(b":0]")?;
    }
    out.extend_from_slice(b" $end\n")
}

/// What each block declares.
fn declared_in(
    alloc: Global,
    system: &System,
    instances: &[Instance],
) -> Result<Vec<Declared>, AllocError> {
    let mut declared = Vec::new(alloc);
    let mut name = Vec::new(alloc);
    for (index, variable) in system.variables.as_slice().iter().enumerate() {
        let number = small(index);
        name.clear();
        variable.name.write_to(&mut name)?;
        let block = block_of(instances, name.as_slice());
        let signal = of_variable(number);
        declared.push(Declared {
            block,
            signal,
            number,
        })?;
    }
    for (index, channel) in system.channels.as_slice().iter().enumerate() {
        let number = small(index);
        name.clear();
        channel.name.write_to(&mut name)?;
        let block = block_of(instances, name.as_slice());
        let signal = of_channel(system, number);
        declared.push(Declared {
            block,
            signal,
            number,
        })?;
    }
    declared.sort_unstable();
    Ok(declared)
}

/// The block that declares this name: the one with its prefix. The root, where there is none.
fn block_of(instances: &[Instance], name: &[u8]) -> usize {
    let prefix = &name[..prefix_length(name)];
    for (block, instance) in instances.iter().enumerate() {
        if instance.prefix.as_slice() == prefix {
            return block;
        }
    }
    0
}
