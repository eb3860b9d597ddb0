// The variables and the channels of a system, by their numbers.
ghost use Rattle.std.specs.Prelude.{◌≡◌, IfOk};
ghost use Rattle.outline.specs.Names as model;

use crate::branches::as_number;
use std::alloc::{AllocError, Global};
use syntax::Items;
use system::{Channel, ChannelKind, QualifiedName, Variable};
use value::Width;

/// A variable.
#[derive(Drop)]
pub struct VariableEntry {
    pub number: u32,
    /// as `value` takes it
    pub name: QualifiedName,
    pub width: Width,
    /// whether branches of a parallel may share it
    pub shared: bool,
}

/// A channel or a port.
#[derive(Drop)]
pub struct ChannelEntry {
    pub number: u32,
    /// as events show it
    pub name: QualifiedName,
    pub kind: ChannelKind,
    /// the offset in bytes of the name in its declaration, from 0
    pub declared: u64,
}

/// These variables in order, the first with the number 0.
pub(crate) fn variables_of(
    alloc: Global,
    variables: &[Variable],
) -> Result<Items<VariableEntry>, AllocError>
    ensures { IfOk result (λ entries. entries ≡ model.variables_from 0 variables.now) }
{
    let mut entries = Items::new(alloc);
    for (index, variable) in variables.iter().enumerate() {
        entries.push(VariableEntry {
            number: as_number(index)?,
            name: variable.name.clone()?,
            width: variable.width,
            shared: variable.shared,
        })?;
    }
    Ok(entries)
}

/// These channels in order, the first with the number 0.
pub(crate) fn channels_of(
    alloc: Global,
    channels: &[Channel],
) -> Result<Items<ChannelEntry>, AllocError>
    ensures { IfOk result (λ entries. entries ≡ model.channels_from 0 channels.now) }
{
    let mut entries = Items::new(alloc);
    for (index, channel) in channels.iter().enumerate() {
        entries.push(ChannelEntry {
            number: as_number(index)?,
            name: channel.name.clone()?,
            kind: channel.kind,
            declared: channel.declared,
        })?;
    }
    Ok(entries)
}
