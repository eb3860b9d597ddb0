// All of it together.
ghost use Rattle.std.specs.Prelude.{IfOk};
ghost use Rattle.outline.specs.Outlined.{Outlines};

use crate::branches::{BranchEntry, branches_of};
use crate::laws::branches_by_number;
use crate::names::{ChannelEntry, VariableEntry, channels_of, variables_of};
use sharing_check::Checked;
use std::alloc::{AllocError, Global};
use syntax::Items;

/// What there is in a system.
#[derive(Drop)]
pub struct Outline {
    /// by the numbers that `branch` takes
    pub branches: Items<BranchEntry>,
    /// by number
    pub variables: Items<VariableEntry>,
    /// by number
    pub channels: Items<ChannelEntry>,
}

/// Exactly the branches, variables and channels of the system, each once, in order of numbers. It is an error if there
/// is no memory.
pub fn outline_of(alloc: Global, checked: &Checked) -> Result<Outline, AllocError>
    ensures { IfOk result (λ made. Outlines checked.now made) }
{
    branches_by_number();
    let system = checked.system();
    let branches = branches_of(alloc, system)?;
    let variables = variables_of(alloc, system.variables.as_slice())?;
    let channels = channels_of(alloc, system.channels.as_slice())?;
    Ok(Outline {
        branches,
        variables,
        channels,
    })
}
