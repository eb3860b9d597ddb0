//! What only the source tells of a description: which calls make what stands in the system, on which line a variable or
//! a channel is declared, and which numbers the elements of enumerations are.
#![tactic(auto)]

ghost use Rattle.std.specs.Prelude.{◌≡◌, IfOk, map};
ghost use Rattle.system.specs.declared.system.Channel as system_channel;
ghost use Rattle.described.specs.Description.{Describes};
ghost use Rattle.described.specs.Told.{TellsNothing};

mod body_calls;
mod call;
mod enumeration;
mod found;
mod lines;
mod walk;

pub use call::CallEntry;
pub use enumeration::Enumeration;
use enumeration::enumerations_in;
use lines::{line_starts, lines_of};
use std::alloc::{AllocError, Global};
use syntax::Items;
use system::{Channel, System};
use types::Procedure;
use walk::walk;

/// What the source tells of a description.
#[derive(Drop)]
pub struct Described {
    /// the calls, in the order of the source, each behind the one in whose body it stands
    pub calls: Items<CallEntry>,
    /// how many more calls there are, each of which stands in 64 others or more
    pub deeper: u64,
    /// the line on which each variable of the system is declared, from 1, by the variable's number
    pub variable_lines: Vec<u64>,
    /// the same of each channel
    pub channel_lines: Vec<u64>,
    /// the enumerations, in the order of the source
    pub enumerations: Items<Enumeration>,
}

impl Described {
    /// Nothing is told.
    pub fn nothing(alloc: Global) -> Described
        ensures { TellsNothing result }
    {
        Described {
            calls: Items::new(alloc),
            deeper: 0,
            variable_lines: Vec::new(alloc),
            channel_lines: Vec::new(alloc),
            enumerations: Items::new(alloc),
        }
    }
}

/// What is told of the description in the source, whose procedures these are, and which was made the system. It is an
/// error if there is no memory.
pub fn describe(
    alloc: Global,
    source: &[u8],
    procedures: &[Procedure],
    system: &System,
) -> Result<Described, AllocError>
    ensures { IfOk result (λ d. Describes source.now procedures.now system.now d) }
{
    let starts = line_starts(alloc, source)?;
    let found = walk(alloc, procedures)?;
    let variable_lines = lines_of(alloc, starts.as_slice(), found.variables.as_slice())?;
    let declared = declared_in(alloc, system.channels.as_slice())?;
    let channel_lines = lines_of(alloc, starts.as_slice(), declared.as_slice())?;
    let enumerations = enumerations_in(alloc, source)?;
    Ok(Described {
        calls: found.calls,
        deeper: found.deeper,
        variable_lines,
        channel_lines,
        enumerations,
    })
}

/// The offset at which each channel is declared.
fn declared_in(alloc: Global, channels: &[Channel]) -> Result<Vec<u64>, AllocError>
    ensures { IfOk result (λ declared.
        declared.items ≡ map (λ (c : system_channel.Channel). c.declared) channels.now) }
{
    let mut declared = Vec::with_capacity(alloc, channels.len())?;
    for channel in channels {
        declared.push(channel.declared)?;
    }
    Ok(declared)
}
