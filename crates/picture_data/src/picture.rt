// The whole picture.
ghost use Rattle.std.specs.Prelude.{IfOk};
ghost use Rattle.picture_data.specs.Shown.{Shows};

use crate::end::{End, end_of};
use crate::steps::{Steps, steps_of};
use machine::Machine;
use picture_lanes::{Feed, Ground, Instance, Lane, ground_of};
use std::alloc::{AllocError, Global};
use types::Procedure;

/// What the picture of a run shows.
#[derive(Drop)]
pub struct Picture {
    /// the blocks of the circuit; the first is the root
    pub instances: Vec<Instance>,
    /// from left to right
    pub lanes: Vec<Lane>,
    pub feeds: Vec<Feed>,
    pub steps: Steps,
    pub end: End,
}

/// The picture of the run of the machine, whose system these procedures were elaborated to. It takes about as long as
/// to load the run, and is an error if there is no memory.
pub fn picture_of(
    alloc: Global,
    machine: &Machine,
    procedures: &[Procedure],
) -> Result<Picture, AllocError>
    ensures { IfOk result (Shows machine.now procedures.now) }
{
    let ground = ground_of(alloc, procedures, machine.checked().system())?;
    let Ground {
        instances,
        table,
        uses,
        feeds,
    } = ground;
    let steps = steps_of(alloc, machine, &table)?;
    let end = end_of(
        alloc,
        machine,
        &table,
        uses.as_slice(),
        steps.depths.as_slice(),
    )?;
    Ok(Picture {
        instances: instances.into_vec(),
        lanes: table.into_lanes().into_vec(),
        feeds: feeds.into_vec(),
        steps,
        end,
    })
}
