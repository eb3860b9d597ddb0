// What is drawn on: the blocks, lanes and ports of the system.
ghost use Rattle.std.specs.Prelude.{◌≡◌, ◌++◌, ◌∷◌, [], IfOk, OnOk, slice_get};
ghost use Rattle.std.specs.Option.{option_copied};
ghost use Rattle.picture_lanes.specs.Ground as model;
ghost use Rattle.picture_lanes.specs.Ground.{IsGround};

use crate::lane::{Feed, Instance};
use crate::ports::{fed_count, port_path, port_use};
use crate::table::{LaneTable, table_of};
use crate::walk::{ChannelUse, Found, walk};
use std::alloc::{AllocError, Global};
use syntax::Items;
use system::{Branch, System};
use types::Procedure;

/// What is drawn on.
#[derive(Drop)]
pub struct Ground {
    /// the blocks of the circuit; the first is the root
    pub instances: Items<Instance>,
    pub table: LaneTable,
    /// the uses of channels, those of the environment behind the others
    pub uses: Items<ChannelUse>,
    pub feeds: Items<Feed>,
}

/// The blocks, lanes and ports of the system, which these procedures were elaborated to.
///
/// It is an error if there is no memory.
pub fn ground_of(
    alloc: Global,
    procedures: &[Procedure],
    system: &System,
) -> Result<Ground, AllocError>
    ensures { IfOk result (IsGround procedures.now system.now) }
{
    let Found {
        instances,
        stops,
        uses,
    } = found_in(alloc, procedures, system)?;
    let environment = system.environment.as_slice();
    let uses = with_ports(alloc, environment, uses)?;
    let table = table_of(alloc, system, stops.as_slice())?;
    let feeds = feeds_of(alloc, environment, &table)?;
    Ok(Ground {
        instances,
        table,
        uses,
        feeds,
    })
}

/// What there is in the body.
fn found_in(alloc: Global, procedures: &[Procedure], system: &System) -> Result<Found, AllocError>
    ensures { IfOk result (λ found. found ≡ model.found_in procedures.now system.now) }
{
    let mut found = Found {
        instances: Items::new(alloc),
        stops: Items::new(alloc),
        uses: Items::new(alloc),
    };
    let Some(root) = procedures.last() else {
        return Ok(found);
    };
    found.instances.push(root_instance(alloc, root, procedures.len().saturating_sub(1))?)?;
    walk(
        &system.main,
        alloc,
        procedures,
        &root.body,
        &[0],
        0,
        &mut found,
    )?;
    Ok(found)
}

/// The block of the root, which has this number.
fn root_instance(alloc: Global, root: &Procedure, number: usize) -> Result<Instance, AllocError>
    ensures { IfOk result (λ made. made ≡ model.root_instance root.now number) }
{
    let procedure = Items::from_vec(Vec::from_slice(alloc, root.name.text())?);
    let line = root.body.line;
    Ok(Instance {
        procedure,
        number,
        prefix: Items::new(alloc),
        parent: None,
        call_line: line,
        line,
        arguments: Items::new(alloc),
    })
}

/// The uses of channels, and behind them those of the environment.
fn with_ports(
    alloc: Global,
    environment: &[Branch],
    uses: Items<ChannelUse>,
) -> Result<Items<ChannelUse>, AllocError>
    ensures { IfOk result (λ all. all ≡ model.with_port_uses 0 environment.now uses) }
{
    let mut uses = uses;
    for (index, branch) in environment.iter().enumerate() {
        uses.push(port_use(alloc, index, branch)?)?;
    }
    Ok(uses)
}

/// What the ports have to give.
fn feeds_of(
    alloc: Global,
    environment: &[Branch],
    table: &LaneTable,
) -> Result<Items<Feed>, AllocError>
    ensures { IfOk result (λ feeds. feeds ≡ model.with_feeds table.now 0 environment.now []) }
{
    let mut feeds = Items::new(alloc);
    for (index, branch) in environment.iter().enumerate() {
        add_feed(alloc, table, index, branch, &mut feeds)?;
    }
    Ok(feeds)
}

/// Adds what the port of this index has to give, if it gives.
fn add_feed(
    alloc: Global,
    table: &LaneTable,
    index: usize,
    branch: &Branch,
    feeds: &mut Items<Feed>,
) -> Result<(), AllocError>
    ensures { OnOk result (feeds.new ≡ model.with_feed table.now index branch.now feeds.old) }
{
    let Some(count) = fed_count(branch) else {
        return Ok(());
    };
    let path = port_path(alloc, index)?;
    match table.find(path.as_slice()) {
        Some(lane) => feeds.push(Feed { lane, count }),
        None => Ok(()),
    }
}
