// The whole of the data.
ghost use Rattle.std.specs.Prelude.{◌≡◌, IfOk, OnOk};
ghost use Rattle.std.specs.List.{All};
ghost use Rattle.json_text.specs.Strings.{IsPlain};
ghost use Rattle.json_text.specs.Values.{with_values};
ghost use Rattle.picture_text.specs.DataText as model;

use crate::end::{add_places, add_progress, add_ready, add_ring};
use crate::ground::{add_channels, add_feeds, add_instances, add_lanes, add_variables};
use crate::steps::{add_events, add_races, add_tickets};
use json_text::{Item, Json};
use machine::Machine;
use picture_data::Picture;
use std::alloc::{AllocError, Global};

/// The names of the files of a run, as they are shown.
#[derive(Clone, Copy)]
pub struct Names<'a> {
    pub file: &'a str,
    pub stimulus: &'a str,
    pub trace: &'a str,
}

/// The picture of the run of the machine as one JSON text, in printable ASCII without `<`, whatever bytes source and
/// names have. It is an error if there is no memory.
pub fn data_text(
    alloc: Global,
    machine: &Machine,
    picture: &Picture,
    source: &[u8],
    names: Names<'_>,
) -> Result<Vec<u8>, AllocError>
    ensures text { IfOk result (λ text.
        text.items ≡ model.data_text machine.now.checked machine.now.live picture.now source.now
        names.entry.file.now names.entry.stimulus.now names.entry.trace.now) }
    ensures plain { IfOk result (λ text. All IsPlain text.items) }
{
    let mut json = Json::new(alloc);
    json.open_object()?;
    add_head(&mut json, source, names)?;
    add_system(alloc, &mut json, machine, picture)?;
    add_run(alloc, &mut json, machine, picture)?;
    json.close_object()?;
    Ok(json.into_bytes())
}

/// Adds the version of the data, the names of the files and the source.
#[tactic(auto, using(json_text::proofs::public::Growing::member_added))]
fn add_head(json: &mut Json, source: &[u8], names: Names<'_>) -> Result<(), AllocError>
    ensures { OnOk result (json.new
        ≡ with_values json.old (model.head_members names.entry.file.now names.entry.stimulus.now
        names.entry.trace.now source.now)) }
{
    json.name("picture")?;
    json.number(1)?;
    json.name("files")?;
    json.list(&[
        Item::Text(names.file.as_bytes()),
        Item::Text(names.stimulus.as_bytes()),
        Item::Text(names.trace.as_bytes()),
    ])?;
    json.name("source")?;
    json.text(source)
}

/// Adds what there is in the system.
fn add_system(
    alloc: Global,
    json: &mut Json,
    machine: &Machine,
    picture: &Picture,
) -> Result<(), AllocError>
    ensures { OnOk result (json.new ≡ with_values json.old (model.system_members machine.now.checked picture.now)) }
{
    let system = machine.checked().system();
    let mut scratch = Vec::new(alloc);
    add_variables(json, system, &mut scratch)?;
    add_channels(json, system, &mut scratch)?;
    add_instances(json, picture.instances.as_slice())?;
    add_lanes(json, picture.lanes.as_slice(), &mut scratch)?;
    add_feeds(json, picture.feeds.as_slice())
}

/// Adds the events, and what stands behind them.
fn add_run(
    alloc: Global,
    json: &mut Json,
    machine: &Machine,
    picture: &Picture,
) -> Result<(), AllocError>
    ensures { OnOk result (json.new ≡ with_values json.old
        (model.run_members machine.now.checked machine.now.live picture.now)) }
{
    let system = machine.checked().system();
    let live = machine.live_events();
    let mut scratch = Vec::new(alloc);
    add_tickets(json, live)?;
    add_events(json, system, live, &picture.steps, &mut scratch)?;
    add_races(json, picture.steps.races.as_slice())?;
    add_ready(json, system, &picture.end, &mut scratch)?;
    add_places(json, &picture.end, &mut scratch)?;
    add_ring(json, picture.end.ring.as_slice())?;
    add_progress(json, picture.end.progress, picture.end.lacks_input)
}
