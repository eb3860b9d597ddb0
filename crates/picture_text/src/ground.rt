// Variables, channels, blocks, lanes and ports.
ghost use Rattle.std.specs.Prelude.{◌≡◌, OnOk, codes, map};
ghost use Rattle.json_text.specs.Values.{list_text, member_text, with_value};
ghost use Rattle.picture_text.specs.DataText as model;

use json_text::{Item, Json};
use picture_data::{Feed, Instance, Lane, LaneKind};
use std::alloc::AllocError;
use system::{Channel, ChannelKind, QualifiedName, System, Variable};
use text_parts::{Piece, add_pieces};

/// Adds the variables: of each the name, the width in bits, and whether it is shared.
pub(crate) fn add_variables(
    json: &mut Json,
    system: &System,
    scratch: &mut Vec<u8>,
) -> Result<(), AllocError>
    ensures { OnOk result (json.new ≡ with_value json.old
        (member_text (codes "variables") (list_text (map model.variable_text system.now.variables)))) }
{
    json.name("variables")?;
    json.open_list()?;
    for variable in system.variables.as_slice() {
        add_variable(json, variable, scratch)?;
    }
    json.close_list()
}

/// Adds a variable.
fn add_variable(
    json: &mut Json,
    variable: &Variable,
    scratch: &mut Vec<u8>,
) -> Result<(), AllocError>
    ensures { OnOk result (json.new ≡ with_value json.old (model.variable_text variable.now)) }
{
    write_name(&variable.name, scratch)?;
    json.list(&[
        Item::Text(scratch.as_slice()),
        Item::Number(u64::from(variable.width.bits())),
        Item::Number(flag(variable.shared)),
    ])
}

/// Writes a name into the scratch, which is written anew.
fn write_name(name: &QualifiedName, scratch: &mut Vec<u8>) -> Result<(), AllocError>
    ensures { OnOk result (scratch.new.items ≡ name.now) }
{
    scratch.clear();
    name.write_to(scratch)
}

/// 1 for true, and 0 for false.
pub(crate) fn flag(is: bool) -> u64
    ensures { result ≡ model.flag is }
{
    if is { 1 } else { 0 }
}

/// The index as a number, if it is one.
pub(crate) fn optional(index: Option<usize>) -> Option<u64>
    ensures { result ≡ index }
{
    match index {
        Some(index) => Some(index as u64),
        None => None,
    }
}

/// Adds the channels: of each the name, and the width in bits, 0 where no data passes.
pub(crate) fn add_channels(
    json: &mut Json,
    system: &System,
    scratch: &mut Vec<u8>,
) -> Result<(), AllocError>
    ensures { OnOk result (json.new ≡ with_value json.old
        (member_text (codes "channels") (list_text (map model.channel_text system.now.channels)))) }
{
    json.name("channels")?;
    json.open_list()?;
    for channel in system.channels.as_slice() {
        add_channel(json, channel, scratch)?;
    }
    json.close_list()
}

/// Adds a channel.
fn add_channel(json: &mut Json, channel: &Channel, scratch: &mut Vec<u8>) -> Result<(), AllocError>
    ensures { OnOk result (json.new ≡ with_value json.old (model.channel_text channel.now)) }
{
    write_name(&channel.name, scratch)?;
    json.list(&[
        Item::Text(scratch.as_slice()),
        Item::Number(channel_width(channel.kind)),
    ])
}

/// The width of what passes, 0 where nothing does.
fn channel_width(kind: ChannelKind) -> u64
    ensures { result ≡ model.channel_width kind }
{
    match kind {
        ChannelKind::Data(width) => u64::from(width.bits()),
        ChannelKind::Sync => 0,
    }
}

/// Adds the blocks.
pub(crate) fn add_instances(json: &mut Json, instances: &[Instance]) -> Result<(), AllocError>
    ensures { OnOk result (json.new ≡ with_value json.old
        (member_text (codes "instances") (list_text (map model.instance_text instances.now)))) }
{
    json.name("instances")?;
    json.open_list()?;
    for instance in instances {
        add_instance(json, instance)?;
    }
    json.close_list()
}

/// Adds a block.
fn add_instance(json: &mut Json, instance: &Instance) -> Result<(), AllocError>
    ensures { OnOk result (json.new ≡ with_value json.old (model.instance_text instance.now)) }
{
    json.list(&[
        Item::Text(instance.procedure.as_slice()),
        Item::Text(instance.prefix.as_slice()),
        Item::Optional(optional(instance.parent)),
        Item::Number(instance.call_line),
        Item::Number(instance.line),
        Item::Text(instance.arguments.as_slice()),
    ])
}

/// Adds the lanes.
pub(crate) fn add_lanes(
    json: &mut Json,
    lanes: &[Lane],
    scratch: &mut Vec<u8>,
) -> Result<(), AllocError>
    ensures { OnOk result (json.new ≡ with_value json.old
        (member_text (codes "lanes") (list_text (map model.lane_text lanes.now)))) }
{
    json.name("lanes")?;
    json.open_list()?;
    for lane in lanes {
        add_lane(json, lane, scratch)?;
    }
    json.close_list()
}

/// Adds a lane: its path, its block, its line, its action, and the channel of its port.
fn add_lane(json: &mut Json, lane: &Lane, scratch: &mut Vec<u8>) -> Result<(), AllocError>
    ensures { OnOk result (json.new ≡ with_value json.old (model.lane_text lane.now)) }
{
    write_path(lane.path.as_slice(), scratch)?;
    json.list(&[
        Item::Text(scratch.as_slice()),
        Item::Optional(block_of(lane.kind)),
        Item::Number(lane.line),
        Item::Text(action_of(lane.kind).as_bytes()),
        Item::Optional(port_of(lane.kind)),
    ])
}

/// The block of a lane of the body.
fn block_of(kind: LaneKind) -> Option<u64>
    ensures { result ≡ model.block_of kind }
{
    match kind {
        LaneKind::Body(block) => Some(block as u64),
        LaneKind::Input(_) | LaneKind::Output(_) | LaneKind::Handshakes(_) => None,
    }
}

/// On which action a lane stands.
fn action_of(kind: LaneKind) -> &'static str
    ensures { result.now ≡ model.action_of kind }
{
    match kind {
        LaneKind::Input(_) => "in",
        LaneKind::Output(_) => "out",
        LaneKind::Handshakes(_) => "sync",
        LaneKind::Body(_) => "body",
    }
}

/// The channel of the port of a lane of the environment.
fn port_of(kind: LaneKind) -> Option<u64>
    ensures { result ≡ model.port_of kind }
{
    match kind {
        LaneKind::Input(channel) | LaneKind::Output(channel) | LaneKind::Handshakes(channel) => {
            Some(u64::from(channel))
        }
        LaneKind::Body(_) => None,
    }
}

/// Writes a path into the scratch, which is written anew: `/` before each number.
fn write_path(path: &[u32], scratch: &mut Vec<u8>) -> Result<(), AllocError>
    ensures { OnOk result (scratch.new.items ≡ model.path_text path.now) }
{
    scratch.clear();
    for number in path {
        add_pieces(
            scratch,
            &[Piece::Words(b"/"), Piece::Number(u64::from(*number))],
        )?;
    }
    Ok(())
}

/// Adds what the ports have to give.
pub(crate) fn add_feeds(json: &mut Json, feeds: &[Feed]) -> Result<(), AllocError>
    ensures { OnOk result (json.new ≡ with_value json.old
        (member_text (codes "feeds") (list_text (map model.feed_text feeds.now)))) }
{
    json.name("feeds")?;
    json.open_list()?;
    for feed in feeds {
        add_feed(json, feed)?;
    }
    json.close_list()
}

/// Adds what a port has to give.
fn add_feed(json: &mut Json, feed: &Feed) -> Result<(), AllocError>
    ensures { OnOk result (json.new ≡ with_value json.old (model.feed_text feed.now)) }
{
    json.list(&[Item::Number(feed.lane as u64), Item::Number(feed.count)])
}
