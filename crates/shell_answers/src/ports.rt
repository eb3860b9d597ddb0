// Ports and channels: what they are, and by which name.
use crate::Scene;
use system::{Branch, ChannelKind, System};

/// What a port is for.
#[derive(Clone, Copy, PartialEq, Eq)]
pub(crate) enum Port {
    Input,
    Output,
    Sync,
}

/// The channel of the environment's branch where its port is for this.
fn channel_of(branch: &Branch, wanted: Port) -> Option<u32> {
    match (branch, wanted) {
        (Branch::Feed(channel, _, _), Port::Input) => Some(*channel),
        (Branch::Drain(channel), Port::Output) => Some(*channel),
        (Branch::Syncs(channel, _), Port::Sync) => Some(*channel),
        _ => None,
    }
}

/// The channels of the ports that are for this; fewer without memory.
pub(crate) fn ports(scene: &Scene<'_>, wanted: Port) -> Vec<u32> {
    let mut found = Vec::new(scene.alloc);
    for branch in scene.system().environment.as_slice() {
        if let Some(channel) = channel_of(branch, wanted) {
            let _ = found.push(channel);
        }
    }
    found
}

/// Whether the channel is a port for this.
pub(crate) fn is_port(system: &System, channel: u32, wanted: Port) -> bool {
    for branch in system.environment.as_slice() {
        if channel_of(branch, wanted) == Some(channel) {
            return true;
        }
    }
    false
}

/// What the channel is, in words.
pub(crate) fn kind_of(system: &System, channel: u32) -> &'static [u8] {
    if is_port(system, channel, Port::Input) {
        b"an input port"
    } else if is_port(system, channel, Port::Output) {
        b"an output port"
    } else if is_port(system, channel, Port::Sync) {
        b"a sync port"
    } else if is_sync(system, channel) {
        b"a sync"
    } else {
        b"a channel"
    }
}

/// Whether the channel carries no data.
pub(crate) fn is_sync(system: &System, channel: u32) -> bool {
    match system.channels.as_slice().get(channel as usize) {
        Some(found) => found.kind == ChannelKind::Sync,
        None => false,
    }
}

/// The number of the channel with this name.
pub(crate) fn channel_named(system: &System, name: &[u8]) -> Option<u32> {
    for number in 0..system.channels.len() {
        let number = u32::try_from(number).ok()?;
        let found = system.channel_name(number)?;
        if found.is(name) {
            return Some(number);
        }
    }
    None
}
