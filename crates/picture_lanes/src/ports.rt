// The ports of the environment: their lanes, uses of channels, and what they have to give.
ghost use Rattle.std.specs.Prelude.{◌≡◌, IfOk};
ghost use Rattle.picture_lanes.specs.Ports as model;

use crate::lane::{Lane, LaneKind};
use crate::walk::{ChannelUse, Way};
use std::alloc::{AllocError, Global};
use syntax::Items;
use system::Branch;

/// What kind of port the branch is at.
fn port_kind(branch: &Branch) -> LaneKind
    ensures { result ≡ model.port_kind branch.now }
{
    match branch {
        Branch::Feed(channel, _, _) => LaneKind::Input(*channel),
        Branch::Drain(channel) => LaneKind::Output(*channel),
        Branch::Syncs(channel, _) => LaneKind::Handshakes(*channel),
    }
}

/// Whether the branch is at an output port.
pub(crate) fn is_output(branch: &Branch) -> bool
    ensures { result ≡ model.is_output branch.now }
{
    match branch {
        Branch::Drain(_) => true,
        Branch::Feed(_, _, _) | Branch::Syncs(_, _) => false,
    }
}

/// The path of the port of this index. It is an error if it has more than 32 bits, which no system reaches.
pub(crate) fn port_path(alloc: Global, index: usize) -> Result<Items<u32>, AllocError>
    ensures { IfOk result (λ path. path ≡ model.port_path index) }
{
    if index >= 4294967295 {
        return Err(AllocError);
    }
    let number = index as u32 + 1;
    Ok(Items::from_vec(Vec::from_slice(alloc, &[number])?))
}

/// The lane of the port of this index.
pub(crate) fn port_lane(alloc: Global, index: usize, branch: &Branch) -> Result<Lane, AllocError>
    ensures { IfOk result (λ lane. lane ≡ model.port_lane index branch.now) }
{
    let path = port_path(alloc, index)?;
    let kind = port_kind(branch);
    Ok(Lane {
        path,
        line: 0,
        kind,
    })
}

/// The use of its channel by the port of this index.
pub(crate) fn port_use(
    alloc: Global,
    index: usize,
    branch: &Branch,
) -> Result<ChannelUse, AllocError>
    ensures { IfOk result (λ used. used ≡ model.port_use index branch.now) }
{
    let path = port_path(alloc, index)?;
    Ok(match branch {
        Branch::Feed(channel, _, _) => used(*channel, Way::Sends, path),
        Branch::Drain(channel) => used(*channel, Way::Receives, path),
        Branch::Syncs(channel, _) => used(*channel, Way::Syncs, path),
    })
}

/// A use of the channel.
fn used(channel: u32, way: Way, path: Items<u32>) -> ChannelUse
    ensures { result ≡ record { channel = channel; way = way; path = path } }
{
    ChannelUse { channel, way, path }
}

/// How many values or handshakes the port has to give, if it gives.
pub(crate) fn fed_count(branch: &Branch) -> Option<u64>
    ensures { result ≡ model.fed_count branch.now }
{
    match branch {
        Branch::Feed(_, _, values) => Some(values.len() as u64),
        Branch::Syncs(_, count) => Some(u64::from(*count)),
        Branch::Drain(_) => None,
    }
}
