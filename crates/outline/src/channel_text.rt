// The text of channels.
ghost use Rattle.std.specs.Prelude.{◌≡◌, ◌++◌, OnOk};
ghost use Rattle.std.specs.List.{flat_map};
ghost use Rattle.outline.specs.OutlineText as model;

use crate::branches::BranchEntry;
use crate::ends::End;
use crate::names::ChannelEntry;
use crate::outline::Outline;
use crate::piece::{end_with_line, line_at, write_count, write_way};
use described::Described;
use std::alloc::AllocError;
use system::ChannelKind;
use text_parts::{Piece, add_pieces, add_words};

/// Adds the channels.
pub(crate) fn write_channels(
    outline: &Outline,
    described: &Described,
    out: &mut Vec<u8>,
) -> Result<(), AllocError>
    ensures { OnOk result (out.new.items ≡ out.old.items ++ model.channels_text outline.now described.now) }
{
    let channels = outline.channels.as_slice();
    write_count(b"channels", channels.len(), out)?;
    write_each(
        outline.branches.as_slice(),
        described.channel_lines.as_slice(),
        channels,
        out,
    )
}

/// Adds each of the channels.
fn write_each(
    branches: &[BranchEntry],
    lines: &[u64],
    channels: &[ChannelEntry],
    out: &mut Vec<u8>,
) -> Result<(), AllocError>
    ensures { OnOk result (out.new.items
        ≡ out.old.items ++ flat_map (model.channel_lines branches.now lines.now) channels.now) }
{
    for channel in channels {
        write_channel(branches, lines, channel, out)?;
    }
    Ok(())
}

/// Adds a channel, and who uses it.
fn write_channel(
    branches: &[BranchEntry],
    lines: &[u64],
    channel: &ChannelEntry,
    out: &mut Vec<u8>,
) -> Result<(), AllocError>
    ensures { OnOk result (out.new.items ≡ out.old.items ++ model.channel_lines branches.now lines.now channel.now) }
{
    write_head(lines, channel, out)?;
    write_users(branches, channel.number, out)
}

/// Adds the line of a channel.
fn write_head(lines: &[u64], channel: &ChannelEntry, out: &mut Vec<u8>) -> Result<(), AllocError>
    ensures { OnOk result (out.new.items ≡ out.old.items ++ model.channel_head lines.now channel.now) }
{
    add_pieces(out, &[Piece::Words(b"  "), Piece::Name(&channel.name)])?;
    write_kind(channel.kind, out)?;
    end_with_line(line_at(lines, channel.number), out)
}

/// Adds what passes over a channel.
fn write_kind(kind: ChannelKind, out: &mut Vec<u8>) -> Result<(), AllocError>
    ensures { OnOk result (out.new.items ≡ out.old.items ++ model.kind_text kind) }
{
    match kind {
        ChannelKind::Data(width) => {
            let bits = Piece::Number(u64::from(width.bits()));
            add_pieces(out, &[Piece::Words(b" "), bits, Piece::Words(b" bits")])
        }
        ChannelKind::Sync => add_words(out, b" sync"),
    }
}

/// Adds who uses the channel, a line for each end.
fn write_users(branches: &[BranchEntry], channel: u32, out: &mut Vec<u8>) -> Result<(), AllocError>
    ensures { OnOk result (out.new.items ≡ out.old.items ++ flat_map (model.uses_lines channel) branches.now) }
{
    for branch in branches {
        write_uses(branch.number, branch.ends.as_slice(), channel, out)?;
    }
    Ok(())
}

/// Adds the ends of the branch of this number on the channel.
fn write_uses(branch: u32, ends: &[End], channel: u32, out: &mut Vec<u8>) -> Result<(), AllocError>
    ensures { OnOk result (out.new.items ≡ out.old.items ++ flat_map (model.use_line channel branch) ends.now) }
{
    for end in ends {
        write_if_on(branch, *end, channel, out)?;
    }
    Ok(())
}

/// Adds the end, if it is on the channel.
fn write_if_on(branch: u32, end: End, channel: u32, out: &mut Vec<u8>) -> Result<(), AllocError>
    ensures { OnOk result (out.new.items ≡ out.old.items ++ model.use_line channel branch end) }
{
    if end.channel != channel {
        return Ok(());
    }
    add_words(out, b"    ")?;
    write_way(end.way, out)?;
    let number = Piece::Number(u64::from(branch));
    add_pieces(out, &[Piece::Words(b", branch "), number])?;
    end_with_line(end.line, out)
}
