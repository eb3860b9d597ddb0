// The text of branches.
ghost use Rattle.std.specs.Prelude.{◌≡◌, ◌++◌, OnOk, slice_get};
ghost use Rattle.std.specs.List.{flat_map};
ghost use Rattle.outline.specs.OutlineText as model;

use crate::branches::{BranchEntry, Part};
use crate::ends::End;
use crate::names::ChannelEntry;
use crate::outline::Outline;
use crate::piece::{end_with_line, write_count, write_way};
use address::{Address, compare};
use described::{CallEntry, Described};
use std::alloc::AllocError;
use std::cmp::Ordering;
use text_parts::{Piece, add_pieces, add_words};

/// Adds the branches.
pub(crate) fn write_branches(
    outline: &Outline,
    described: &Described,
    out: &mut Vec<u8>,
) -> Result<(), AllocError>
    ensures { OnOk result (out.new.items ≡ out.old.items ++ model.branches_text outline.now described.now) }
{
    let branches = outline.branches.as_slice();
    write_count(b"branches", branches.len(), out)?;
    write_each(
        outline.channels.as_slice(),
        described.calls.as_slice(),
        branches,
        out,
    )
}

/// Adds each of the branches.
fn write_each(
    channels: &[ChannelEntry],
    calls: &[CallEntry],
    branches: &[BranchEntry],
    out: &mut Vec<u8>,
) -> Result<(), AllocError>
    ensures { OnOk result (out.new.items
        ≡ out.old.items ++ flat_map (model.branch_lines channels.now calls.now) branches.now) }
{
    for branch in branches {
        write_branch(channels, calls, branch, out)?;
    }
    Ok(())
}

/// Adds a branch with its ends.
fn write_branch(
    channels: &[ChannelEntry],
    calls: &[CallEntry],
    branch: &BranchEntry,
    out: &mut Vec<u8>,
) -> Result<(), AllocError>
    ensures { OnOk result (out.new.items ≡ out.old.items ++ model.branch_lines channels.now calls.now branch.now) }
{
    write_head(calls, branch, out)?;
    write_ends(channels, branch.ends.as_slice(), out)
}

/// Adds the line of a branch.
fn write_head(
    calls: &[CallEntry],
    branch: &BranchEntry,
    out: &mut Vec<u8>,
) -> Result<(), AllocError>
    ensures { OnOk result (out.new.items ≡ out.old.items ++ model.branch_head calls.now branch.now) }
{
    let number = Piece::Number(u64::from(branch.number));
    let place = Piece::Place(&branch.place);
    add_pieces(
        out,
        &[Piece::Words(b"  "), number, Piece::Words(b" "), place],
    )?;
    write_part(branch.part, out)?;
    write_called(calls, &branch.place, out)?;
    add_words(out, b"\n")
}

/// Adds where a branch stands in the source.
fn write_part(part: Part, out: &mut Vec<u8>) -> Result<(), AllocError>
    ensures { OnOk result (out.new.items ≡ out.old.items ++ model.part_text part) }
{
    match part {
        Part::Body(line) => add_pieces(out, &[Piece::Words(b" line "), Piece::Number(line)]),
        Part::Port => add_words(out, b" environment"),
    }
}

/// Adds the calls that stand at the place.
fn write_called(calls: &[CallEntry], place: &Address, out: &mut Vec<u8>) -> Result<(), AllocError>
    ensures { OnOk result (out.new.items ≡ out.old.items ++ flat_map (model.called_at place.now) calls.now) }
{
    for call in calls {
        write_if_at(call, place, out)?;
    }
    Ok(())
}

/// Adds the call, if it stands at the place.
fn write_if_at(call: &CallEntry, place: &Address, out: &mut Vec<u8>) -> Result<(), AllocError>
    ensures { OnOk result (out.new.items ≡ out.old.items ++ model.called_at place.now call.now) }
{
    match compare(place, &call.place) {
        Ordering::Equal => add_pieces(out, &[Piece::Words(b", "), Piece::Name(&call.name)]),
        Ordering::Less => Ok(()),
        Ordering::Greater => Ok(()),
    }
}

/// Adds the ends of a branch.
fn write_ends(channels: &[ChannelEntry], ends: &[End], out: &mut Vec<u8>) -> Result<(), AllocError>
    ensures { OnOk result (out.new.items ≡ out.old.items ++ flat_map (model.end_line channels.now) ends.now) }
{
    for end in ends {
        write_end(channels, *end, out)?;
    }
    Ok(())
}

/// Adds an end of a branch.
fn write_end(channels: &[ChannelEntry], end: End, out: &mut Vec<u8>) -> Result<(), AllocError>
    ensures { OnOk result (out.new.items ≡ out.old.items ++ model.end_line channels.now end) }
{
    add_words(out, b"    ")?;
    write_way(end.way, out)?;
    add_words(out, b" ")?;
    write_name(channels, end.channel, out)?;
    end_with_line(end.line, out)
}

/// Adds the name of the channel of this number.
fn write_name(channels: &[ChannelEntry], number: u32, out: &mut Vec<u8>) -> Result<(), AllocError>
    ensures { OnOk result (out.new.items ≡ out.old.items ++ model.name_text (slice_get channels.now number)) }
{
    match channels.get(number as usize) {
        Some(channel) => channel.name.write_to(out),
        None => add_words(out, b"?"),
    }
}
