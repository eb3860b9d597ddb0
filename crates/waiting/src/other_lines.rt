// The lines of the source at which the other end of a channel stands.
ghost use Rattle.std.specs.Prelude.{◌≡◌, ◌≤◌, ◌++◌, [], length, IfOk, OnOk, nat_lt};
ghost use Rattle.std.specs.List.{flat_map};
ghost use Rattle.std.specs.Option.{option_copied};
ghost use Rattle.outline.specs.EndTable.{HasEnds};
ghost use Rattle.waiting.specs.OtherLines as model;

use crate::side::Side;
use local_actions::{ActionKind, LocalAction};
use outline::{BranchEnd, EndTable, Way};
use rings::Partner;
use sharing_check::Checked;
use std::alloc::{AllocError, Global};

/// The lines of the ends for which an action waits that stands on this line, with this partner: each once, ascending.
pub(crate) fn other_lines(
    alloc: Global,
    checked: &Checked,
    table: &EndTable,
    line: Option<u64>,
    offered: &LocalAction,
    partner: Option<&Partner>,
) -> Result<Vec<u64>, AllocError>
    requires { HasEnds checked.now table.now }
    ensures { IfOk result (λ lines.
        lines.items ≡ model.other_lines checked.now line offered.now (option_copied partner.entry)) }
{
    let action = &offered.action;
    let side = Side::of(checked, &offered.place, partner);
    let own = own_line(action, side, checked.branch(&offered.place), line);
    lines_on(
        alloc,
        checked,
        table,
        action,
        side,
        own,
        awaited_channel(action),
    )
}

/// The lines of the ends of the channel, on this side, that the action waits for, without its own: each once,
/// ascending.
fn lines_on(
    alloc: Global,
    checked: &Checked,
    table: &EndTable,
    action: &ActionKind,
    side: Side,
    own: Option<u64>,
    channel: Option<u32>,
) -> Result<Vec<u64>, AllocError>
    requires { HasEnds checked.now table.now }
    ensures { IfOk result (λ lines. lines.items ≡ model.lines_on checked.now action.now side own channel) }
{
    match channel {
        Some(channel) => {
            let found = lines_of(alloc, action, side, table.on(channel))?;
            put_all(alloc, own, found.as_slice())
        }
        None => Ok(Vec::new(alloc)),
    }
}

/// The channel for whose other end the action waits.
fn awaited_channel(action: &ActionKind) -> Option<u32>
    ensures { result ≡ model.awaited_channel action.now }
{
    match action {
        ActionKind::Sends(channel, _, _)
        | ActionKind::Receives(channel, _)
        | ActionKind::Opens(channel, _)
        | ActionKind::Syncs(channel)
        | ActionKind::Releases(channel) => Some(*channel),
        ActionKind::Closes(_)
        | ActionKind::Assigns(_, _, _)
        | ActionKind::Tests(_, _)
        | ActionKind::Turns => None,
    }
}

/// Whether the action waits for an end that is used in this way.
fn is_other(action: &ActionKind, way: Way) -> bool
    ensures { result ≡ model.is_other action.now way }
{
    match action {
        ActionKind::Sends(_, _, _) => receives(way),
        ActionKind::Receives(_, _) | ActionKind::Opens(_, _) => gives(way),
        ActionKind::Syncs(_) => meets(way),
        ActionKind::Releases(_) => holds(way),
        ActionKind::Closes(_)
        | ActionKind::Assigns(_, _, _)
        | ActionKind::Tests(_, _)
        | ActionKind::Turns => false,
    }
}

/// Whether it takes what a send sends.
fn receives(way: Way) -> bool
    ensures { result ≡ model.receives way }
{
    match way {
        Way::Receives | Way::Opens(_) => true,
        Way::Sends | Way::Syncs => false,
    }
}

/// Whether it gives what a receive or an arm takes.
fn gives(way: Way) -> bool
    ensures { result ≡ model.gives way }
{
    match way {
        Way::Sends | Way::Syncs => true,
        Way::Receives | Way::Opens(_) => false,
    }
}

/// Whether it meets a sync.
fn meets(way: Way) -> bool
    ensures { result ≡ model.meets way }
{
    match way {
        Way::Syncs | Way::Opens(_) => true,
        Way::Sends | Way::Receives => false,
    }
}

/// Whether it holds its partner until it closes.
fn holds(way: Way) -> bool
    ensures { result ≡ model.holds way }
{
    match way {
        Way::Opens(_) => true,
        Way::Sends | Way::Receives | Way::Syncs => false,
    }
}

/// The lines of those of the ends, on this side, that the action waits for.
fn lines_of(
    alloc: Global,
    action: &ActionKind,
    side: Side,
    ends: &[BranchEnd],
) -> Result<Vec<u64>, AllocError>
    ensures { IfOk result (λ lines. lines.items ≡ flat_map (model.line_of action.now side) ends.now) }
{
    let mut lines = Vec::new(alloc);
    for held in ends {
        add_line(action, side, *held, &mut lines)?;
    }
    Ok(lines)
}

/// Adds the line of an end, if it is on this side and the action waits for such a one.
fn add_line(
    action: &ActionKind,
    side: Side,
    held: BranchEnd,
    lines: &mut Vec<u64>,
) -> Result<(), AllocError>
    ensures { OnOk result (lines.new.items ≡ lines.old.items ++ model.line_of action.now side held) }
{
    let on_side = side.has(held.branch);
    let other = is_other(action, held.end.way);
    match held.end.line {
        Some(line) if on_side && other => {
            lines.push(line)?;
            Ok(())
        }
        _ => Ok(()),
    }
}

/// The line of a sync that waits on this line of this branch, if the branch is on this side.
fn own_line(action: &ActionKind, side: Side, branch: Option<u32>, line: Option<u64>) -> Option<u64>
    ensures { result ≡ model.own_line action.now side branch line }
{
    match action {
        ActionKind::Syncs(_) => own_on(side, branch, line),
        _ => None,
    }
}

/// The line, if the branch is on this side.
fn own_on(side: Side, branch: Option<u32>, line: Option<u64>) -> Option<u64>
    ensures { result ≡ model.own_on side branch line }
{
    match branch {
        Some(number) => own_if(side.has(number), line),
        None => None,
    }
}

/// The line, if it is the action's own.
fn own_if(own: bool, line: Option<u64>) -> Option<u64>
    ensures { result ≡ model.own_if own line }
{
    if own { line } else { None }
}

/// These lines, each once, ascending, without the first that is that of the action itself.
fn put_all(alloc: Global, own: Option<u64>, found: &[u64]) -> Result<Vec<u64>, AllocError>
    ensures { IfOk result (λ lines. lines.items ≡ model.put_all own found.now []) }
{
    let mut own = own;
    let mut lines = Vec::new(alloc);
    for line in found {
        if is_same(own, *line) {
            own = None;
        } else {
            put(*line, &mut lines)?;
        }
    }
    Ok(lines)
}

/// Whether the line is this one.
fn is_same(own: Option<u64>, line: u64) -> bool
    ensures { result ≡ model.is_same own line }
{
    match own {
        Some(own) => own == line,
        None => false,
    }
}

/// Puts a line among others, which ascend, unless it is there.
fn put(line: u64, lines: &mut Vec<u64>) -> Result<(), AllocError>
    ensures { OnOk result (lines.new.items ≡ model.put line lines.old.items) }
{
    let index = count_below(lines.as_slice(), line);
    if is_same(lines.get(index).copied(), line) {
        return Ok(());
    }
    lines.insert(index, line)?;
    Ok(())
}

/// How many of the lines come before the first that is not less than this one.
fn count_below(lines: &[u64], line: u64) -> usize
    ensures count { result ≡ model.count_below line lines.now }
    ensures within { result ≤ length lines.now }
{
    for (index, held) in lines.iter().enumerate() {
        if !is_less(*held, line) {
            return index;
        }
    }
    lines.len()
}

/// Whether the one line is less than the other.
fn is_less(one: u64, other: u64) -> bool
    ensures { result ≡ nat_lt one other }
{
    one < other
}
