// What commands that have made no move offer on a channel.
ghost use Rattle.std.specs.Prelude.{◌≡◌, map, OnOk};
ghost use Rattle.address.specs.declared.Entry.TheVariants.{Ordered as IsOrdered, Branch as IsBranch};
ghost use Rattle.process_tree.specs.Code.{Codes};
ghost use Rattle.process_tree.specs.Proc.{started, all_started};
ghost use Rattle.process_tree.specs.Translation.{row_of};
ghost use Rattle.process_tree.specs.View.{code_view};
ghost use Rattle.local_actions.specs.internal.Listed.{listed_sequence, listed_parallel};
ghost use Rattle.local_actions.specs.Walk.{added};
ghost use Rattle.channel_uses.specs.OnChannel.{on};
ghost use Rattle.channel_uses.specs.internal.Located.{AgreeFrom, LocatedCode, LocatedRow, finds, finds_at};

use crate::leaves::waiting_on;
use crate::located::{next_user, part_at};
use crate::part::Part;
use dependence::UseTable;
use local_actions::{Cursor, starts_over};
use process_tree::Code;
use std::alloc::{AllocError, Global};
use value::Value;

/// Lists what the command offers on the channel before its first move. Of a parallel only the branches are looked at
/// that use the channel.
#[cycle(fresh_on)]
#[tactic(auto, using(crate::proofs::Finding::once_listed_none))]
fn fresh_on(
    alloc: Global,
    code: &Code,
    part: Option<&Part>,
    table: &UseTable,
    channel: u32,
    values: &[Value],
    cursor: &mut Cursor,
) -> Result<(), AllocError>
    ensures { LocatedCode table.now part.entry (code_view code.now) →
        OnOk result (cursor.new ≡ finds channel values.now (started (code_view code.now)) cursor.old) }
{
    match code {
        Code::Continue
        | Code::Halt
        | Code::Once(_)
        | Code::Repeat(_)
        | Code::Decide(_)
        | Code::Drain(_) => Ok(()),
        // its arms only open
        Code::Await(_) => Ok(()),
        Code::Sender(sender) => waiting_on(alloc, sender.get(), channel, values, cursor),
        Code::InTurn(row) => {
            let codes = row.get().codes.as_slice();
            fresh_in_turn_on(alloc, codes, 0, part, table, channel, values, cursor)
        }
        Code::SideBySide(row) => {
            let codes = row.get().codes.as_slice();
            fresh_side_by_side_on(alloc, codes, part, table, channel, values, cursor)
        }
    }
}

/// Lists what the commands offer on the channel side by side: those that use it, and no other is looked at.
#[cycle(fresh_on)]
fn fresh_side_by_side_on(
    alloc: Global,
    codes: &[Code],
    part: Option<&Part>,
    table: &UseTable,
    channel: u32,
    values: &[Value],
    cursor: &mut Cursor,
) -> Result<(), AllocError>
    ensures { LocatedRow table.now part.entry (row_of (map code_view codes.now)) →
        OnOk result
        (cursor.new
        ≡ added
        (on channel
        (listed_parallel values.now cursor.old.received 0 (all_started (row_of (map code_view codes.now)))).actions)
        cursor.old) }
{
    let mut number = 0;
    'branches: while let Some(next) = next_user(table, channel, part, number, codes.len()) {
        let part = part_at(part, next);
        fresh_branch_on(
            alloc,
            &codes[next],
            part,
            next as u64,
            table,
            channel,
            values,
            cursor,
        )?;
        number = next + 1;
    }
    Ok(())
}

/// Lists what the command in this branch of a parallel offers on the channel.
#[cycle(fresh_on)]
fn fresh_branch_on(
    alloc: Global,
    code: &Code,
    part: Option<&Part>,
    number: u64,
    table: &UseTable,
    channel: u32,
    values: &[Value],
    cursor: &mut Cursor,
) -> Result<(), AllocError>
    ensures { LocatedCode table.now part.entry (code_view code.now) →
        OnOk result
        (cursor.new ≡ finds_at (IsBranch number) channel values.now (started (code_view code.now)) cursor.old) }
{
    cursor.enter_branch(number)?;
    fresh_on(alloc, code, part, table, channel, values, cursor)?;
    cursor.leave();
    Ok(())
}

/// Lists what the commands offer on the channel one after another, from the one of this number on: the first that has
/// anything to do.
#[cycle(fresh_on)]
pub(crate) fn fresh_in_turn_on(
    alloc: Global,
    codes: &[Code],
    from: usize,
    part: Option<&Part>,
    table: &UseTable,
    channel: u32,
    values: &[Value],
    cursor: &mut Cursor,
) -> Result<(), AllocError>
    ensures { (cs : Codes) → LocatedRow table.now part.entry cs → AgreeFrom from cs (row_of (map code_view codes.now)) →
        OnOk result
        (cursor.new
        ≡ added
        (on channel
        (listed_sequence values.now cursor.old.received from 0
        (all_started (row_of (map code_view codes.now)))).actions)
        cursor.old) }
{
    let mut number = from;
    'children: while number < codes.len() {
        let child = &codes[number];
        if !starts_over(child) {
            let part = part_at(part, number);
            return fresh_child_on(
                alloc,
                child,
                part,
                number as u64,
                table,
                channel,
                values,
                cursor,
            );
        }
        number += 1;
    }
    Ok(())
}

/// Lists what the command of this number in a sequence offers on the channel.
#[cycle(fresh_on)]
fn fresh_child_on(
    alloc: Global,
    code: &Code,
    part: Option<&Part>,
    number: u64,
    table: &UseTable,
    channel: u32,
    values: &[Value],
    cursor: &mut Cursor,
) -> Result<(), AllocError>
    ensures { LocatedCode table.now part.entry (code_view code.now) →
        OnOk result
        (cursor.new ≡ finds_at (IsOrdered number) channel values.now (started (code_view code.now)) cursor.old) }
{
    cursor.enter_child(number)?;
    fresh_on(alloc, code, part, table, channel, values, cursor)?;
    cursor.leave();
    Ok(())
}
