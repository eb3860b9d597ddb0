// The actions of commands that have made no move.
ghost use Rattle.std.specs.Prelude.{◌≡◌, map, IfOk, OnOk};
ghost use Rattle.process_tree.specs.Proc.{started, all_started};
ghost use Rattle.process_tree.specs.Translation.{row_of};
ghost use Rattle.process_tree.specs.View.{code_view};
ghost use Rattle.local_actions.specs.internal.Listed.{listed, listed_sequence, listed_parallel};
ghost use Rattle.local_actions.specs.Walk.{added};
ghost use Rattle.local_actions.specs.internal.Walk.{lists, lists_at};

use crate::cursor::Cursor;
use crate::leaves::{list_again, list_arms, list_drain, list_once, list_sender, list_test};
use address::Entry;
use process_tree::Code;
use std::alloc::{AllocError, Global};
use value::Value;

/// Lists what the command offers before its first move. Whether it has nothing to do; then nothing is listed.
/// It is an error if there is no memory; some may be listed then.
#[cycle(list_fresh)]
pub(crate) fn list_fresh(
    alloc: Global,
    code: &Code,
    values: &[Value],
    cursor: &mut Cursor,
) -> Result<bool, AllocError>
    ensures actions { OnOk result (cursor.new ≡ lists values.now (started (code_view code.now)) cursor.old) }
    ensures over { IfOk result (λ over.
        over ≡ (listed values.now cursor.old.received (started (code_view code.now))).over) }
{
    match code {
        Code::Continue => return Ok(true),
        Code::Halt => {}
        Code::Once(once) => list_once(alloc, once.get(), values, cursor)?,
        Code::Sender(sender) => list_sender(alloc, sender.get(), values, cursor)?,
        Code::Repeat(repeat) => list_again(alloc, &repeat.get().guard, 0, values, cursor)?,
        Code::Decide(decide) => list_test(alloc, &decide.get().decision, values, cursor)?,
        Code::Await(waiting) => list_arms(alloc, waiting.get().channels.as_slice(), cursor)?,
        Code::InTurn(row) => {
            return list_fresh_from(alloc, row.get().codes.as_slice(), 0, values, cursor);
        }
        Code::SideBySide(row) => {
            return list_fresh_all(alloc, row.get().codes.as_slice(), values, cursor);
        }
        Code::Drain(channel) => list_drain(alloc, *channel, 0, cursor)?,
    }
    Ok(false)
}

/// Lists what the commands offer one after another, from the one of this number on. Whether none of them has anything
/// to do.
#[cycle(list_fresh)]
pub(crate) fn list_fresh_from(
    alloc: Global,
    codes: &[Code],
    from: usize,
    values: &[Value],
    cursor: &mut Cursor,
) -> Result<bool, AllocError>
    ensures actions { OnOk result (cursor.new
        ≡ added
        (listed_sequence values.now cursor.old.received from 0 (all_started (row_of (map code_view codes.now)))).actions
        cursor.old) }
    ensures over { IfOk result (λ over.
        over
        ≡ (listed_sequence values.now cursor.old.received from 0
        (all_started (row_of (map code_view codes.now)))).over) }
{
    let mut number = from;
    'children: while number < codes.len() {
        if !list_fresh_child(alloc, &codes[number], number as u64, values, cursor)? {
            return Ok(false);
        }
        number += 1;
    }
    Ok(true)
}

/// Lists what the command of this number in a sequence offers.
#[cycle(list_fresh)]
#[tactic(auto, using(crate::proofs::public::Walks::through))]
fn list_fresh_child(
    alloc: Global,
    code: &Code,
    number: u64,
    values: &[Value],
    cursor: &mut Cursor,
) -> Result<bool, AllocError>
    ensures actions { OnOk result (cursor.new
        ≡ lists_at (Entry.Ordered number) values.now (started (code_view code.now)) cursor.old) }
    ensures over { IfOk result (λ over.
        over ≡ (listed values.now cursor.old.received (started (code_view code.now))).over) }
{
    cursor.enter_child(number)?;
    let over = list_fresh(alloc, code, values, cursor)?;
    cursor.leave();
    Ok(over)
}

/// Lists what the commands offer side by side. Whether none of them has anything to do.
#[cycle(list_fresh)]
fn list_fresh_all(
    alloc: Global,
    codes: &[Code],
    values: &[Value],
    cursor: &mut Cursor,
) -> Result<bool, AllocError>
    ensures actions { OnOk result (cursor.new
        ≡ added
        (listed_parallel values.now cursor.old.received 0 (all_started (row_of (map code_view codes.now)))).actions
        cursor.old) }
    ensures over { IfOk result (λ over.
        over
        ≡ (listed_parallel values.now cursor.old.received 0 (all_started (row_of (map code_view codes.now)))).over) }
{
    let mut over = true;
    for (number, code) in codes.iter().enumerate() {
        if !list_fresh_branch(alloc, code, number as u64, values, cursor)? {
            over = false;
        }
    }
    Ok(over)
}

/// Lists what the command in this branch of a parallel offers.
#[cycle(list_fresh)]
#[tactic(auto, using(crate::proofs::public::Walks::through))]
fn list_fresh_branch(
    alloc: Global,
    code: &Code,
    number: u64,
    values: &[Value],
    cursor: &mut Cursor,
) -> Result<bool, AllocError>
    ensures actions { OnOk result (cursor.new
        ≡ lists_at (Entry.Branch number) values.now (started (code_view code.now)) cursor.old) }
    ensures over { IfOk result (λ over.
        over ≡ (listed values.now cursor.old.received (started (code_view code.now))).over) }
{
    cursor.enter_branch(number)?;
    let over = list_fresh(alloc, code, values, cursor)?;
    cursor.leave();
    Ok(over)
}
