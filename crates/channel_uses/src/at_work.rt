// What processes offer on a channel.
ghost use Rattle.std.specs.Prelude.{◌≡◌, ℕ, List, Option, map, OnOk};
ghost use Rattle.address.specs.declared.Entry.TheVariants.{Ordered as IsOrdered, Branch as IsBranch};
ghost use Rattle.system.specs.Expression as model_expression;
ghost use Rattle.process_tree.specs.Code as model_code;
ghost use Rattle.process_tree.specs.Remaining.{with_value};
ghost use Rattle.process_tree.specs.Proc as model;
ghost use Rattle.process_tree.specs.View.{sender_view, phase_view, proc_view, procs_of, begun_of, row_view, await_view, turn_of, opened_of};
ghost use Rattle.process_tree.specs.internal.Parts.{turns_view, tested_view, gate_view};
ghost use Rattle.local_actions.specs.internal.Listed.{behind, listed};
ghost use Rattle.local_actions.specs.Walk.{added};
ghost use Rattle.channel_uses.specs.OnChannel.{on};
ghost use Rattle.channel_uses.specs.internal.Located.{LocatedProc, LocatedProcs, finds, finds_at};

use crate::fresh::fresh_in_turn_on;
use crate::leaves::{held_on, waiting_on};
use crate::located::{next_user, none_later, only_arm, part_at, part_of_only};
use crate::part::Part;
use dependence::UseTable;
use local_actions::{Cursor, body_of_turn, first_at_work, is_over};
use process_tree::{Await, Gate, Phase, Proc, Row, Sender, Tested, Turns};
use std::alloc::{AllocError, Global};
use value::Value;

/// Lists what the process offers on the channel. Of a parallel only the branches are looked at that use the channel.
#[cycle(list_on)]
#[tactic(auto, using(crate::proofs::Finding::once_none))]
pub(crate) fn list_on(
    alloc: Global,
    proc: &Proc,
    part: Option<&Part>,
    table: &UseTable,
    channel: u32,
    values: &[Value],
    cursor: &mut Cursor,
) -> Result<(), AllocError>
    ensures { LocatedProc table.now part.entry (proc_view proc.now) →
        OnOk result (cursor.new ≡ finds channel values.now (proc_view proc.now) cursor.old) }
{
    match proc {
        Proc::Idle | Proc::Stopped | Proc::Once(_, _) | Proc::Drained(_, _) => Ok(()),
        Proc::Sender(sender, phase) => {
            phase_on(alloc, sender.get(), *phase, channel, values, cursor)
        }
        Proc::Loop(_, turns) => loop_on(alloc, turns, part, table, channel, values, cursor),
        Proc::Test(_, tested) => test_on(alloc, tested, part, table, channel, values, cursor),
        Proc::Arms(waiting, gate) => {
            let waiting = waiting.get();
            gate_on(alloc, gate, waiting, part, table, channel, values, cursor)
        }
        Proc::Sequence(row, begun) => {
            let begun = begun.as_slice();
            sequence_on(
                alloc,
                begun,
                row.get(),
                part,
                table,
                channel,
                values,
                cursor,
            )
        }
        Proc::Parallel(procs) => {
            let procs = procs.as_slice();
            parallel_on(alloc, procs, part, table, channel, values, cursor)
        }
    }
}

/// Lists a send or sync, unless it is past.
fn phase_on(
    alloc: Global,
    sender: &Sender,
    phase: Phase,
    channel: u32,
    values: &[Value],
    cursor: &mut Cursor,
) -> Result<(), AllocError>
    ensures { OnOk result (cursor.new
        ≡ finds channel values.now (model.sender (sender_view sender.now) (phase_view phase)) cursor.old) }
{
    match phase {
        Phase::Waiting => waiting_on(alloc, sender, channel, values, cursor),
        Phase::Holding => held_on(alloc, sender, channel, cursor),
        Phase::Past => Ok(()),
    }
}

/// Lists what a loop offers on the channel.
#[cycle(list_on)]
fn loop_on(
    alloc: Global,
    turns: &Turns,
    part: Option<&Part>,
    table: &UseTable,
    channel: u32,
    values: &[Value],
    cursor: &mut Cursor,
) -> Result<(), AllocError>
    ensures { (g : Option model_expression.Expression) (c : model_code.Code) →
        LocatedProc table.now part.entry (turns_view turns.now g c) →
        OnOk result (cursor.new ≡ finds channel values.now (turns_view turns.now g c) cursor.old) }
{
    match turns {
        Turns::Fresh | Turns::EndedAtOnce => Ok(()),
        Turns::Turn(turn, over, body) => {
            turn_on(
                alloc, body, *turn, *over, part, table, channel, values, cursor,
            )
        }
    }
}

/// Lists what a loop offers on the channel in this turn.
#[cycle(list_on)]
fn turn_on(
    alloc: Global,
    body: &Proc,
    turn: u64,
    over: bool,
    part: Option<&Part>,
    table: &UseTable,
    channel: u32,
    values: &[Value],
    cursor: &mut Cursor,
) -> Result<(), AllocError>
    ensures { (g : Option model_expression.Expression) (c : model_code.Code) →
        LocatedProc table.now part.entry (turn_of over g c turn (proc_view body.now)) →
        OnOk result (cursor.new ≡ finds channel values.now (turn_of over g c turn (proc_view body.now)) cursor.old) }
{
    if over {
        return Ok(());
    }
    let number = body_of_turn(turn)?;
    child_on(alloc, body, part, number, table, channel, values, cursor)
}

/// Lists what an `if` or `case` offers on the channel.
#[cycle(list_on)]
fn test_on(
    alloc: Global,
    tested: &Tested,
    part: Option<&Part>,
    table: &UseTable,
    channel: u32,
    values: &[Value],
    cursor: &mut Cursor,
) -> Result<(), AllocError>
    ensures { (d : model_expression.Decision) (cs : model_code.Codes) →
        LocatedProc table.now part.entry (tested_view tested.now d cs) →
        OnOk result (cursor.new ≡ finds channel values.now (tested_view tested.now d cs) cursor.old) }
{
    match tested {
        Tested::Untested | Tested::Skipped => Ok(()),
        Tested::Took(arm, body) => {
            let part = part_at(part, *arm as usize);
            child_on(alloc, body, part, 1, table, channel, values, cursor)
        }
    }
}

/// Lists what arms offer on the channel that wait on theirs.
#[cycle(list_on)]
fn gate_on(
    alloc: Global,
    gate: &Gate,
    waiting: &Await,
    part: Option<&Part>,
    table: &UseTable,
    channel: u32,
    values: &[Value],
    cursor: &mut Cursor,
) -> Result<(), AllocError>
    ensures { LocatedProc table.now part.entry
        (gate_view gate.now (await_view waiting.now).0 (await_view waiting.now).1) →
        OnOk result
        (cursor.new
        ≡ finds channel values.now
        (gate_view gate.now (await_view waiting.now).0 (await_view waiting.now).1) cursor.old) }
{
    let channels = waiting.channels.as_slice();
    match gate {
        Gate::Unopened => Ok(()),
        Gate::Opened(opened, value, over, body) => {
            let part = part_of_only(part, only_arm(channels, *opened));
            opened_on(
                alloc, body, *opened, *value, *over, part, table, channel, values, cursor,
            )
        }
    }
}

/// Lists what an arm offers on the channel that has opened.
#[cycle(list_on)]
fn opened_on(
    alloc: Global,
    body: &Proc,
    opened: u32,
    value: Option<Value>,
    over: bool,
    part: Option<&Part>,
    table: &UseTable,
    channel: u32,
    values: &[Value],
    cursor: &mut Cursor,
) -> Result<(), AllocError>
    ensures { (ds : List ℕ) (cs : model_code.Codes) → LocatedProc table.now part.entry (proc_view body.now) →
        OnOk result
        (cursor.new ≡ finds channel values.now (opened_of over ds cs opened value (proc_view body.now)) cursor.old) }
{
    if over {
        return Ok(());
    }
    body_on(
        alloc, body, opened, value, part, table, channel, values, cursor,
    )
}

/// Lists what the body of an arm offers on the channel, which opened on another and received this, if anything.
#[cycle(list_on)]
fn body_on(
    alloc: Global,
    body: &Proc,
    opened: u32,
    value: Option<Value>,
    part: Option<&Part>,
    table: &UseTable,
    channel: u32,
    values: &[Value],
    cursor: &mut Cursor,
) -> Result<(), AllocError>
    ensures { LocatedProc table.now part.entry (proc_view body.now) →
        OnOk result
        (cursor.new
        ≡ added
        (behind (IsOrdered 1)
        (on channel (listed values.now (with_value opened value cursor.old.received) (proc_view body.now)).actions))
        cursor.old) }
{
    cursor.receive(opened, value)?;
    child_on(alloc, body, part, 1, table, channel, values, cursor)?;
    if value.is_some() {
        cursor.forget();
    }
    Ok(())
}

/// Lists what a sequence offers on the channel. Whether a child is finished is asked only where it offers nothing on
/// the channel and a later one uses it.
#[cycle(list_on)]
fn sequence_on(
    alloc: Global,
    begun: &[Proc],
    row: &Row,
    part: Option<&Part>,
    table: &UseTable,
    channel: u32,
    values: &[Value],
    cursor: &mut Cursor,
) -> Result<(), AllocError>
    ensures { LocatedProcs table.now part.entry (begun_of (map proc_view begun.now) (row_view row.now)) →
        OnOk result
        (cursor.new
        ≡ finds channel values.now
        (model.sequence (begun_of (map proc_view begun.now) (row_view row.now))) cursor.old) }
{
    let count = row.codes.len();
    let end = begun.len().min(count);
    let found = cursor.count();
    let mut number = first_at_work(begun, row);
    'children: while number < end {
        let child = &begun[number];
        let own = part_at(part, number);
        child_on(
            alloc,
            child,
            own,
            number as u64,
            table,
            channel,
            values,
            cursor,
        )?;
        if cursor.count() > found {
            return Ok(());
        }
        if none_later(table, channel, part, number + 1, count) {
            return Ok(());
        }
        if !is_over(child) {
            return Ok(());
        }
        number += 1;
    }
    let codes = row.codes.as_slice();
    fresh_in_turn_on(alloc, codes, number, part, table, channel, values, cursor)
}

/// Lists what the child of this number in a sequence offers on the channel.
#[cycle(list_on)]
fn child_on(
    alloc: Global,
    child: &Proc,
    part: Option<&Part>,
    number: u64,
    table: &UseTable,
    channel: u32,
    values: &[Value],
    cursor: &mut Cursor,
) -> Result<(), AllocError>
    ensures { LocatedProc table.now part.entry (proc_view child.now) →
        OnOk result (cursor.new ≡ finds_at (IsOrdered number) channel values.now (proc_view child.now) cursor.old) }
{
    cursor.enter_child(number)?;
    list_on(alloc, child, part, table, channel, values, cursor)?;
    cursor.leave();
    Ok(())
}

/// Lists what a parallel offers on the channel: the branches that use it, and no other is looked at.
#[cycle(list_on)]
fn parallel_on(
    alloc: Global,
    procs: &[Proc],
    part: Option<&Part>,
    table: &UseTable,
    channel: u32,
    values: &[Value],
    cursor: &mut Cursor,
) -> Result<(), AllocError>
    ensures { LocatedProcs table.now part.entry (procs_of (map proc_view procs.now)) →
        OnOk result
        (cursor.new ≡ finds channel values.now (model.parallel (procs_of (map proc_view procs.now))) cursor.old) }
{
    let mut number = 0;
    'branches: while let Some(next) = next_user(table, channel, part, number, procs.len()) {
        let own = part_at(part, next);
        branch_on(
            alloc,
            &procs[next],
            own,
            next as u64,
            table,
            channel,
            values,
            cursor,
        )?;
        number = next + 1;
    }
    Ok(())
}

/// Lists what this branch of a parallel offers on the channel.
#[cycle(list_on)]
fn branch_on(
    alloc: Global,
    child: &Proc,
    part: Option<&Part>,
    number: u64,
    table: &UseTable,
    channel: u32,
    values: &[Value],
    cursor: &mut Cursor,
) -> Result<(), AllocError>
    ensures { LocatedProc table.now part.entry (proc_view child.now) →
        OnOk result (cursor.new ≡ finds_at (IsBranch number) channel values.now (proc_view child.now) cursor.old) }
{
    cursor.enter_branch(number)?;
    list_on(alloc, child, part, table, channel, values, cursor)?;
    cursor.leave();
    Ok(())
}
