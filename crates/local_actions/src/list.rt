// The walk through a tree.
ghost use Rattle.std.specs.Prelude.{◌≡◌, ◌≤◌, ℕ, ◌+◌, ◌*◌, ◌^◌, List, map, IfOk, OnOk, OnErr};
ghost use Rattle.process_tree.specs.Code as model_code;
ghost use Rattle.process_tree.specs.Remaining.{with_value};
ghost use Rattle.process_tree.specs.Proc as model;
ghost use Rattle.process_tree.specs.View.{once_view, sender_view, phase_view, proc_view, procs_of, begun_of, row_view, repeat_view, decide_view, await_view, turn_of, opened_of};
ghost use Rattle.process_tree.specs.internal.Parts.{turns_view, tested_view, gate_view};
ghost use Rattle.local_actions.specs.internal.Listed.{behind, listed};
ghost use Rattle.local_actions.specs.Walk.{added};
ghost use Rattle.local_actions.specs.internal.Walk.{lists, lists_at};

use crate::cursor::{Cursor, small};
use crate::fresh::list_fresh_from;
use crate::leaves::{
    list_again, list_arms, list_close, list_drain, list_held, list_once, list_sender, list_test,
};
use crate::moved::first_at_work;
use address::Entry;
use process_tree::{Await, Decide, Gate, Once, Phase, Proc, Repeat, Row, Sender, Tested, Turns};
use std::alloc::{AllocError, Global};
use value::Value;

/// Lists what the process offers. Whether it is finished; then nothing is listed.
#[cycle(list)]
pub(crate) fn list(
    alloc: Global,
    proc: &Proc,
    values: &[Value],
    cursor: &mut Cursor,
) -> Result<bool, AllocError>
    ensures actions { OnOk result (cursor.new ≡ lists values.now (proc_view proc.now) cursor.old) }
    ensures over { IfOk result (λ over. over ≡ (listed values.now cursor.old.received (proc_view proc.now)).over) }
{
    match proc {
        Proc::Idle => Ok(true),
        Proc::Stopped => Ok(false),
        Proc::Once(once, made) => list_unmade(alloc, once.get(), *made, values, cursor),
        Proc::Sender(sender, phase) => list_phase(alloc, sender.get(), *phase, values, cursor),
        Proc::Loop(repeat, turns) => list_loop(alloc, turns, repeat.get(), values, cursor),
        Proc::Test(decide, tested) => list_tested(alloc, tested, decide.get(), values, cursor),
        Proc::Arms(waiting, gate) => list_gate(alloc, gate, waiting.get(), values, cursor),
        Proc::Sequence(row, begun) => {
            list_sequence(alloc, begun.as_slice(), row.get(), values, cursor)
        }
        Proc::Parallel(procs) => list_parallel(alloc, procs.as_slice(), values, cursor),
        Proc::Drained(channel, count) => {
            list_drain(alloc, *channel, *count, cursor)?;
            Ok(false)
        }
    }
}

/// Lists what makes one move, unless it has made it. Whether it has.
fn list_unmade(
    alloc: Global,
    once: &Once,
    made: bool,
    values: &[Value],
    cursor: &mut Cursor,
) -> Result<bool, AllocError>
    ensures actions { OnOk result (cursor.new ≡ lists values.now (model.once (once_view once.now) made) cursor.old) }
    ensures over { IfOk result (λ over.
        over ≡ (listed values.now cursor.old.received (model.once (once_view once.now) made)).over) }
{
    if made {
        return Ok(true);
    }
    list_once(alloc, once, values, cursor)?;
    Ok(false)
}

/// Lists a send or sync, unless it is past. Whether it is.
fn list_phase(
    alloc: Global,
    sender: &Sender,
    phase: Phase,
    values: &[Value],
    cursor: &mut Cursor,
) -> Result<bool, AllocError>
    ensures actions { OnOk result (cursor.new
        ≡ lists values.now (model.sender (sender_view sender.now) (phase_view phase)) cursor.old) }
    ensures over { IfOk result (λ over.
        over
        ≡ (listed values.now cursor.old.received (model.sender (sender_view sender.now) (phase_view phase))).over) }
{
    match phase {
        Phase::Waiting => {
            list_sender(alloc, sender, values, cursor)?;
            Ok(false)
        }
        Phase::Holding => {
            list_held(alloc, sender, cursor)?;
            Ok(false)
        }
        Phase::Past => Ok(true),
    }
}

/// Lists what a loop offers. Whether it has ended.
#[cycle(list)]
fn list_loop(
    alloc: Global,
    turns: &Turns,
    repeat: &Repeat,
    values: &[Value],
    cursor: &mut Cursor,
) -> Result<bool, AllocError>
    ensures actions { OnOk result (cursor.new
        ≡ lists values.now (turns_view turns.now (repeat_view repeat.now).0 (repeat_view repeat.now).1) cursor.old) }
    ensures over { IfOk result (λ over.
        over
        ≡ (listed values.now cursor.old.received
        (turns_view turns.now (repeat_view repeat.now).0 (repeat_view repeat.now).1)).over) }
{
    match turns {
        Turns::Fresh => {
            list_again(alloc, &repeat.guard, 0, values, cursor)?;
            Ok(false)
        }
        Turns::EndedAtOnce => Ok(true),
        Turns::Turn(turn, over, body) => {
            list_turn(alloc, body, *turn, *over, repeat, values, cursor)
        }
    }
}

/// Lists what a loop offers in this turn or behind it. Whether it has ended.
#[cycle(list)]
fn list_turn(
    alloc: Global,
    body: &Proc,
    turn: u64,
    over: bool,
    repeat: &Repeat,
    values: &[Value],
    cursor: &mut Cursor,
) -> Result<bool, AllocError>
    ensures actions { OnOk result (cursor.new
        ≡ lists values.now
        (turn_of over (repeat_view repeat.now).0 (repeat_view repeat.now).1 turn (proc_view body.now)) cursor.old) }
    ensures over { IfOk result (λ ended.
        ended
        ≡ (listed values.now cursor.old.received
        (turn_of over (repeat_view repeat.now).0 (repeat_view repeat.now).1 turn (proc_view body.now))).over) }
{
    if over {
        return Ok(true);
    }
    let next = next_turn(turn)?;
    if list_child(alloc, body, body_of_turn(turn)?, values, cursor)? {
        list_again(alloc, &repeat.guard, next, values, cursor)?;
    }
    Ok(false)
}

/// Lists what an `if` or `case` offers. Whether it is finished.
#[cycle(list)]
fn list_tested(
    alloc: Global,
    tested: &Tested,
    decide: &Decide,
    values: &[Value],
    cursor: &mut Cursor,
) -> Result<bool, AllocError>
    ensures actions { OnOk result (cursor.new
        ≡ lists values.now (tested_view tested.now (decide_view decide.now).0 (decide_view decide.now).1) cursor.old) }
    ensures over { IfOk result (λ over.
        over
        ≡ (listed values.now cursor.old.received
        (tested_view tested.now (decide_view decide.now).0 (decide_view decide.now).1)).over) }
{
    match tested {
        Tested::Untested => {
            list_test(alloc, &decide.decision, values, cursor)?;
            Ok(false)
        }
        Tested::Skipped => Ok(true),
        Tested::Took(_, body) => list_child(alloc, body, 1, values, cursor),
    }
}

/// Lists what arms offer that wait on their channels. Whether one has been closed.
#[cycle(list)]
fn list_gate(
    alloc: Global,
    gate: &Gate,
    waiting: &Await,
    values: &[Value],
    cursor: &mut Cursor,
) -> Result<bool, AllocError>
    ensures actions { OnOk result (cursor.new
        ≡ lists values.now (gate_view gate.now (await_view waiting.now).0 (await_view waiting.now).1) cursor.old) }
    ensures over { IfOk result (λ over.
        over
        ≡ (listed values.now cursor.old.received
        (gate_view gate.now (await_view waiting.now).0 (await_view waiting.now).1)).over) }
{
    match gate {
        Gate::Unopened => {
            list_arms(alloc, waiting.channels.as_slice(), cursor)?;
            Ok(false)
        }
        Gate::Opened(channel, value, over, body) => {
            list_opened(alloc, body, *channel, *value, *over, values, cursor)
        }
    }
}

/// Lists what an arm offers that has opened. Whether it has been closed.
#[cycle(list)]
fn list_opened(
    alloc: Global,
    body: &Proc,
    channel: u32,
    value: Option<Value>,
    over: bool,
    values: &[Value],
    cursor: &mut Cursor,
) -> Result<bool, AllocError>
    ensures actions { (ds : List ℕ) (cs : model_code.Codes) →
        OnOk result
        (cursor.new ≡ lists values.now (opened_of over ds cs channel value (proc_view body.now)) cursor.old) }
    ensures over { (ds : List ℕ) (cs : model_code.Codes) →
        IfOk result (λ closed.
        closed
        ≡ (listed values.now cursor.old.received (opened_of over ds cs channel value (proc_view body.now))).over) }
{
    if over {
        return Ok(true);
    }
    if list_arm(alloc, body, channel, value, values, cursor)? {
        list_close(alloc, channel, cursor)?;
    }
    Ok(false)
}

/// Lists what the body of an arm offers that opened on this channel and received this, if anything. Whether it is
/// finished.
#[cycle(list)]
fn list_arm(
    alloc: Global,
    body: &Proc,
    channel: u32,
    value: Option<Value>,
    values: &[Value],
    cursor: &mut Cursor,
) -> Result<bool, AllocError>
    ensures actions { OnOk result (cursor.new
        ≡ added
        (behind (Entry.Ordered 1)
        (listed values.now (with_value channel value cursor.old.received) (proc_view body.now)).actions) cursor.old) }
    ensures over { IfOk result (λ over.
        over ≡ (listed values.now (with_value channel value cursor.old.received) (proc_view body.now)).over) }
{
    cursor.receive(channel, value)?;
    let over = list_child(alloc, body, 1, values, cursor)?;
    if value.is_some() {
        cursor.forget();
    }
    Ok(over)
}

/// Lists what a sequence offers: the first child that is not finished, from the last on that has made a move. Whether
/// it is finished.
#[cycle(list)]
fn list_sequence(
    alloc: Global,
    begun: &[Proc],
    row: &Row,
    values: &[Value],
    cursor: &mut Cursor,
) -> Result<bool, AllocError>
    ensures actions { OnOk result (cursor.new
        ≡ lists values.now (model.sequence (begun_of (map proc_view begun.now) (row_view row.now))) cursor.old) }
    ensures over { IfOk result (λ over.
        over
        ≡ (listed values.now cursor.old.received
        (model.sequence (begun_of (map proc_view begun.now) (row_view row.now)))).over) }
{
    let end = begun.len().min(row.codes.len());
    let mut number = first_at_work(begun, row);
    'children: while number < end {
        if !list_child(alloc, &begun[number], number as u64, values, cursor)? {
            return Ok(false);
        }
        number += 1;
    }
    list_fresh_from(alloc, row.codes.as_slice(), number, values, cursor)
}

/// Lists what the child of this number in a sequence offers. Whether it is finished.
#[cycle(list)]
#[tactic(auto, using(crate::proofs::public::Walks::through))]
fn list_child(
    alloc: Global,
    child: &Proc,
    number: u64,
    values: &[Value],
    cursor: &mut Cursor,
) -> Result<bool, AllocError>
    ensures actions { OnOk result (cursor.new
        ≡ lists_at (Entry.Ordered number) values.now (proc_view child.now) cursor.old) }
    ensures over { IfOk result (λ over. over ≡ (listed values.now cursor.old.received (proc_view child.now)).over) }
{
    cursor.enter_child(number)?;
    let over = list(alloc, child, values, cursor)?;
    cursor.leave();
    Ok(over)
}

/// Lists what a parallel offers. Whether it is finished.
#[cycle(list)]
fn list_parallel(
    alloc: Global,
    procs: &[Proc],
    values: &[Value],
    cursor: &mut Cursor,
) -> Result<bool, AllocError>
    ensures actions { OnOk result (cursor.new
        ≡ lists values.now (model.parallel (procs_of (map proc_view procs.now))) cursor.old) }
    ensures over { IfOk result (λ over.
        over ≡ (listed values.now cursor.old.received (model.parallel (procs_of (map proc_view procs.now)))).over) }
{
    let mut over = true;
    for (number, child) in procs.iter().enumerate() {
        if !list_branch(alloc, child, number as u64, values, cursor)? {
            over = false;
        }
    }
    Ok(over)
}

/// Lists what this branch of a parallel offers. Whether it is finished.
#[cycle(list)]
#[tactic(auto, using(crate::proofs::public::Walks::through))]
fn list_branch(
    alloc: Global,
    child: &Proc,
    number: u64,
    values: &[Value],
    cursor: &mut Cursor,
) -> Result<bool, AllocError>
    ensures actions { OnOk result (cursor.new
        ≡ lists_at (Entry.Branch number) values.now (proc_view child.now) cursor.old) }
    ensures over { IfOk result (λ over. over ≡ (listed values.now cursor.old.received (proc_view child.now)).over) }
{
    cursor.enter_branch(number)?;
    let over = list(alloc, child, values, cursor)?;
    cursor.leave();
    Ok(over)
}

/// The turn behind this one. It is an error if its number does not fit into 64 bits, which no run reaches.
pub(crate) fn next_turn(turn: u64) -> Result<u64, AllocError>
    ensures next { IfOk result (λ next. next ≡ turn + 1) }
    ensures large { OnErr result (2 ^ 64 ≤ turn + 1) }
{
    match turn.checked_add(1) {
        Some(next) => Ok(next),
        None => Err(AllocError),
    }
}

/// The number of the body of this turn of a loop. It is an error from turn 2^32 on, which no run reaches.
pub fn body_of_turn(turn: u64) -> Result<u64, AllocError>
    ensures number { IfOk result (λ number. number ≡ 2 * turn + 1) }
    ensures large { OnErr result (2 ^ 32 ≤ turn) }
{
    Ok(u64::from(small(turn)?) * 2 + 1)
}
