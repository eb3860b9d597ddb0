// The walk through a tree that finds what it offers.
ghost use Rattle.std.specs.Prelude.{◌≡◌, ◌≤◌, ℕ, ◌+◌, ◌*◌, ◌^◌, List, map, IfOk, OnOk, OnErr};
ghost use Rattle.process_tree.specs.Code as model_code;
ghost use Rattle.process_tree.specs.Proc as model;
ghost use Rattle.process_tree.specs.View.{once_view, sender_view, phase_view, proc_view, procs_of, begun_of, row_view, repeat_view, decide_view, await_view, turn_of, opened_of};
ghost use Rattle.process_tree.specs.internal.Parts.{turns_view, tested_view, gate_view};
ghost use Rattle.process_tree.specs.internal.Listed.{listed, added, lists, lists_at};

use crate::code::{Await, Decide, Once, Repeat, Row, Sender};
use crate::finder::{Finder, small};
use crate::leaf_offers::{
    list_again, list_arms, list_close, list_drain, list_held, list_once, list_sender, list_test,
};
use crate::list_fresh::list_fresh_from;
use crate::proc::{Gate, Phase, Proc, Tested, Turns};
use address::Entry;
use std::alloc::{AllocError, Global};
use value::Value;

/// Lists what the process offers. Whether it is finished; then nothing is listed.
#[cycle(list)]
pub(crate) fn list(alloc: Global, proc: &Proc, finder: &mut Finder) -> Result<bool, AllocError>
    ensures offers { OnOk result (finder.new ≡ lists (proc_view proc.now) finder.old) }
    ensures over { IfOk result (λ over. over ≡ (listed (proc_view proc.now)).over) }
{
    match proc {
        Proc::Idle => Ok(true),
        Proc::Stopped => Ok(false),
        Proc::Once(once, made) => list_unmade(alloc, once.get(), *made, finder),
        Proc::Sender(sender, phase) => list_phase(alloc, sender.get(), *phase, finder),
        Proc::Loop(repeat, turns) => list_loop(alloc, turns, repeat.get(), finder),
        Proc::Test(decide, tested) => list_tested(alloc, tested, decide.get(), finder),
        Proc::Arms(waiting, gate) => list_gate(alloc, gate, waiting.get(), finder),
        Proc::Sequence(row, begun) => list_sequence(alloc, begun.as_slice(), row.get(), finder),
        Proc::Parallel(procs) => list_parallel(alloc, procs.as_slice(), finder),
        Proc::Drained(channel, count) => {
            list_drain(alloc, *channel, *count, finder)?;
            Ok(false)
        }
    }
}

/// Lists what makes one move, unless it has made it. Whether it has.
fn list_unmade(
    alloc: Global,
    once: &Once,
    made: bool,
    finder: &mut Finder,
) -> Result<bool, AllocError>
    ensures offers { OnOk result (finder.new ≡ lists (model.once (once_view once.now) made) finder.old) }
    ensures over { IfOk result (λ over. over ≡ (listed (model.once (once_view once.now) made)).over) }
{
    if made {
        return Ok(true);
    }
    list_once(alloc, once, finder)?;
    Ok(false)
}

/// Lists a send or sync, unless it is past. Whether it is.
fn list_phase(
    alloc: Global,
    sender: &Sender,
    phase: Phase,
    finder: &mut Finder,
) -> Result<bool, AllocError>
    ensures offers { OnOk result (finder.new
        ≡ lists (model.sender (sender_view sender.now) (phase_view phase)) finder.old) }
    ensures over { IfOk result (λ over.
        over ≡ (listed (model.sender (sender_view sender.now) (phase_view phase))).over) }
{
    match phase {
        Phase::Waiting => {
            list_sender(alloc, sender, finder)?;
            Ok(false)
        }
        Phase::Holding => {
            list_held(alloc, sender, finder)?;
            Ok(false)
        }
        Phase::Past => Ok(true),
    }
}

/// Lists what a loop offers. Whether it has ended.
#[cycle(list)]
fn list_loop(
    alloc: Global,
    turns: &Turns,
    repeat: &Repeat,
    finder: &mut Finder,
) -> Result<bool, AllocError>
    ensures offers { OnOk result (finder.new
        ≡ lists (turns_view turns.now (repeat_view repeat.now).0 (repeat_view repeat.now).1) finder.old) }
    ensures over { IfOk result (λ over.
        over ≡ (listed (turns_view turns.now (repeat_view repeat.now).0 (repeat_view repeat.now).1)).over) }
{
    match turns {
        Turns::Fresh => {
            list_again(alloc, &repeat.guard, 0, finder)?;
            Ok(false)
        }
        Turns::EndedAtOnce => Ok(true),
        Turns::Turn(turn, over, body) => list_turn(alloc, body, *turn, *over, repeat, finder),
    }
}

/// Lists what a loop offers in this turn or behind it. Whether it has ended.
#[cycle(list)]
fn list_turn(
    alloc: Global,
    body: &Proc,
    turn: u64,
    over: bool,
    repeat: &Repeat,
    finder: &mut Finder,
) -> Result<bool, AllocError>
    ensures offers { OnOk result (finder.new
        ≡ lists
        (turn_of over (repeat_view repeat.now).0 (repeat_view repeat.now).1 turn (proc_view body.now)) finder.old) }
    ensures over { IfOk result (λ ended.
        ended
        ≡ (listed
        (turn_of over (repeat_view repeat.now).0 (repeat_view repeat.now).1 turn (proc_view body.now))).over) }
{
    if over {
        return Ok(true);
    }
    let next = next_turn(turn)?;
    if list_child(alloc, body, body_of_turn(turn)?, finder)? {
        list_again(alloc, &repeat.guard, next, finder)?;
    }
    Ok(false)
}

/// Lists what an `if` or `case` offers. Whether it is finished.
#[cycle(list)]
fn list_tested(
    alloc: Global,
    tested: &Tested,
    decide: &Decide,
    finder: &mut Finder,
) -> Result<bool, AllocError>
    ensures offers { OnOk result (finder.new
        ≡ lists (tested_view tested.now (decide_view decide.now).0 (decide_view decide.now).1) finder.old) }
    ensures over { IfOk result (λ over.
        over ≡ (listed (tested_view tested.now (decide_view decide.now).0 (decide_view decide.now).1)).over) }
{
    match tested {
        Tested::Untested => {
            list_test(alloc, finder)?;
            Ok(false)
        }
        Tested::Skipped => Ok(true),
        Tested::Took(_, body) => list_child(alloc, body, 1, finder),
    }
}

/// Lists what arms offer that wait on their channels. Whether one has been closed.
#[cycle(list)]
fn list_gate(
    alloc: Global,
    gate: &Gate,
    waiting: &Await,
    finder: &mut Finder,
) -> Result<bool, AllocError>
    ensures offers { OnOk result (finder.new
        ≡ lists (gate_view gate.now (await_view waiting.now).0 (await_view waiting.now).1) finder.old) }
    ensures over { IfOk result (λ over.
        over ≡ (listed (gate_view gate.now (await_view waiting.now).0 (await_view waiting.now).1)).over) }
{
    match gate {
        Gate::Unopened => {
            list_arms(alloc, waiting.channels.as_slice(), finder)?;
            Ok(false)
        }
        Gate::Opened(channel, value, over, body) => {
            list_opened(alloc, body, *channel, *value, *over, finder)
        }
    }
}

/// Lists what an arm offers that has opened. Whether it has been closed.
#[cycle(list)]
fn list_opened(
    alloc: Global,
    body: &Proc,
    channel: u32,
    value: Option<Value>,
    over: bool,
    finder: &mut Finder,
) -> Result<bool, AllocError>
    ensures offers { (ds : List ℕ) (cs : model_code.Codes) →
        OnOk result (finder.new ≡ lists (opened_of over ds cs channel value (proc_view body.now)) finder.old) }
    ensures over { (ds : List ℕ) (cs : model_code.Codes) →
        IfOk result (λ closed. closed ≡ (listed (opened_of over ds cs channel value (proc_view body.now))).over) }
{
    if over {
        return Ok(true);
    }
    if list_child(alloc, body, 1, finder)? {
        list_close(alloc, channel, finder)?;
    }
    Ok(false)
}

/// Lists what a sequence offers: the first child that is not finished. Whether it is finished.
#[cycle(list)]
fn list_sequence(
    alloc: Global,
    begun: &[Proc],
    row: &Row,
    finder: &mut Finder,
) -> Result<bool, AllocError>
    ensures offers { OnOk result (finder.new
        ≡ lists (model.sequence (begun_of (map proc_view begun.now) (row_view row.now))) finder.old) }
    ensures over { IfOk result (λ over.
        over ≡ (listed (model.sequence (begun_of (map proc_view begun.now) (row_view row.now)))).over) }
{
    let end = begun.len().min(row.codes.len());
    let mut number = 0;
    'children: while number < end {
        if !list_child(alloc, &begun[number], number as u64, finder)? {
            return Ok(false);
        }
        number += 1;
    }
    list_fresh_from(alloc, row.codes.as_slice(), number, finder)
}

/// Lists what the child of this number in a sequence offers. Whether it is finished.
#[cycle(list)]
#[tactic(auto, using(crate::proofs::Finding::through))]
fn list_child(
    alloc: Global,
    child: &Proc,
    number: u64,
    finder: &mut Finder,
) -> Result<bool, AllocError>
    ensures offers { OnOk result (finder.new
        ≡ lists_at (Entry.Ordered number) (proc_view child.now) finder.old) }
    ensures over { IfOk result (λ over. over ≡ (listed (proc_view child.now)).over) }
{
    finder.enter_child(number)?;
    let over = list(alloc, child, finder)?;
    finder.leave();
    Ok(over)
}

/// Lists what a parallel offers. Whether it is finished.
#[cycle(list)]
fn list_parallel(alloc: Global, procs: &[Proc], finder: &mut Finder) -> Result<bool, AllocError>
    ensures offers { OnOk result (finder.new
        ≡ lists (model.parallel (procs_of (map proc_view procs.now))) finder.old) }
    ensures over { IfOk result (λ over.
        over ≡ (listed (model.parallel (procs_of (map proc_view procs.now)))).over) }
{
    let mut over = true;
    for (number, child) in procs.iter().enumerate() {
        if !list_branch(alloc, child, number as u64, finder)? {
            over = false;
        }
    }
    Ok(over)
}

/// Lists what this branch of a parallel offers. Whether it is finished.
#[cycle(list)]
#[tactic(auto, using(crate::proofs::Finding::through))]
fn list_branch(
    alloc: Global,
    child: &Proc,
    number: u64,
    finder: &mut Finder,
) -> Result<bool, AllocError>
    ensures offers { OnOk result (finder.new
        ≡ lists_at (Entry.Branch number) (proc_view child.now) finder.old) }
    ensures over { IfOk result (λ over. over ≡ (listed (proc_view child.now)).over) }
{
    finder.enter_branch(number)?;
    let over = list(alloc, child, finder)?;
    finder.leave();
    Ok(over)
}

/// The turn behind this one. It is an error if its number does not fit into 64 bits: its acts have no place.
fn next_turn(turn: u64) -> Result<u64, AllocError>
    ensures next { IfOk result (λ next. next ≡ turn + 1) }
    ensures large { OnErr result (2 ^ 64 ≤ turn + 1) }
{
    match turn.checked_add(1) {
        Some(next) => Ok(next),
        None => Err(AllocError),
    }
}

/// The number of the body of this turn of a loop. It is an error from turn 2^32 on, whose body has no place.
fn body_of_turn(turn: u64) -> Result<u64, AllocError>
    ensures number { IfOk result (λ number. number ≡ 2 * turn + 1) }
    ensures large { OnErr result (2 ^ 32 ≤ turn) }
{
    Ok(u64::from(small(turn)?) * 2 + 1)
}
