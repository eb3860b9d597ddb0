// Moves made on the tree.
ghost use Rattle.std.specs.Prelude.{◌≡◌, ℕ, ◌<◌, map, length, IsSome, IfOk, OnOk, OnErr, Some, None};
ghost use Rattle.process_tree.specs.Proc.{started, sender, took, drained, sequence, parallel, ended, ended_at_once};
ghost use Rattle.process_tree.specs.Code.{Sender, code_at};
ghost use Rattle.process_tree.specs.Advanced.{advanced, again_after, test_after, open_after};
ghost use Rattle.process_tree.specs.Translation.{row_of};
ghost use Rattle.process_tree.specs.View.{code_view, repeat_view, decide_view, await_view, row_view, phase_view, proc_view, turn_of, opened_of, out_view, procs_of, begun_of};
ghost use Rattle.process_tree.specs.internal.Parts.{turns_view, tested_view, gate_view};
ghost use Rattle.process_tree.specs.Children.{proc_at};
ghost use Rattle.process_tree.specs.internal.Steps.{takes_none};
ghost use Rattle.runs.specs.Moves.{Place};

use crate::code::{Await, Code, Decide, Repeat, Row};
use crate::place::{branch_step, ordered_step};
use crate::proc::{Gate, Phase, Proc, Tested, Turns, start};
use address::Entry;
use runs::Ask;
use std::alloc::{AllocError, Global};
use std::mem;
use syntax::Items;
use value::Value;

/// Makes the move that is asked for at the place. What it gives is the body of the turn before it, where a loop turns
/// again. Without memory no move is made.
#[cycle(advance)]
pub(crate) fn advance(
    alloc: Global,
    proc: &mut Proc,
    place: &[Entry],
    ask: Ask,
) -> Result<Option<Box<Proc>>, AllocError>
    requires { IsSome (advanced (proc_view proc.old) place.now ask) }
    ensures ok { IfOk result (λ out.
        advanced (proc_view proc.old) place.now ask ≡ Some (proc_view proc.new, out_view out)) }
    ensures err { OnErr result (proc_view proc.new ≡ proc_view proc.old) }
{
    match proc {
        Proc::Idle | Proc::Stopped => Ok(None),
        Proc::Once(_, made) => {
            *made = true;
            Ok(None)
        }
        Proc::Sender(_, phase) => {
            *phase = phase_after(*phase, ask);
            Ok(None)
        }
        Proc::Loop(repeat, turns) => in_loop(alloc, repeat.get(), turns, place, ask),
        Proc::Test(decide, tested) => in_test(alloc, decide.get(), tested, place, ask),
        Proc::Arms(waiting, gate) => in_arms(alloc, waiting.get(), gate, place, ask),
        Proc::Sequence(row, begun) => in_child(alloc, row.get(), begun, place, ask),
        Proc::Parallel(procs) => in_branch(alloc, procs, place, ask),
        Proc::Drained(_, count) => {
            *count = count_after(place);
            Ok(None)
        }
    }
}

/// How far a send or sync is after its move.
fn phase_after(phase: Phase, ask: Ask) -> Phase
    ensures { (s : Sender) (a : Place) → IsSome (advanced (sender s (phase_view phase)) a ask) →
        advanced (sender s (phase_view phase)) a ask ≡ Some (sender s (phase_view result), None) }
{
    match ask {
        Ask::Hold => Phase::Holding,
        _ => Phase::Past,
    }
}

/// How often an output port has received after the receive at the place.
fn count_after(place: &[Entry]) -> u64
    ensures { (c n : ℕ) (k : Ask) → IsSome (advanced (drained c n) place.now k) →
        advanced (drained c n) place.now k ≡ Some (drained c result, None) }
{
    match ordered_step(place) {
        None => 0,
        Some((number, _)) => u64::from(number) + 1,
    }
}

/// Whether a test is asked for that takes no arm.
fn takes_none(ask: Ask) -> bool
    ensures { result ≡ takes_none ask }
{
    match ask {
        Ask::Test(None) => true,
        _ => false,
    }
}

/// The command before its first move, on the heap.
fn begin(alloc: Global, code: &Code) -> Result<Box<Proc>, AllocError>
    ensures { IfOk result (λ body. proc_view body.value ≡ started (code_view code.now)) }
{
    let body = start(alloc, code)?;
    Ok(Box::new(alloc, body)?)
}

/// The arm of this number before its first move, on the heap.
fn begin_arm(alloc: Global, arms: &Items<Code>, arm: u32) -> Result<Box<Proc>, AllocError>
    ensures { IfOk result (λ body. proc_view body.value ≡ started (code_at (row_of (map code_view arms.now)) arm)) }
{
    match arms.get(arm as usize) {
        Some(code) => begin(alloc, code),
        None => Ok(Box::new(alloc, Proc::Idle)?),
    }
}

#[cycle(advance)]
fn in_loop(
    alloc: Global,
    repeat: &Repeat,
    turns: &mut Turns,
    place: &[Entry],
    ask: Ask,
) -> Result<Option<Box<Proc>>, AllocError>
    requires { IsSome
        (advanced (turns_view turns.old (repeat_view repeat.now).0 (repeat_view repeat.now).1) place.now ask) }
    ensures ok { IfOk result (λ out.
        advanced (turns_view turns.old (repeat_view repeat.now).0 (repeat_view repeat.now).1) place.now ask
        ≡ Some (turns_view turns.new (repeat_view repeat.now).0 (repeat_view repeat.now).1, out_view out)) }
    ensures err { OnErr result (turns_view turns.new (repeat_view repeat.now).0 (repeat_view repeat.now).1
        ≡ turns_view turns.old (repeat_view repeat.now).0 (repeat_view repeat.now).1) }
{
    match turns {
        Turns::Fresh => {
            *turns = first_turn(alloc, repeat, ask)?;
            Ok(None)
        }
        Turns::EndedAtOnce => Ok(None),
        Turns::Turn(turn, over, body) => in_turn(alloc, repeat, turn, over, body, place, ask),
    }
}

/// A loop after its first turn began, or its first test ended it.
fn first_turn(alloc: Global, repeat: &Repeat, ask: Ask) -> Result<Turns, AllocError>
    ensures { IfOk result (λ made.
        IsSome (again_after (repeat_view repeat.now).0 (repeat_view repeat.now).1 0
        (ended_at_once (repeat_view repeat.now).0 (repeat_view repeat.now).1) None ask) →
        again_after (repeat_view repeat.now).0 (repeat_view repeat.now).1 0
        (ended_at_once (repeat_view repeat.now).0 (repeat_view repeat.now).1) None ask
        ≡ Some (turns_view made (repeat_view repeat.now).0 (repeat_view repeat.now).1, None)) }
{
    if takes_none(ask) {
        return Ok(Turns::EndedAtOnce);
    }
    let body = begin(alloc, &repeat.body)?;
    Ok(Turns::Turn(0, false, body))
}

#[cycle(advance)]
fn in_turn(
    alloc: Global,
    repeat: &Repeat,
    turn: &mut u64,
    over: &mut bool,
    body: &mut Box<Proc>,
    place: &[Entry],
    ask: Ask,
) -> Result<Option<Box<Proc>>, AllocError>
    requires { IsSome
        (advanced
        (turn_of over.old (repeat_view repeat.now).0 (repeat_view repeat.now).1 turn.old (proc_view body.old.value))
        place.now ask) }
    ensures ok { IfOk result (λ out.
        advanced
        (turn_of over.old (repeat_view repeat.now).0 (repeat_view repeat.now).1 turn.old (proc_view body.old.value))
        place.now ask
        ≡ Some (
          turn_of over.new (repeat_view repeat.now).0 (repeat_view repeat.now).1 turn.new
              (proc_view body.new.value),
          out_view out,
        )) }
    ensures err { OnErr result
        (turn_of over.new (repeat_view repeat.now).0 (repeat_view repeat.now).1 turn.new (proc_view body.new.value)
        ≡ turn_of over.old (repeat_view repeat.now).0 (repeat_view repeat.now).1 turn.old (proc_view body.old.value)) }
{
    match ordered_step(place) {
        None => Ok(None),
        Some((number, below)) => {
            if number % 2 == 1 {
                return advance(alloc, body, below, ask);
            }
            if takes_none(ask) {
                *over = true;
                return Ok(None);
            }
            let fresh = begin(alloc, &repeat.body)?;
            *turn = u64::from(number / 2);
            Ok(Some(mem::replace(body, fresh)))
        }
    }
}

#[cycle(advance)]
fn in_test(
    alloc: Global,
    decide: &Decide,
    tested: &mut Tested,
    place: &[Entry],
    ask: Ask,
) -> Result<Option<Box<Proc>>, AllocError>
    requires { IsSome
        (advanced (tested_view tested.old (decide_view decide.now).0 (decide_view decide.now).1) place.now ask) }
    ensures ok { IfOk result (λ out.
        advanced (tested_view tested.old (decide_view decide.now).0 (decide_view decide.now).1) place.now ask
        ≡ Some (tested_view tested.new (decide_view decide.now).0 (decide_view decide.now).1, out_view out)) }
    ensures err { OnErr result (tested_view tested.new (decide_view decide.now).0 (decide_view decide.now).1
        ≡ tested_view tested.old (decide_view decide.now).0 (decide_view decide.now).1) }
{
    match tested {
        Tested::Untested => {
            *tested = test(alloc, decide, ask)?;
            Ok(None)
        }
        Tested::Skipped => Ok(None),
        Tested::Took(arm, body) => in_taken(alloc, decide, *arm, body, place, ask),
    }
}

#[cycle(advance)]
fn in_taken(
    alloc: Global,
    decide: &Decide,
    arm: u32,
    body: &mut Box<Proc>,
    place: &[Entry],
    ask: Ask,
) -> Result<Option<Box<Proc>>, AllocError>
    requires { IsSome
        (advanced
        (took (decide_view decide.now).0 (decide_view decide.now).1 arm (proc_view body.old.value)) place.now ask) }
    ensures ok { IfOk result (λ out.
        advanced
        (took (decide_view decide.now).0 (decide_view decide.now).1 arm (proc_view body.old.value)) place.now ask
        ≡ Some (
          took (decide_view decide.now).0 (decide_view decide.now).1 arm (proc_view body.new.value),
          out_view out,
        )) }
    ensures err { OnErr result (proc_view body.new.value ≡ proc_view body.old.value) }
{
    match ordered_step(place) {
        None => Ok(None),
        Some((_, below)) => advance(alloc, body, below, ask),
    }
}

/// An `if` or `case` after its test.
fn test(alloc: Global, decide: &Decide, ask: Ask) -> Result<Tested, AllocError>
    ensures { IfOk result (λ made.
        IsSome (test_after (decide_view decide.now).0 (decide_view decide.now).1 ask) →
        test_after (decide_view decide.now).0 (decide_view decide.now).1 ask
        ≡ Some (tested_view made (decide_view decide.now).0 (decide_view decide.now).1, None)) }
{
    match ask {
        Ask::Test(Some(arm)) => {
            let body = begin_arm(alloc, &decide.arms, arm)?;
            Ok(Tested::Took(arm, body))
        }
        _ => Ok(Tested::Skipped),
    }
}

#[cycle(advance)]
fn in_arms(
    alloc: Global,
    waiting: &Await,
    gate: &mut Gate,
    place: &[Entry],
    ask: Ask,
) -> Result<Option<Box<Proc>>, AllocError>
    requires { IsSome
        (advanced (gate_view gate.old (await_view waiting.now).0 (await_view waiting.now).1) place.now ask) }
    ensures ok { IfOk result (λ out.
        advanced (gate_view gate.old (await_view waiting.now).0 (await_view waiting.now).1) place.now ask
        ≡ Some (gate_view gate.new (await_view waiting.now).0 (await_view waiting.now).1, out_view out)) }
    ensures err { OnErr result (gate_view gate.new (await_view waiting.now).0 (await_view waiting.now).1
        ≡ gate_view gate.old (await_view waiting.now).0 (await_view waiting.now).1) }
{
    match gate {
        Gate::Unopened => {
            *gate = open(alloc, waiting, ask)?;
            Ok(None)
        }
        Gate::Opened(channel, value, over, body) => {
            in_opened(alloc, waiting, *channel, *value, over, body, place, ask)
        }
    }
}

#[cycle(advance)]
fn in_opened(
    alloc: Global,
    waiting: &Await,
    channel: u32,
    value: Option<Value>,
    over: &mut bool,
    body: &mut Box<Proc>,
    place: &[Entry],
    ask: Ask,
) -> Result<Option<Box<Proc>>, AllocError>
    requires { IsSome
        (advanced
        (opened_of over.old (await_view waiting.now).0 (await_view waiting.now).1 channel value
        (proc_view body.old.value)) place.now ask) }
    ensures ok { IfOk result (λ out.
        advanced
        (opened_of over.old (await_view waiting.now).0 (await_view waiting.now).1 channel value
        (proc_view body.old.value)) place.now ask
        ≡ Some (
          opened_of over.new (await_view waiting.now).0 (await_view waiting.now).1 channel value
              (proc_view body.new.value),
          out_view out,
        )) }
    ensures err { OnErr result
        (opened_of over.new (await_view waiting.now).0 (await_view waiting.now).1 channel value
        (proc_view body.new.value)
        ≡ opened_of over.old (await_view waiting.now).0 (await_view waiting.now).1 channel value
        (proc_view body.old.value)) }
{
    match ordered_step(place) {
        None => Ok(None),
        Some((number, below)) => {
            if number == 1 {
                return advance(alloc, body, below, ask);
            }
            *over = true;
            Ok(None)
        }
    }
}

/// Arms that wait, after one has opened.
fn open(alloc: Global, waiting: &Await, ask: Ask) -> Result<Gate, AllocError>
    ensures { IfOk result (λ made.
        IsSome (open_after (await_view waiting.now).0 (await_view waiting.now).1 ask) →
        open_after (await_view waiting.now).0 (await_view waiting.now).1 ask
        ≡ Some (gate_view made (await_view waiting.now).0 (await_view waiting.now).1, None)) }
{
    match ask {
        Ask::Open(arm, value) => match waiting.channels.get(arm as usize) {
            None => Ok(Gate::Unopened),
            Some(channel) => {
                let body = begin_arm(alloc, &waiting.arms, arm)?;
                Ok(Gate::Opened(*channel, value, false, body))
            }
        },
        _ => Ok(Gate::Unopened),
    }
}

#[cycle(advance)]
fn in_child(
    alloc: Global,
    row: &Row,
    begun: &mut Vec<Proc>,
    place: &[Entry],
    ask: Ask,
) -> Result<Option<Box<Proc>>, AllocError>
    requires { IsSome
        (advanced (sequence (begun_of (map proc_view begun.old.items) (row_view row.now))) place.now ask) }
    ensures ok { IfOk result (λ out.
        advanced (sequence (begun_of (map proc_view begun.old.items) (row_view row.now))) place.now ask
        ≡ Some (sequence (begun_of (map proc_view begun.new.items) (row_view row.now)), out_view out)) }
    ensures err { OnErr result (begun_of (map proc_view begun.new.items) (row_view row.now)
        ≡ begun_of (map proc_view begun.old.items) (row_view row.now)) }
{
    match ordered_step(place) {
        None => Ok(None),
        Some((number, below)) => {
            begin_to(alloc, row, begun, number as usize)?;
            match begun.get_mut(number as usize) {
                None => Ok(None),
                Some(child) => advance(alloc, child, below, ask),
            }
        }
    }
}

/// Begins the children up to this number. None of them has made a move, so the sequence is seen as before.
fn begin_to(
    alloc: Global,
    row: &Row,
    begun: &mut Vec<Proc>,
    number: usize,
) -> Result<(), AllocError>
    ensures same { begun_of (map proc_view begun.new.items) (row_view row.now)
        ≡ begun_of (map proc_view begun.old.items) (row_view row.now) }
    ensures ok { OnOk result (IsSome (proc_at (begun_of (map proc_view begun.old.items) (row_view row.now)) number) →
        number < length begun.new.items) }
{
    'children: while begun.len() <= number {
        match row.codes.get(begun.len()) {
            None => return Ok(()),
            Some(code) => begun.push(start(alloc, code)?)?,
        }
    }
    Ok(())
}

#[cycle(advance)]
fn in_branch(
    alloc: Global,
    procs: &mut Vec<Proc>,
    place: &[Entry],
    ask: Ask,
) -> Result<Option<Box<Proc>>, AllocError>
    requires { IsSome (advanced (parallel (procs_of (map proc_view procs.old.items))) place.now ask) }
    ensures ok { IfOk result (λ out. advanced (parallel (procs_of (map proc_view procs.old.items))) place.now ask
        ≡ Some (parallel (procs_of (map proc_view procs.new.items)), out_view out)) }
    ensures err { OnErr result (procs_of (map proc_view procs.new.items) ≡ procs_of (map proc_view procs.old.items)) }
{
    match branch_step(place) {
        None => Ok(None),
        Some((number, below)) => match procs.get_mut(number as usize) {
            None => Ok(None),
            Some(child) => advance(alloc, child, below, ask),
        },
    }
}
