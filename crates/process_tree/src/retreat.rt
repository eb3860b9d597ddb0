// Moves taken back.
ghost use Rattle.std.specs.Prelude.{◌≡◌, ℕ, Option, Some, map, cond, IsSome};
ghost use Rattle.process_tree.specs.Code.{Sender, Code};
ghost use Rattle.process_tree.specs.Proc.{sender, drained, fresh, untested, took, unopened, sequence, parallel};
ghost use Rattle.process_tree.specs.View.{repeat_view, decide_view, await_view, row_view, phase_view, proc_view, turn_of, opened_of, out_view, procs_of, begun_of};
ghost use Rattle.process_tree.specs.internal.Parts.{turns_view, tested_view, gate_view};
ghost use Rattle.process_tree.specs.Retreated.{retreated, before_turn};
ghost use Rattle.process_tree.specs.Proc as model;
ghost use Rattle.system.specs.Expression.{Expression};

use crate::code::{Await, Decide, Repeat, Row};
use crate::place::{branch_step, ordered_step};
use crate::proc::{Gate, Phase, Proc, Tested, Turns};
use address::Entry;
use value::Value;

/// Takes the move at the place back, and puts what it took out where it was. It takes no memory.
#[cycle(retreat)]
pub(crate) fn retreat(proc: &mut Proc, place: &[Entry], out: Option<Box<Proc>>)
    requires { IsSome (retreated (proc_view proc.old) place.now (out_view out)) }
    ensures { retreated (proc_view proc.old) place.now (out_view out) ≡ Some (proc_view proc.new) }
{
    match proc {
        Proc::Idle | Proc::Stopped => {}
        Proc::Once(_, made) => *made = false,
        Proc::Sender(_, phase) => *phase = phase_before(*phase, place),
        Proc::Loop(repeat, turns) => from_loop(repeat.get(), turns, place, out),
        Proc::Test(decide, tested) => from_test(decide.get(), tested, place, out),
        Proc::Arms(waiting, gate) => from_arms(waiting.get(), gate, place, out),
        Proc::Sequence(row, begun) => from_child(row.get(), begun, place, out),
        Proc::Parallel(procs) => from_branch(procs, place, out),
        Proc::Drained(channel, count) => from_drain(*channel, count, place, out),
    }
}

/// How far a send or sync was before the move at the place.
fn phase_before(phase: Phase, place: &[Entry]) -> Phase
    ensures { (s : Sender) (out : Option model.Proc) → IsSome (retreated (sender s (phase_view phase)) place.now out) →
        retreated (sender s (phase_view phase)) place.now out ≡ Some (sender s (phase_view result)) }
{
    match phase {
        Phase::Waiting => Phase::Waiting,
        Phase::Holding => Phase::Waiting,
        Phase::Past => match ordered_step(place) {
            None => Phase::Waiting,
            Some((number, _)) => {
                if number == 1 {
                    return Phase::Holding;
                }
                Phase::Waiting
            }
        },
    }
}

/// An output port before its last receive.
fn from_drain(channel: u32, count: &mut u64, place: &[Entry], out: Option<Box<Proc>>)
    requires { IsSome (retreated (drained channel count.old) place.now (out_view out)) }
    ensures { retreated (drained channel count.old) place.now (out_view out) ≡ Some (drained channel count.new) }
{
    drop(out);
    *count = count_before(place);
}

/// How often an output port had received before the receive at the place.
fn count_before(place: &[Entry]) -> u64
    ensures { (c n : ℕ) (out : Option model.Proc) → IsSome (retreated (drained c n) place.now out) →
        retreated (drained c n) place.now out ≡ Some (drained c result) }
{
    match ordered_step(place) {
        None => 0,
        Some((number, _)) => u64::from(number),
    }
}

#[cycle(retreat)]
fn from_loop(repeat: &Repeat, turns: &mut Turns, place: &[Entry], out: Option<Box<Proc>>)
    requires { IsSome
        (retreated (turns_view turns.old (repeat_view repeat.now).0 (repeat_view repeat.now).1) place.now
        (out_view out)) }
    ensures { retreated (turns_view turns.old (repeat_view repeat.now).0 (repeat_view repeat.now).1) place.now
        (out_view out)
        ≡ Some (turns_view turns.new (repeat_view repeat.now).0 (repeat_view repeat.now).1) }
{
    match turns {
        Turns::Fresh => {}
        Turns::EndedAtOnce => *turns = Turns::Fresh,
        Turns::Turn(turn, over, body) => {
            if from_turn(repeat, turn, over, body, place, out) {
                *turns = Turns::Fresh;
            }
        }
    }
}

/// The answer is whether the turn was the first, and the loop is before it again.
#[cycle(retreat)]
fn from_turn(
    repeat: &Repeat,
    turn: &mut u64,
    over: &mut bool,
    body: &mut Box<Proc>,
    place: &[Entry],
    out: Option<Box<Proc>>,
) -> bool
    requires { IsSome
        (retreated
        (turn_of over.old (repeat_view repeat.now).0 (repeat_view repeat.now).1 turn.old (proc_view body.old.value))
        place.now (out_view out)) }
    ensures { retreated
        (turn_of over.old (repeat_view repeat.now).0 (repeat_view repeat.now).1 turn.old (proc_view body.old.value))
        place.now (out_view out)
        ≡ Some (cond result (fresh (repeat_view repeat.now).0 (repeat_view repeat.now).1)
        (turn_of over.new (repeat_view repeat.now).0 (repeat_view repeat.now).1 turn.new (proc_view body.new.value))) }
{
    if *over {
        *over = false;
        return false;
    }
    match ordered_step(place) {
        None => false,
        Some((number, below)) => {
            if number % 2 == 1 {
                retreat(body, below, out);
                return false;
            }
            match out {
                None => true,
                Some(old) => put_back(turn, body, old),
            }
        }
    }
}

/// The body of the turn before this one is put back, if there was one. The answer is whether there was none.
fn put_back(turn: &mut u64, body: &mut Box<Proc>, old: Box<Proc>) -> bool
    ensures { (g : Option Expression) (c : Code) →
        before_turn g c turn.old (Some (proc_view old.value))
        ≡ Some (cond result (fresh g c) (model.turn g c turn.new (proc_view body.new.value))) }
{
    if *turn == 0 {
        return true;
    }
    *turn -= 1;
    *body = old;
    false
}

#[cycle(retreat)]
fn from_test(decide: &Decide, tested: &mut Tested, place: &[Entry], out: Option<Box<Proc>>)
    requires { IsSome
        (retreated (tested_view tested.old (decide_view decide.now).0 (decide_view decide.now).1) place.now
        (out_view out)) }
    ensures { retreated (tested_view tested.old (decide_view decide.now).0 (decide_view decide.now).1) place.now
        (out_view out)
        ≡ Some (tested_view tested.new (decide_view decide.now).0 (decide_view decide.now).1) }
{
    match tested {
        Tested::Untested => {}
        Tested::Skipped => *tested = Tested::Untested,
        Tested::Took(arm, body) => {
            if from_taken(decide, *arm, body, place, out) {
                *tested = Tested::Untested;
            }
        }
    }
}

/// The answer is whether the test itself is taken back.
#[cycle(retreat)]
fn from_taken(
    decide: &Decide,
    arm: u32,
    body: &mut Box<Proc>,
    place: &[Entry],
    out: Option<Box<Proc>>,
) -> bool
    requires { IsSome
        (retreated (took (decide_view decide.now).0 (decide_view decide.now).1 arm (proc_view body.old.value)) place.now
        (out_view out)) }
    ensures { retreated
        (took (decide_view decide.now).0 (decide_view decide.now).1 arm (proc_view body.old.value)) place.now
        (out_view out)
        ≡ Some (cond result (untested (decide_view decide.now).0 (decide_view decide.now).1)
        (took (decide_view decide.now).0 (decide_view decide.now).1 arm (proc_view body.new.value))) }
{
    match ordered_step(place) {
        None => false,
        Some((number, below)) => {
            if number == 0 {
                return true;
            }
            retreat(body, below, out);
            false
        }
    }
}

#[cycle(retreat)]
fn from_arms(waiting: &Await, gate: &mut Gate, place: &[Entry], out: Option<Box<Proc>>)
    requires { IsSome
        (retreated (gate_view gate.old (await_view waiting.now).0 (await_view waiting.now).1) place.now
        (out_view out)) }
    ensures { retreated (gate_view gate.old (await_view waiting.now).0 (await_view waiting.now).1) place.now
        (out_view out)
        ≡ Some (gate_view gate.new (await_view waiting.now).0 (await_view waiting.now).1) }
{
    match gate {
        Gate::Unopened => {}
        Gate::Opened(channel, value, over, body) => {
            if from_opened(waiting, *channel, *value, over, body, place, out) {
                *gate = Gate::Unopened;
            }
        }
    }
}

/// The answer is whether the open itself is taken back.
#[cycle(retreat)]
fn from_opened(
    waiting: &Await,
    channel: u32,
    value: Option<Value>,
    over: &mut bool,
    body: &mut Box<Proc>,
    place: &[Entry],
    out: Option<Box<Proc>>,
) -> bool
    requires { IsSome
        (retreated
        (opened_of over.old (await_view waiting.now).0 (await_view waiting.now).1 channel value
        (proc_view body.old.value)) place.now (out_view out)) }
    ensures { retreated
        (opened_of over.old (await_view waiting.now).0 (await_view waiting.now).1 channel value
        (proc_view body.old.value)) place.now (out_view out)
        ≡ Some (cond result (unopened (await_view waiting.now).0 (await_view waiting.now).1)
        (opened_of over.new (await_view waiting.now).0 (await_view waiting.now).1 channel value
        (proc_view body.new.value))) }
{
    if *over {
        *over = false;
        return false;
    }
    match ordered_step(place) {
        None => false,
        Some((number, below)) => {
            if number == 0 {
                return true;
            }
            retreat(body, below, out);
            false
        }
    }
}

/// A child that has not begun has made no move, so there is nothing to take back.
#[cycle(retreat)]
fn from_child(row: &Row, begun: &mut Vec<Proc>, place: &[Entry], out: Option<Box<Proc>>)
    requires { IsSome
        (retreated (sequence (begun_of (map proc_view begun.old.items) (row_view row.now))) place.now (out_view out)) }
    ensures { retreated (sequence (begun_of (map proc_view begun.old.items) (row_view row.now))) place.now
        (out_view out)
        ≡ Some (sequence (begun_of (map proc_view begun.new.items) (row_view row.now))) }
{
    match ordered_step(place) {
        None => {}
        Some((number, below)) => match begun.get_mut(number as usize) {
            None => {}
            Some(child) => retreat(child, below, out),
        },
    }
}

#[cycle(retreat)]
fn from_branch(procs: &mut Vec<Proc>, place: &[Entry], out: Option<Box<Proc>>)
    requires { IsSome (retreated (parallel (procs_of (map proc_view procs.old.items))) place.now (out_view out)) }
    ensures { retreated (parallel (procs_of (map proc_view procs.old.items))) place.now (out_view out)
        ≡ Some (parallel (procs_of (map proc_view procs.new.items))) }
{
    match branch_step(place) {
        None => {}
        Some((number, below)) => match procs.get_mut(number as usize) {
            None => {}
            Some(child) => retreat(child, below, out),
        },
    }
}
