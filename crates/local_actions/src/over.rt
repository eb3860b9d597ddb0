// Whether processes and commands are finished.
ghost use Rattle.std.specs.Prelude.{◌≡◌, ℕ, List, Option, true, false, map};
ghost use Rattle.system.specs.Expression as model;
ghost use Rattle.process_tree.specs.Code as model_code;
ghost use Rattle.process_tree.specs.Remaining.{Received};
ghost use Rattle.process_tree.specs.Proc as model_proc;
ghost use Rattle.process_tree.specs.Proc.{started, all_started, finished};
ghost use Rattle.process_tree.specs.Tidy.{Tidy};
ghost use Rattle.process_tree.specs.Translation.{row_of};
ghost use Rattle.process_tree.specs.View.{code_view, phase_view, proc_view, procs_of, begun_of, row_view};
ghost use Rattle.process_tree.specs.internal.Parts.{turns_view, tested_view, gate_view};
ghost use Rattle.local_actions.specs.internal.Listed.{listed};
ghost use Rattle.local_actions.specs.internal.Over.{AllOver, HasOver, HasNoneOver, IsReached};

use crate::moved::first_at_work;
use process_tree::{Code, Gate, Phase, Proc, Row, Tested, Turns};

/// Whether the process is finished, where it is tidy. Of the children of a sequence it looks at the last that has moved
/// and those behind it, and nowhere further than the first that is not finished.
pub fn is_over(proc: &Proc) -> bool
    ensures finished { Tidy (proc_view proc.now) → result ≡ finished (proc_view proc.now) }
    ensures walked { (s : model.Store) (env : Received) → result ≡ (listed s env (proc_view proc.now)).over }
{
    over(proc)
}

/// Whether a walk finds the process finished.
#[cycle(over)]
fn over(proc: &Proc) -> bool
    ensures { (s : model.Store) (env : Received) → result ≡ (listed s env (proc_view proc.now)).over }
{
    match proc {
        Proc::Idle => true,
        Proc::Stopped | Proc::Drained(_, _) => false,
        Proc::Once(_, made) => *made,
        Proc::Sender(_, phase) => is_past(*phase),
        Proc::Loop(_, turns) => loop_over(turns),
        Proc::Test(_, tested) => test_over(tested),
        Proc::Arms(_, gate) => arms_over(gate),
        Proc::Sequence(row, begun) => sequence_over(begun.as_slice(), row.get()),
        Proc::Parallel(procs) => all_over(procs.as_slice()),
    }
}

/// Whether a send or sync is past.
fn is_past(phase: Phase) -> bool
    ensures { (s : model.Store) (env : Received) (x : model_code.Sender) →
        result ≡ (listed s env (model_proc.sender x (phase_view phase))).over }
{
    match phase {
        Phase::Waiting | Phase::Holding => false,
        Phase::Past => true,
    }
}

/// Whether a loop has ended.
fn loop_over(turns: &Turns) -> bool
    ensures { (s : model.Store) (env : Received) (g : Option model.Expression) (c : model_code.Code) →
        result ≡ (listed s env (turns_view turns.now g c)).over }
{
    match turns {
        Turns::Fresh => false,
        Turns::EndedAtOnce => true,
        Turns::Turn(_, over, _) => *over,
    }
}

/// Whether an `if` or `case` is finished.
#[cycle(over)]
fn test_over(tested: &Tested) -> bool
    ensures { (s : model.Store) (env : Received) (d : model.Decision) (cs : model_code.Codes) →
        result ≡ (listed s env (tested_view tested.now d cs)).over }
{
    match tested {
        Tested::Untested => false,
        Tested::Skipped => true,
        Tested::Took(_, body) => over(body),
    }
}

/// Whether an arm has been closed.
fn arms_over(gate: &Gate) -> bool
    ensures { (s : model.Store) (env : Received) (ds : List ℕ) (cs : model_code.Codes) →
        result ≡ (listed s env (gate_view gate.now ds cs)).over }
{
    match gate {
        Gate::Unopened => false,
        Gate::Opened(_, _, over, _) => *over,
    }
}

/// Whether all children of a sequence are finished.
#[cycle(over)]
fn sequence_over(begun: &[Proc], row: &Row) -> bool
    ensures { (s : model.Store) (env : Received) →
        result ≡ (listed s env (model_proc.sequence (begun_of (map proc_view begun.now) (row_view row.now)))).over }
{
    let mut number = first_at_work(begun, row);
    'children: while number < row.codes.len() {
        if !child_over(begun, row, number) {
            return false;
        }
        number += 1;
    }
    true
}

/// Whether a sequence has a child of this number, and it is finished.
#[cycle(over)]
fn child_over(begun: &[Proc], row: &Row, child: usize) -> bool
    ensures over { result ≡ true → HasOver (begun_of (map proc_view begun.now) (row_view row.now)) child }
    ensures open_ { result ≡ false → HasNoneOver (begun_of (map proc_view begun.now) (row_view row.now)) child }
{
    if child < begun.len().min(row.codes.len()) {
        return over(&begun[child]);
    }
    command_over(row.codes.as_slice(), child)
}

/// Whether all of the processes are finished.
#[cycle(over)]
fn all_over(procs: &[Proc]) -> bool
    ensures { AllOver result (procs_of (map proc_view procs.now)) }
{
    for child in procs {
        if !over(child) {
            return false;
        }
    }
    true
}

/// Whether the command has nothing to do.
#[cycle(starts_over)]
pub fn starts_over(code: &Code) -> bool
    ensures { (s : model.Store) (env : Received) → result ≡ (listed s env (started (code_view code.now))).over }
{
    match code {
        Code::Continue => true,
        Code::InTurn(row) => all_start_over(row.get().codes.as_slice()),
        Code::SideBySide(row) => all_start_over(row.get().codes.as_slice()),
        _ => false,
    }
}

/// Whether none of the commands has anything to do.
#[cycle(starts_over)]
fn all_start_over(codes: &[Code]) -> bool
    ensures { AllOver result (all_started (row_of (map code_view codes.now))) }
{
    for code in codes {
        if !starts_over(code) {
            return false;
        }
    }
    true
}

/// Whether there is a command of this number, and it has nothing to do.
fn command_over(codes: &[Code], number: usize) -> bool
    ensures over { result ≡ true → HasOver (all_started (row_of (map code_view codes.now))) number }
    ensures open_ { result ≡ false → HasNoneOver (all_started (row_of (map code_view codes.now))) number }
{
    if number < codes.len() {
        return starts_over(&codes[number]);
    }
    false
}

/// Whether the work of a sequence has come to the child of this number, or gone past it.
pub(crate) fn is_reached(begun: &[Proc], row: &Row, child: usize) -> bool
    ensures { IsReached result child (begun_of (map proc_view begun.now) (row_view row.now)) }
{
    let mut number = first_at_work(begun, row);
    if child < number {
        return false;
    }
    'children: while number < child {
        if !child_over(begun, row, number) {
            return false;
        }
        number += 1;
    }
    true
}

/// Whether there are so many commands and more, and the first of them have nothing to do.
pub(crate) fn first_start_over(codes: &[Code], count: usize) -> bool
    ensures { IsReached result count (all_started (row_of (map code_view codes.now))) }
{
    let mut number = 0;
    'children: while number < count {
        if !command_over(codes, number) {
            return false;
        }
        number += 1;
    }
    true
}
