// Whether a process has made a move, and where a sequence is at work.
ghost use Rattle.std.specs.Prelude.{◌≡◌, ℕ, List, Option, map, MatchOption};
ghost use Rattle.system.specs.Expression as model;
ghost use Rattle.process_tree.specs.Code as model_code;
ghost use Rattle.process_tree.specs.Tidy.{is_begun, has_moved, any_moved, last_moved};
ghost use Rattle.process_tree.specs.View.{phase_view, proc_view, procs_of, begun_of, row_view};
ghost use Rattle.process_tree.specs.internal.Parts.{turns_view, tested_view, gate_view};
ghost use Rattle.std.specs.Option.{is_some};

use process_tree::{Gate, Phase, Proc, Row, Tested, Turns};

/// Whether the process has made a move.
#[cycle(has_moved)]
fn has_moved(proc: &Proc) -> bool
    ensures { result ≡ has_moved (proc_view proc.now) }
{
    match proc {
        Proc::Idle | Proc::Stopped => false,
        Proc::Once(_, made) => *made,
        Proc::Sender(_, phase) => is_begun(*phase),
        Proc::Loop(_, turns) => loop_moved(turns),
        Proc::Test(_, tested) => test_moved(tested),
        Proc::Arms(_, gate) => arms_moved(gate),
        Proc::Sequence(row, begun) => last_moved(begun.as_slice(), row.get()).is_some(),
        Proc::Parallel(procs) => any_moved(procs.as_slice()),
        Proc::Drained(_, count) => *count > 0,
    }
}

/// Whether a send or sync has made a move.
fn is_begun(phase: Phase) -> bool
    ensures { result ≡ is_begun (phase_view phase) }
{
    match phase {
        Phase::Waiting => false,
        Phase::Holding | Phase::Past => true,
    }
}

/// Whether a loop has made a move.
fn loop_moved(turns: &Turns) -> bool
    ensures { (g : Option model.Expression) (c : model_code.Code) → result ≡ has_moved (turns_view turns.now g c) }
{
    match turns {
        Turns::Fresh => false,
        Turns::EndedAtOnce | Turns::Turn(_, _, _) => true,
    }
}

/// Whether an `if` or `case` has made a move.
fn test_moved(tested: &Tested) -> bool
    ensures { (d : model.Decision) (cs : model_code.Codes) → result ≡ has_moved (tested_view tested.now d cs) }
{
    match tested {
        Tested::Untested => false,
        Tested::Skipped | Tested::Took(_, _) => true,
    }
}

/// Whether arms that wait have made a move.
fn arms_moved(gate: &Gate) -> bool
    ensures { (ds : List ℕ) (cs : model_code.Codes) → result ≡ has_moved (gate_view gate.now ds cs) }
{
    match gate {
        Gate::Unopened => false,
        Gate::Opened(_, _, _, _) => true,
    }
}

/// Whether one of the processes has made a move.
#[cycle(has_moved)]
fn any_moved(procs: &[Proc]) -> bool
    ensures { result ≡ any_moved (procs_of (map proc_view procs.now)) }
{
    for child in procs {
        if has_moved(child) {
            return true;
        }
    }
    false
}

/// The number of the last child of a sequence that has made a move. It looks from the last on.
#[cycle(has_moved)]
fn last_moved(begun: &[Proc], row: &Row) -> Option<usize>
    ensures any { is_some result ≡ any_moved (begun_of (map proc_view begun.now) (row_view row.now)) }
    ensures last { MatchOption result (last_moved (begun_of (map proc_view begun.now) (row_view row.now)) ≡ 0)
        (λ number. last_moved (begun_of (map proc_view begun.now) (row_view row.now)) ≡ number) }
{
    let mut number = begun.len().min(row.codes.len());
    'children: while number > 0 {
        if has_moved(&begun[number - 1]) {
            return Some(number - 1);
        }
        number -= 1;
    }
    None
}

/// The number of the child from which on a sequence is at work: all before it are finished, where behind the first that
/// is not finished none has made a move.
pub fn first_at_work(begun: &[Proc], row: &Row) -> usize
    ensures { result ≡ last_moved (begun_of (map proc_view begun.now) (row_view row.now)) }
{
    match last_moved(begun, row) {
        Some(number) => number,
        None => 0,
    }
}
