// The step down to a part of a process.
ghost use Rattle.std.specs.Prelude.{◌≡◌, map, Option, option_map, ℕ, List};
ghost use Rattle.address.specs.declared.Entry.TheVariants.{Ordered, Branch};
ghost use Rattle.process_tree.specs.Code as model_code;
ghost use Rattle.process_tree.specs.Proc.{sequence, parallel};
ghost use Rattle.process_tree.specs.View.{proc_view, row_view, begun_of, procs_of};
ghost use Rattle.process_tree.specs.internal.Lending.{IsLent};
ghost use Rattle.process_tree.specs.internal.Parts.{turns_view, tested_view, gate_view};
ghost use Rattle.system.specs.Expression.{Expression, Decision};

use crate::code::Row;
use crate::proc::{Gate, Proc, Tested, Turns};
use address::Entry;

/// Lends the child of the process at this entry, if it is there and has a node.
pub(crate) fn child_mut(proc: &mut Proc, entry: Entry) -> Option<&mut Proc>
    ensures { IsLent entry (proc_view proc.old) (option_map (λ part. proc_view part.now) result) }
{
    match entry {
        Entry::Ordered(number) => ordered_mut(proc, number),
        Entry::Branch(number) => match proc {
            Proc::Parallel(procs) => branch_mut(procs, number),
            _ => None,
        },
    }
}

fn ordered_mut(proc: &mut Proc, number: u32) -> Option<&mut Proc>
    ensures { IsLent (Ordered number) (proc_view proc.old) (option_map (λ part. proc_view part.now) result) }
{
    match proc {
        Proc::Idle | Proc::Stopped | Proc::Once(..) | Proc::Sender(..) => None,
        Proc::Loop(_, turns) => body_mut(turns, number),
        Proc::Test(_, tested) => taken_mut(tested, number),
        Proc::Arms(_, gate) => opened_mut(gate, number),
        Proc::Sequence(row, begun) => begun_mut(row.get(), begun, number),
        Proc::Parallel(_) | Proc::Drained(..) => None,
    }
}

/// The body of the turn that the loop is in or behind.
fn body_mut(turns: &mut Turns, number: u32) -> Option<&mut Proc>
    ensures { (g : Option Expression) (c : model_code.Code) →
        IsLent (Ordered number) (turns_view turns.old g c) (option_map (λ part. proc_view part.now) result) }
{
    match turns {
        Turns::Fresh | Turns::EndedAtOnce => None,
        Turns::Turn(turn, _, body) => {
            if number % 2 == 1 && u64::from(number / 2) == *turn {
                return Some(&mut **body);
            }
            None
        }
    }
}

/// The arm that a test took.
fn taken_mut(tested: &mut Tested, number: u32) -> Option<&mut Proc>
    ensures { (d : Decision) (cs : model_code.Codes) →
        IsLent (Ordered number) (tested_view tested.old d cs) (option_map (λ part. proc_view part.now) result) }
{
    match tested {
        Tested::Untested | Tested::Skipped => None,
        Tested::Took(_, body) => {
            if number == 1 {
                return Some(&mut **body);
            }
            None
        }
    }
}

/// The arm that opened.
fn opened_mut(gate: &mut Gate, number: u32) -> Option<&mut Proc>
    ensures { (ds : List ℕ) (cs : model_code.Codes) →
        IsLent (Ordered number) (gate_view gate.old ds cs) (option_map (λ part. proc_view part.now) result) }
{
    match gate {
        Gate::Unopened => None,
        Gate::Opened(_, _, _, body) => {
            if number == 1 {
                return Some(&mut **body);
            }
            None
        }
    }
}

/// The child of a sequence that has begun.
fn begun_mut<'p>(row: &Row, begun: &'p mut Vec<Proc>, number: u32) -> Option<&'p mut Proc>
    ensures { IsLent (Ordered number) (sequence (begun_of (map proc_view begun.old.items) (row_view row.now)))
        (option_map (λ part. proc_view part.now) result) }
{
    if number as usize >= row.codes.len() {
        return None;
    }
    begun.get_mut(number as usize)
}

/// The branch of a parallel.
fn branch_mut(procs: &mut Vec<Proc>, number: u32) -> Option<&mut Proc>
    ensures { IsLent (Branch number) (parallel (procs_of (map proc_view procs.old.items)))
        (option_map (λ part. proc_view part.now) result) }
{
    procs.get_mut(number as usize)
}
