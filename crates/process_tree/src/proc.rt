ghost use Rattle.std.specs.Prelude.{◌≡◌, map, IfOk};
ghost use Rattle.process_tree.specs.Proc.{started};
ghost use Rattle.process_tree.specs.View.{code_view, proc_view};

use crate::code::{Await, Code, Decide, Once, Repeat, Row, Sender};
use std::alloc::{AllocError, Global};
use syntax::Shared;
use value::Value;

/// How far a send or sync is.
#[derive(Clone, Copy)]
pub enum Phase {
    Waiting,
    /// from the open that took it until the close
    Holding,
    Past,
}

/// A command with what it has done.
#[cycle(proc)]
#[derive(Drop)]
pub enum Proc {
    Idle,
    Stopped,
    /// whether it has made its move
    Once(Shared<Once>, bool),
    Sender(Shared<Sender>, Phase),
    Loop(Shared<Repeat>, Turns),
    Test(Shared<Decide>, Tested),
    /// arms that wait on their channels
    Arms(Shared<Await>, Gate),
    /// all children, and those that have begun
    Sequence(Shared<Row>, Vec<Proc>),
    Parallel(Vec<Proc>),
    /// the receives on an output port, after so many
    Drained(u32, u64),
}

/// How far a loop is.
#[cycle(proc)]
#[derive(Drop)]
pub enum Turns {
    /// before its first turn
    Fresh,
    /// its first test ended it
    EndedAtOnce,
    /// in this turn or behind it, whether a test ended it there, and the body of that turn
    Turn(u64, bool, Box<Proc>),
}

/// How far an `if` or `case` is.
#[cycle(proc)]
#[derive(Drop)]
pub enum Tested {
    Untested,
    /// it took no arm
    Skipped,
    /// it took this arm
    Took(u32, Box<Proc>),
}

/// How far arms are that wait on their channels.
#[cycle(proc)]
#[derive(Drop)]
pub enum Gate {
    Unopened,
    /// One opened on this channel, with what was received if anything; whether it has been closed; and the arm.
    Opened(u32, Option<Value>, bool, Box<Proc>),
}

/// The command before its first move. It takes memory for what begins: the branches of a parallel begin at once, the
/// children of a sequence, the turns of a loop and the arms later.
#[cycle(start)]
pub fn start(alloc: Global, code: &Code) -> Result<Proc, AllocError>
    ensures { IfOk result (λ made. proc_view made ≡ started (code_view code.now)) }
{
    match code {
        Code::Continue => Ok(Proc::Idle),
        Code::Halt => Ok(Proc::Stopped),
        Code::Once(once) => Ok(Proc::Once(once.clone()?, false)),
        Code::Sender(sender) => Ok(Proc::Sender(sender.clone()?, Phase::Waiting)),
        Code::Repeat(repeat) => Ok(Proc::Loop(repeat.clone()?, Turns::Fresh)),
        Code::Decide(decide) => Ok(Proc::Test(decide.clone()?, Tested::Untested)),
        Code::Await(waiting) => Ok(Proc::Arms(waiting.clone()?, Gate::Unopened)),
        Code::InTurn(row) => Ok(Proc::Sequence(row.clone()?, Vec::new(alloc))),
        Code::SideBySide(row) => {
            let procs = start_all(alloc, row.get().codes.as_slice())?;
            Ok(Proc::Parallel(procs))
        }
        Code::Drain(channel) => Ok(Proc::Drained(*channel, 0)),
    }
}

/// Each of the commands before its first move.
#[cycle(start)]
fn start_all(alloc: Global, codes: &[Code]) -> Result<Vec<Proc>, AllocError>
    ensures { IfOk result (λ made. map proc_view made.items ≡ map (λ c. started (code_view c)) codes.now) }
{
    let mut procs = Vec::with_capacity(alloc, codes.len())?;
    for code in codes {
        procs.push(start(alloc, code)?)?;
    }
    Ok(procs)
}
