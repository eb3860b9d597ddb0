// How many calls stand in a command.
ghost use Rattle.std.specs.Prelude.{◌≡◌, map};
ghost use Rattle.std.specs.Option.{option_map};
ghost use Rattle.source_calls.specs.Counts as model;
ghost use Rattle.source_calls.specs.internal.Parts as parts;

use types::{Action, Arm, Command, Guarded, Labelled};

/// How many calls stand in the command; at most the largest number of 64 bits.
#[cycle(calls)]
pub(crate) fn calls_in(command: &Command) -> usize
    ensures { result ≡ model.calls_in command.now }
{
    match command.action.get() {
        Action::Call(_, _) => 1,
        Action::Loop(body) | Action::While(_, body) | Action::Input(_, body) => calls_in(body),
        Action::If(arms, last) => {
            calls_in_guarded(arms.as_slice()).saturating_add(calls_in_last(last))
        }
        Action::Case(_, arms, last) => {
            calls_in_labelled(arms.as_slice()).saturating_add(calls_in_last(last))
        }
        Action::Select(arms) | Action::Arbitrate(arms) => calls_in_arms(arms.as_slice()),
        Action::Sequence(children) | Action::Parallel(children) => {
            calls_in_all(children.as_slice())
        }
        Action::Continue
        | Action::Halt
        | Action::Assign(_, _, _)
        | Action::Send(_, _, _)
        | Action::Receive(_, _)
        | Action::Sync(_) => 0,
    }
}

/// How many stand in these commands.
#[cycle(calls)]
pub(crate) fn calls_in_all(commands: &[Command]) -> usize
    ensures { result ≡ model.with_all 0 (map model.calls_in commands.now) }
{
    let mut count = 0usize;
    for command in commands {
        count = count.saturating_add(calls_in(command));
    }
    count
}

/// How many stand in the arms of an `if`.
#[cycle(calls)]
pub(crate) fn calls_in_guarded(arms: &[Guarded]) -> usize
    ensures { result ≡ model.with_all 0 (map parts.calls_in_guarded arms.now) }
{
    let mut count = 0usize;
    for arm in arms {
        count = count.saturating_add(calls_in(&arm.body));
    }
    count
}

/// How many stand in the arms of a `case`.
#[cycle(calls)]
pub(crate) fn calls_in_labelled(arms: &[Labelled]) -> usize
    ensures { result ≡ model.with_all 0 (map parts.calls_in_labelled arms.now) }
{
    let mut count = 0usize;
    for arm in arms {
        count = count.saturating_add(calls_in(&arm.body));
    }
    count
}

/// How many stand in the arms of a `select` or an `arbitrate`.
#[cycle(calls)]
pub(crate) fn calls_in_arms(arms: &[Arm]) -> usize
    ensures { result ≡ model.with_all 0 (map parts.calls_in_arm arms.now) }
{
    let mut count = 0usize;
    for arm in arms {
        count = count.saturating_add(calls_in(&arm.body));
    }
    count
}

/// How many stand behind an `else`.
#[cycle(calls)]
fn calls_in_last(last: &Option<Command>) -> usize
    ensures { result ≡ model.of_last (option_map model.calls_in last.now) }
{
    match last {
        Some(body) => calls_in(body),
        None => 0,
    }
}
