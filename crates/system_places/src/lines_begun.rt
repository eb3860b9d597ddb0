// The lines on which commands begin.
ghost use Rattle.std.specs.Prelude.{◌≡◌, false, map};
ghost use Rattle.std.specs.Option.{option_map};
ghost use Rattle.system_places.specs.LinesBegun as model;
ghost use Rattle.system_places.specs.internal.Parts as parts;

use system::{Action, Arm, Command, Guarded, Labelled, System};

/// Whether the command, or one within it, has the line.
#[cycle(begun)]
fn begins(command: &Command, line: u64) -> bool
    ensures { result ≡ model.begins line command.now }
{
    if command.line == line {
        return true;
    }
    match command.action.get() {
        Action::Continue
        | Action::Halt
        | Action::Assign(_, _, _)
        | Action::Send(_, _, _)
        | Action::Receive(_, _)
        | Action::Sync(_) => false,
        Action::Loop(body) | Action::While(_, body) | Action::Input(_, body) => begins(body, line),
        Action::If(arms, last) => guarded_begin(arms.as_slice(), line) || last_begins(last, line),
        Action::Case(_, arms, last) => {
            labelled_begin(arms.as_slice(), line) || last_begins(last, line)
        }
        Action::Select(arms) | Action::Arbitrate(arms) => arms_begin(arms.as_slice(), line),
        Action::Sequence(children) | Action::Parallel(children) => {
            commands_begin(children.as_slice(), line)
        }
    }
}

/// Whether one of the commands has the line.
#[cycle(begun)]
fn commands_begin(commands: &[Command], line: u64) -> bool
    ensures { result ≡ model.any_onto false (map (model.begins line) commands.now) }
{
    let mut found = false;
    for command in commands {
        found = found || begins(command, line);
    }
    found
}

/// Whether an arm of an `if` has the line.
#[cycle(begun)]
fn guarded_begin(arms: &[Guarded], line: u64) -> bool
    ensures { result ≡ model.any_onto false (map (parts.guarded_begins line) arms.now) }
{
    let mut found = false;
    for arm in arms {
        found = found || begins(&arm.body, line);
    }
    found
}

/// Whether an arm of a `case` has the line.
#[cycle(begun)]
fn labelled_begin(arms: &[Labelled], line: u64) -> bool
    ensures { result ≡ model.any_onto false (map (parts.labelled_begins line) arms.now) }
{
    let mut found = false;
    for arm in arms {
        found = found || begins(&arm.body, line);
    }
    found
}

/// Whether an arm of a `select` or an `arbitrate` has the line.
#[cycle(begun)]
fn arms_begin(arms: &[Arm], line: u64) -> bool
    ensures { result ≡ model.any_onto false (map (parts.arm_begins line) arms.now) }
{
    let mut found = false;
    for arm in arms {
        found = found || begins(&arm.body, line);
    }
    found
}

/// Whether what stands behind an `else` has the line.
#[cycle(begun)]
fn last_begins(last: &Option<Command>, line: u64) -> bool
    ensures { result ≡ model.last_of (option_map (model.begins line) last.now) }
{
    match last {
        Some(body) => begins(body, line),
        None => false,
    }
}

/// Whether a command of the system begins on this line, counted from 1.
pub fn begins_on(system: &System, line: u64) -> bool
    ensures { result ≡ model.begins line system.now.main }
{
    begins(&system.main, line)
}
