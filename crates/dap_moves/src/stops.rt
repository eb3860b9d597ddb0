// The lines on which a command stands that can be an action of an event.
ghost use Rattle.std.specs.Prelude.{◌≡◌, false, map};
ghost use Rattle.std.specs.Option.{option_map};
ghost use Rattle.system_places.specs.LinesBegun.{any_onto, last_of};
ghost use Rattle.dap_moves.specs.Stops as model;
ghost use Rattle.dap_moves.specs.internal.StopParts as parts;

use system::{Action, Arm, Command, Guarded, Labelled, System};

/// The first such line, of those from `from` on and before `below`.
pub fn first_stop(system: &System, from: u64, below: u64) -> Option<u64>
    ensures { model.FirstStop system.now.main from below result }
{
    for line in from..below {
        if stops(&system.main, line) {
            return Some(line);
        }
    }
    None
}

/// Whether a command that has the line, or one within it, can be an action of an event.
#[cycle(stop)]
fn stops(command: &Command, line: u64) -> bool
    ensures { result ≡ model.stops line command.now }
{
    let here = command.line == line;
    match command.action.get() {
        Action::Continue | Action::Halt => false,
        Action::Assign(_, _, _) | Action::Send(_, _, _) | Action::Receive(_, _) | Action::Sync(_) =>
            here,
        Action::Loop(body) | Action::While(_, body) | Action::Input(_, body) => {
            here || stops(body, line)
        }
        Action::If(arms, last) => {
            here || (guarded_stop(arms.as_slice(), line) || last_stops(last, line))
        }
        Action::Case(_, arms, last) => {
            here || (labelled_stop(arms.as_slice(), line) || last_stops(last, line))
        }
        Action::Select(arms) | Action::Arbitrate(arms) => here || arms_stop(arms.as_slice(), line),
        Action::Sequence(children) | Action::Parallel(children) => {
            commands_stop(children.as_slice(), line)
        }
    }
}

/// Whether one of the commands does.
#[cycle(stop)]
fn commands_stop(commands: &[Command], line: u64) -> bool
    ensures { result ≡ any_onto false (map (model.stops line) commands.now) }
{
    let mut found = false;
    for command in commands {
        found = found || stops(command, line);
    }
    found
}

/// Whether an arm of an `if` does.
#[cycle(stop)]
fn guarded_stop(arms: &[Guarded], line: u64) -> bool
    ensures { result ≡ any_onto false (map (parts.guarded_stops line) arms.now) }
{
    let mut found = false;
    for arm in arms {
        found = found || stops(&arm.body, line);
    }
    found
}

/// Whether an arm of a `case` does.
#[cycle(stop)]
fn labelled_stop(arms: &[Labelled], line: u64) -> bool
    ensures { result ≡ any_onto false (map (parts.labelled_stops line) arms.now) }
{
    let mut found = false;
    for arm in arms {
        found = found || stops(&arm.body, line);
    }
    found
}

/// Whether an arm of a `select` or an `arbitrate` does.
#[cycle(stop)]
fn arms_stop(arms: &[Arm], line: u64) -> bool
    ensures { result ≡ any_onto false (map (parts.arm_stops line) arms.now) }
{
    let mut found = false;
    for arm in arms {
        found = found || stops(&arm.body, line);
    }
    found
}

/// Whether what stands behind an `else` does.
#[cycle(stop)]
fn last_stops(last: &Option<Command>, line: u64) -> bool
    ensures { result ≡ last_of (option_map (model.stops line) last.now) }
{
    match last {
        Some(body) => stops(body, line),
        None => false,
    }
}
