// The parts of a command as it is written.
ghost use Rattle.std.specs.Prelude.{◌≡◌, ◌∷◌, []};
ghost use Rattle.std.specs.Option.{option_copied};
ghost use Rattle.picture_lanes.specs.Written as model;

use types::{Action, Command};

/// The part of the command that has this number, from 0: the body of a loop or an input, an arm's body, or a child.
pub(crate) fn part(written: &Command, number: usize) -> Option<&Command>
    ensures { option_copied result ≡ model.part written.now number }
{
    match written.action.get() {
        Action::Loop(body) | Action::While(_, body) | Action::Input(_, body) => {
            only(body, number)
        }
        Action::If(arms, _) => match arms.get(number) {
            Some(arm) => Some(&arm.body),
            None => None,
        },
        Action::Case(_, arms, _) => match arms.get(number) {
            Some(arm) => Some(&arm.body),
            None => None,
        },
        Action::Select(arms) | Action::Arbitrate(arms) => match arms.get(number) {
            Some(arm) => Some(&arm.body),
            None => None,
        },
        Action::Sequence(children) | Action::Parallel(children) => children.get(number),
        _ => None,
    }
}

/// The one part, which has the number 0.
fn only(body: &Command, number: usize) -> Option<&Command>
    ensures { option_copied result ≡ model.only body.now number }
{
    if number == 0 { Some(body) } else { None }
}

/// What stands behind an `else` of the command, if there is one.
pub(crate) fn last_part(written: &Command) -> Option<&Command>
    ensures { option_copied result ≡ model.last_part written.now }
{
    match written.action.get() {
        Action::If(_, Some(last)) | Action::Case(_, _, Some(last)) => Some(last),
        _ => None,
    }
}
