// Whether a run goes on, is done or is stuck.
ghost use Rattle.std.specs.Prelude.{◌≡◌, [], map};
ghost use Rattle.process_tree.specs.Remaining.{remaining};
ghost use Rattle.process_tree.specs.Tidy.{Tidy, TidySideBySide};
ghost use Rattle.process_tree.specs.View.{proc_view, procs_of, tree_view};
ghost use Rattle.waiting.specs.Progress.{body_is_over, is_held, is_idle, is_in_body, is_outlet};
ghost use Rattle.waiting.specs.internal.Among.{progress_of};
ghost use Rattle.waiting.specs.internal.Body.{first_finished};

use address::{Address, Entry};
use local_actions::{ActionKind, LocalAction, is_over};
use process_tree::{Proc, Tree};
use runs::Event;

/// How a run stands.
#[derive(Clone, Copy)]
pub enum Progress {
    /// some event is allowed
    GoesOn,
    /// no event is allowed, and nothing of the body is left: at most the environment waits at its ports
    Done,
    /// no event is allowed, and the body is not over
    Stuck,
}

/// How a run stands whose tree this is, where these events are allowed.
pub(crate) fn progress_of(tree: &Tree, events: &[Event]) -> Progress
    ensures { Tidy (tree_view tree.now) →
        result ≡ progress_of (body_is_over (remaining [] (tree_view tree.now))) events.now }
{
    if !events.is_empty() {
        Progress::GoesOn
    } else if body_is_over(tree) {
        Progress::Done
    } else {
        Progress::Stuck
    }
}

/// Whether nothing of the body is left, which is the first branch of the whole.
fn body_is_over(tree: &Tree) -> bool
    ensures { Tidy (tree_view tree.now) → result ≡ body_is_over (remaining [] (tree_view tree.now)) }
{
    match tree.root() {
        Proc::Parallel(branches) => is_first_over(branches.as_slice()),
        whole => is_over(whole),
    }
}

/// Whether the first of the branches is over, if there is one.
fn is_first_over(branches: &[Proc]) -> bool
    ensures { TidySideBySide (procs_of (map proc_view branches.now)) →
        result ≡ first_finished (procs_of (map proc_view branches.now)) }
{
    match branches {
        [body, ..] => is_over(body),
        [] => true,
    }
}

/// Whether the environment offers the action, and the body does not hold it.
pub(crate) fn is_idle(offered: &LocalAction) -> bool
    ensures { result ≡ is_idle offered.now }
{
    !(is_in_body(&offered.place) || is_held(&offered.action))
}

/// Whether the place lies in the body, which is branch 0 of the whole.
pub(crate) fn is_in_body(place: &Address) -> bool
    ensures { result ≡ is_in_body place.now }
{
    match place.entries() {
        [Entry::Branch(number), ..] => *number == 0,
        _ => false,
    }
}

/// Whether the action is that of a sender whose partner has opened, and not yet closed.
fn is_held(action: &ActionKind) -> bool
    ensures { result ≡ is_held action.now }
{
    match action {
        ActionKind::Releases(_) => true,
        _ => false,
    }
}

/// Whether the action is the environment's at an output port, which receives into no variable.
pub(crate) fn is_outlet(action: &ActionKind) -> bool
    ensures { result ≡ is_outlet action.now }
{
    match action {
        ActionKind::Receives(_, None) => true,
        _ => false,
    }
}
