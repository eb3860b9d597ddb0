// What an event asks the tree for.
ghost use Rattle.std.specs.Prelude.{◌≡◌};
ghost use Rattle.event_inverse.specs.internal.Moved as moved;

use runs::{Ask, Event, Kind};

/// What an event of a kind with one place asks for.
#[inline(always)]
pub(crate) fn ask_alone(event: &Event) -> Ask
    ensures { result ≡ moved.ask_alone event.now.kind event.now.arm }
{
    match event.kind {
        Kind::Assign => Ask::Assign,
        Kind::Test => Ask::Test(event.arm),
        _ => Ask::Turn,
    }
}

/// What an event of a kind with two places asks for at the first.
#[inline(always)]
pub(crate) fn ask_first(kind: Kind) -> Ask
    ensures { result ≡ moved.ask_first kind }
{
    match kind {
        Kind::Meet => Ask::Send,
        Kind::Open => Ask::Hold,
        Kind::Close => Ask::Release,
        _ => Ask::Sync,
    }
}

/// And at the second. An opening names an arm.
#[inline(always)]
pub(crate) fn ask_second(event: &Event) -> Ask
    ensures { result ≡ moved.ask_second event.now.kind event.now.arm event.now.value }
{
    match (event.kind, event.arm) {
        (Kind::Meet, _) => Ask::Receive,
        (Kind::Open, Some(arm)) => Ask::Open(arm, event.value),
        (Kind::Close, _) => Ask::Close,
        _ => Ask::Sync,
    }
}
