// Who waits for whom.
ghost use Rattle.std.specs.Prelude.{◌≡◌, slice_get};
ghost use Rattle.std.specs.Option.{option_copied};
ghost use Rattle.runs.specs.Tests.{same_place};
ghost use Rattle.rings.specs.internal.Loosened.{is_marked};
ghost use Rattle.rings.specs.internal.Search as model;

use crate::partner::Partner;
use address::Address;
use local_actions::LocalAction;

/// Whether the action of this index is marked, and its partner comes once something has gone on: else it waits for
/// none.
pub(crate) fn may_wait(partners: &[Partner], marks: &[bool], index: usize) -> bool
    ensures { result ≡ model.may_wait partners.now marks.now index }
{
    is_marked(marks, index) && comes_behind(partners.get(index))
}

/// Whether there is a partner, and something has to go on before it comes.
fn comes_behind(partner: Option<&Partner>) -> bool
    ensures { result ≡ model.comes_behind (option_copied partner.entry) }
{
    match partner {
        Some(Partner::Behind(_)) => true,
        Some(Partner::Gone) | Some(Partner::Open) | None => false,
    }
}

/// Whether the mark of this index is there, and set.
pub(crate) fn is_marked(marks: &[bool], index: usize) -> bool
    ensures { result ≡ is_marked (slice_get marks.now index) }
{
    match marks.get(index) {
        Some(mark) => *mark,
        None => false,
    }
}

/// Whether the actions of these indexes stand at one place.
pub(crate) fn is_at_one(actions: &[LocalAction], one: usize, other: usize) -> bool
    ensures { result ≡ model.same_at actions.now one other }
{
    are_at_one(actions.get(one), actions.get(other))
}

/// Whether both sides are there, and stand at one place.
fn are_at_one(one: Option<&LocalAction>, other: Option<&LocalAction>) -> bool
    ensures { result ≡ model.same_places (option_copied one.entry) (option_copied other.entry) }
{
    match (one, other) {
        (Some(one), Some(other)) => is_same(&one.place, &other.place),
        _ => false,
    }
}

/// Whether both places are one.
fn is_same(place: &Address, other: &Address) -> bool
    ensures { result ≡ same_place place.now other.now }
{
    place.equals(other)
}
