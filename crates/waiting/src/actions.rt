// The actions that no allowed event has.
ghost use Rattle.std.specs.Prelude.{◌≡◌};
ghost use Rattle.waiting.specs.internal.Among.{left_by};
ghost use Rattle.waiting.specs.internal.Held.{is_there};

use crate::places::Places;
use local_actions::LocalAction;
use syntax::Items;

/// Those of the actions whose place is none of these.
pub(crate) fn left_over(actions: Items<LocalAction>, places: &Places) -> Items<LocalAction>
    ensures { result ≡ left_by (is_there places.now) actions }
{
    let mut actions = actions.into_vec();
    actions.retain(|action| !places.has(&action.place));
    Items::from_vec(actions)
}
