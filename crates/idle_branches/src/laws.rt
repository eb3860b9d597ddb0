// The laws of branches that have no step, the contracts of functions that do nothing.
ghost use Rattle.idle_branches.specs.Idle.{GivesWhatIsKnown, StaysIdle};

/// A branch that has no step has none behind a step of others, where it acts on no channel whose other side is offered
/// behind that.
pub fn stays_idle()
    ensures { StaysIdle }
{}

/// What a branch offers behind a place, at the other side of a channel, is on a channel on which it gives.
pub fn gives_what_is_known()
    ensures { GivesWhatIsKnown }
{}
