// The laws of followers, of a new event and of the arms that were taken, each the contract of a function that does
// nothing.
ghost use Rattle.dependence.specs.Laws.{LeastIsFollower, ReachedThroughFollowers, NoNewFollower, LastComesBehind};
ghost use Rattle.dependence.specs.ArmLaws.{NoneTaken, TakenByTheEvent};

/// The least of the events that depend on an event is a follower of it, that is an immediate successor in the causal
/// order.
pub fn least_is_follower()
    ensures { LeastIsFollower }
{}

/// What depends on an event is reached from it by going from event to follower: the causal order is the closure of
/// its covering relation.
pub fn reached_through_followers()
    ensures { ReachedThroughFollowers }
{}

/// Taking out an event on which none depends makes no new follower, and takes no other one away.
pub fn no_new_follower()
    ensures { NoNewFollower }
{}

/// The last of some events that run in a system that keeps the rule on sharing comes behind the others.
pub fn last_comes_behind()
    ensures { LastComesBehind }
{}

/// The arm that a choice took is that of the one event of a run that acts there, and none where there is no such event.
pub fn arms_are_taken_once()
    ensures event { TakenByTheEvent }
    ensures none { NoneTaken }
{
    runs::acting_once();
}
