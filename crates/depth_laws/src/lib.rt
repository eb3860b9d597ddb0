//! The laws of what is drawn of a run, by rows and columns: each depth is the length of the longest chain of causes,
//! each lane is a chain, and runs that differ only in the order of independent steps have the same depths, followers,
//! races, lines and ready events. The functions do nothing, their contracts say it.
#![tactic(auto)]

ghost use Rattle.depth_laws.specs.Laws.{DepthIsLongest, DepthIsLongestOfCauses, DepthsAgree, FollowersAgree, LanesAreChains, LinesAgree, RacesAgree, ReadyAgree};

/// The depth of an event is the length of the longest chain that leads to it, in which each event is followed by the
/// next.
pub fn depth_is_longest()
    ensures { DepthIsLongest }
{}

/// It is that of the longest chain of causes, too, on each of which the next depends directly: none is longer, and
/// one is as long.
pub fn depth_is_longest_of_causes()
    ensures { DepthIsLongestOfCauses }
{}

/// In two runs that differ only in the order of independent steps the same events follow one another.
pub fn followers_agree()
    ensures { FollowersAgree }
{}

/// In two such runs an event has one depth.
pub fn depths_agree()
    ensures { DepthsAgree }
{}

/// In two such runs a variable alone makes the same orders.
pub fn races_agree()
    ensures { RacesAgree }
{}

/// Of two events of a run that stand in one lane the later depends on the earlier, so each lane is a chain.
pub fn lanes_are_chains()
    ensures { LanesAreChains }
{}

/// In two runs that differ only in the order of independent steps a place has one line.
pub fn lines_agree()
    ensures { LinesAgree }
{}

/// In two such runs the same events can be taken next, in the same order.
pub fn ready_agree()
    ensures { ReadyAgree }
{}
