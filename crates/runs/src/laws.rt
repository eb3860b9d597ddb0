// The laws of runs, each the contract of a function that does nothing.
ghost use Rattle.runs.specs.Laws.{NeighboursSwap, RunsWithout, RunsWithoutConsequences, CausesAlone, RespectingOrdersRun, LeadsToOneState, EventsAreDistinct, ActingOnce, EarlierPlaces, RelatedAreOrdered, SameEventsRespect, OrdersDependAlike, RunsDependAlike, OpeningIsWellFormed, StatesAreWellFormed, OneChoice, ApartMovesMeet, ApartMovesWereOffered};
ghost use Rattle.runs.specs.internal.Agreement.{AllowedAreListed, AllowedWhereFormed, RunAsFunction};

/// Two neighbours of a run swap unless the second depends directly on the first. This is the square lemma of Danos
/// and Krivine (Reversible Communicating Systems, 2004).
pub fn neighbours_swap()
    ensures { NeighboursSwap }
{}

/// A list that runs still runs without an event on which nothing after it depends directly, and that event then leads
/// on to the same state: the half of the loop lemma (Danos and Krivine, 2004) that goes back and then forth.
pub fn runs_without()
    ensures { RunsWithout }
{}

/// A list that runs, runs without an event and all that depends on it: what a causal-consistent rollback (Giachino,
/// Lanese and Mezzina, 2014) leaves.
pub fn runs_without_consequences()
    ensures { RunsWithoutConsequences }
{}

/// An event on which nothing after it depends directly causes itself alone.
pub fn causes_alone()
    ensures { CausesAlone }
{}

/// Every respecting order of a list that runs, runs to the same state: causally equivalent runs, the linear
/// extensions of one causal order, are cofinal.
pub fn respecting_orders()
    ensures { RespectingOrdersRun }
{}

/// A list that runs, runs to one state.
pub fn one_state()
    ensures { LeadsToOneState }
{}

/// No two events of a run are equal.
pub fn events_are_distinct()
    ensures { EventsAreDistinct }
{}

/// No two events of a run have one acting address.
pub fn acting_once()
    ensures { ActingOnce }
{}

/// Of two events of a run, each address of the earlier is before each address of the later, or apart from it.
pub fn earlier_places()
    ensures { EarlierPlaces }
{}

/// Under the rule on sharing, of two events of a run on one channel, or on one variable that is not
/// shared and that one of them writes, the earlier has an address before an address of the later.
pub fn ordered()
    ensures { RelatedAreOrdered }
{}

/// Under the rule on sharing, two lists that run and have the same events, with any two that are on
/// one shared variable in the same order, are respecting orders of each other. This is causal consistency (Danos and
/// Krivine, 2004), said of events: runs with the same events are causally equivalent.
pub fn same_events()
    ensures { SameEventsRespect }
{}

/// The same events depend on an event in a list that runs and in its respecting orders, and so, under
/// the rule on sharing, in any two lists that run and have the same events, with any two that are on
/// one shared variable in the same order.
pub fn same_dependents()
    ensures orders { OrdersDependAlike }
    ensures runs { RunsDependAlike }
{}

/// What every system opens with is well formed, and so is every state of a run.
pub fn opening_is_well_formed()
    ensures opening { OpeningIsWellFormed }
    ensures states { StatesAreWellFormed }
{}

/// Under the rule on sharing, of the events allowed in one state of a run no two have one choice.
pub fn one_choice()
    ensures { OneChoice }
{}

/// An event is allowed in a state of a run, and in any whose residual is well formed, exactly where it
/// is in the list of allowed events.
pub fn allowed_are_listed()
    ensures run { AllowedAreListed }
    ensures formed { AllowedWhereFormed }
{}

/// Two moves that are offered at places apart can be made one after the other, in either order; and in a well-formed
/// residual, of two that are made so, the second was offered before the first. This is the square lemma for moves of
/// one residual.
pub fn apart_moves_meet()
    ensures made { ApartMovesMeet }
    ensures offered { ApartMovesWereOffered }
{}

/// The run as a function, by which `replay` is proved, is the run.
pub fn run_as_function()
    ensures { RunAsFunction }
{}
