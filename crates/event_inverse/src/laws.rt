// The laws of a tree with records, each the contract of a function that does nothing.
ghost use Rattle.event_inverse.specs.Laws.{TreesOpenAlike, StepsAreApplied, RecordsRevert, NeighboursKeepRecords, RunsHaveTrees, RunsAreTidy, OneMore, UndoneByRecords, OrdersHaveOneTree};

/// The tree of a system opens in its opening state; a step of the state is made by the tree, which then stands for
/// the state after it.
pub fn steps_are_applied()
    ensures opening { TreesOpenAlike }
    ensures step { StepsAreApplied }
{}

/// The record of an event takes it back: tree and store are as they were, finished processes included. This is the
/// loop lemma on the tree that is changed in place.
pub fn records_revert()
    ensures { RecordsRevert }
{}

/// Two events in turn can be made the other way round, to the same tree and with the same records, unless the
/// second depends directly on the first: the square lemma on that tree.
pub fn neighbours_keep_records()
    ensures { NeighboursKeepRecords }
{}

/// A list that runs has a tree and records that stand for it, and the tree stands for the state to which it runs; one
/// more event puts its record behind the others. In each sequence of such a tree none behind the first child that is
/// not finished has made a move.
pub fn runs_have_trees()
    ensures run { RunsHaveTrees }
    ensures tidy { RunsAreTidy }
    ensures more { OneMore }
{}

/// An event on which no later one depends directly is undone by its record, wherever it stands: the tree after it
/// stands, with the other records, for the run without it.
pub fn undone_by_records()
    ensures { UndoneByRecords }
{}

/// A respecting order of a run has the same tree and the same records.
pub fn orders_have_one_tree()
    ensures { OrdersHaveOneTree }
{}
