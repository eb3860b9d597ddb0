// Laws of the desk, each the contract of a function that does nothing.
ghost use Rattle.locked_execution.specs.Frames.{OnlyBreaksAndClears, OthersKeepTheirs, OthersKeepTheirsOverLists, BreakLeavesExecution, ClearLeavesExecution, RefusalLeavesAll, BreakSets, ClearClears};
ghost use Rattle.locked_execution.specs.GoingBack.{NoneTakeLess, RollTakesNoOthers, ConsequencesTellRoll, ValueFromBefore, AllAmountToBackAndForth};
ghost use Rattle.locked_execution.specs.Histories.{HistoryIsAnswered, HistoryKeepsHeadline};
ghost use Rattle.locked_execution.specs.Replies.{OneReply, SomeReply, BranchIsStep, AnsweredJoins, SessionsKeepSound, SessionsGrow};
ghost use Rattle.locked_execution.specs.Working.{LiveAreStepped};

/// Breakpoints change by the breaks and the clears of their session alone, as it asks, and these leave the execution.
/// A refusal leaves everything.
pub fn breakpoint_laws()
    ensures changes { OnlyBreaksAndClears }
    ensures others { OthersKeepTheirs }
    ensures lists { OthersKeepTheirsOverLists }
    ensures break_leaves { BreakLeavesExecution }
    ensures clear_leaves { ClearLeavesExecution }
    ensures refusal { RefusalLeavesAll }
    ensures sets { BreakSets }
    ensures clears { ClearClears }
{}

/// Each command of a session has exactly one reply, which determines the execution and all breakpoints after it. A step
/// in a branch is the step of the event that it took. Lists of commands that are answered one after the other are
/// answered as one, leave a sound execution sound, and use no ticket again.
pub fn reply_laws()
    ensures one { OneReply }
    ensures some { SomeReply }
    ensures branch { BranchIsStep }
    ensures joins { AnsweredJoins }
    ensures sound { SessionsKeepSound }
    ensures grows { SessionsGrow }
{}

/// What depends on an event goes with it, whatever sessions ask; a rollback takes that and no more, and the
/// consequences tell it beforehand. A variable that is rolled back has the value from before its last writer. Any
/// commands of sessions amount to undos and then steps, which is the parabolic lemma.
pub fn rollback_laws()
    ensures least { NoneTakeLess }
    ensures rolls { RollTakesNoOthers }
    ensures told { ConsequencesTellRoll }
    ensures value { ValueFromBefore }
    ensures amounts { AllAmountToBackAndForth }
{}

/// A legal history of a shared execution is answered, call by call, as a list of commands of sessions is. Where the
/// execution was sound before it, what holds after all commands holds after the history.
pub fn history_laws()
    ensures answered { HistoryIsAnswered }
    ensures headline { HistoryKeepsHeadline }
{}

/// As many events are live behind a crew as its turns were steps.
pub fn crew_laws()
    ensures live { LiveAreStepped }
{}
