// The laws of one execution as an object, each a contract of a function that does nothing.
ghost use Rattle.std.specs.Prelude.{◌≡◌};
ghost use Rattle.runs.specs.declared.command.TheConstants.{MOST_LIVE_EVENTS, LAST_TICKET};
ghost use Rattle.runs.specs.Object.{Object, most_live, last_ticket};
ghost use Rattle.runs.specs.ObjectLaws.{OfSound, BeginsSound, StaysSound, StaysSoundOverLists, AnsweredJoins, StateInEveryOrder, StepsExactly, StepMakes, NotReadyExactly, LimitsExactly, StepThenUndo, UndoesExactly, UndoTakesOne, NeededExactly, RollsExactly, TicketsGrow, LeastRollback, BackThenForth, RolledValue, DependsOnIsCauses, OneReply, SomeReply, StateAfterAnyCommands, FirstIsChosen, RollsWhereLive, RollsValueWhereWritten, RollsValueExactly, ConsequencesExactly};

/// The limits that the definitions name are the constants.
pub fn limit_laws()
    ensures most_live { MOST_LIVE_EVENTS ≡ most_live }
    ensures last_ticket { LAST_TICKET ≡ last_ticket }
{}

/// What holds of an execution at its beginning holds after any commands.
pub fn soundness_laws()
    ensures begins { BeginsSound }
    ensures stays { StaysSound }
    ensures lists { StaysSoundOverLists }
    ensures joins { AnsweredJoins }
{}

/// The state is what the live events give in every order that respects dependence.
pub fn state_laws()
    ensures sound { StateInEveryOrder }
    ensures after { StateAfterAnyCommands }
{}

/// Where several events have one choice it means the first of them in the ready list. (In a system
/// that shares its channels as it should, no two have.)
pub fn ready_law()
    ensures { FirstIsChosen }
{}

/// A step is taken exactly where the semantics allows it, within the limits.
pub fn step_laws()
    ensures taken { OfSound StepsExactly }
    ensures makes { OfSound StepMakes }
    ensures not_ready { OfSound NotReadyExactly }
    ensures limits { OfSound LimitsExactly }
{}

/// A step and its undo leave everything as it was; an event is undone exactly where no other live
/// event depends on it, else the first that does is named. `restores` is the loop lemma (Danos and Krivine, 2004);
/// `exactly` and `needed` are causal safety and causal liveness (Lanese, Phillips and Ulidowski, 2020).
pub fn undo_laws()
    ensures restores { OfSound StepThenUndo }
    ensures exactly { OfSound UndoesExactly }
    ensures one { OfSound UndoTakesOne }
    ensures needed { OfSound NeededExactly }
{}

/// An event is rolled back exactly where it is live, and that leaves exactly the events that do not depend on it. A
/// variable is rolled back exactly where a live event wrote it, and that is the rollback of the event that is blamed
/// for it. This is causal-consistent rollback (Giachino, Lanese and Mezzina, 2014).
pub fn roll_laws()
    ensures live { OfSound RollsWhereLive }
    ensures exactly { OfSound RollsExactly }
    ensures written { OfSound RollsValueWhereWritten }
    ensures value { (o : Object) → RollsValueExactly o }
{}

/// Tickets only grow, and none is used again.
pub fn ticket_law()
    ensures { TicketsGrow }
{}

/// No commands get rid of an event and keep one that depended on it.
pub fn least_rollback_law()
    ensures { LeastRollback }
{}

/// Any commands amount to going back and then forth: the parabolic lemma (Lanese, Phillips and Ulidowski, 2020, after
/// Danos and Krivine, 2004).
pub fn back_then_forth_law()
    ensures { BackThenForth }
{}

/// A rollback of a variable leaves it with the value that it had before its last writer.
pub fn rolled_value_law()
    ensures { OfSound RolledValue }
{}

/// Dependence by tickets is dependence in the list of the live events, and the consequences of an
/// event are the live events that depend on it.
pub fn dependence_laws()
    ensures same { OfSound DependsOnIsCauses }
    ensures listed { OfSound ConsequencesExactly }
{}

/// Each command has exactly one reply, which determines what is live after it.
pub fn reply_laws()
    ensures one { OneReply }
    ensures some { SomeReply }
{}
