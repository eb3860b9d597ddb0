// The laws of the commands on one execution, each a contract of a function that does nothing.
ghost use Rattle.runs.specs.ObjectLaws.{StaysSoundOverLists, TicketsGrow};
ghost use Rattle.machine.specs.Branching.{SteppedIsStep, OthersLeave};
ghost use Rattle.machine.specs.Headline.{HeadlineOfSound};

/// What a designer may rely on holds of every sound execution, and any commands that are answered leave it sound.
pub fn answered_laws()
    ensures stays { StaysSoundOverLists }
    ensures grows { TicketsGrow }
    ensures headline { HeadlineOfSound }
{}

/// A branch that takes an event takes a step, and every other answer leaves the execution as it was.
pub fn branch_laws()
    ensures steps { SteppedIsStep }
    ensures others { OthersLeave }
{}
