// What follows from these contracts, each the contract of a function that does nothing.
ghost use Rattle.dap_moves.specs.Laws.{LedNowhere, LedOn, LedByOne, KeepsHeadline, LosesNothingElse, RefusedBack, BackWhereAlone, FewTurns};

/// Where commands lead on, all of them together lead. What holds after any commands of sessions holds: the state is
/// that of the live steps, and nothing that depended on a step that is gone is left.
pub fn led_laws()
    ensures nowhere { LedNowhere }
    ensures on { LedOn }
    ensures one { LedByOne }
    ensures headline { KeepsHeadline }
    ensures least { LosesNothingElse }
{}

/// A step back is refused exactly where a live step depends on the newest of the branch; the refusal names the first
/// that does, and nothing has changed.
pub fn step_back_laws()
    ensures refused { RefusedBack }
    ensures alone { BackWhereAlone }
{}

/// A run takes 65,536 steps at most, since no more may be live.
pub fn run_laws()
    ensures { FewTurns }
{}
