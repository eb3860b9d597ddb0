// The laws, each a public function that does nothing.
ghost use Rattle.acting_places.specs.Branches.{EventsLieInBranches, AcceptedHaveFewBranches, EventsOfAcceptedLieInBranches};
ghost use Rattle.acting_places.specs.Lines.{EventsHaveLines, AllowedHaveLines};

/// The acting place of each event of a run lies in one branch, whose number is less than how many branches there are.
/// So a step of each branch in turn passes over no event. It holds of a system whose branches have numbers of 32 bits.
pub fn events_lie_in_branches()
    ensures { EventsLieInBranches }
{}

/// The branches of each system that `elaborate` accepts, whatever it was given, have such numbers: a branch of the body
/// or of the environment is a node at least, and an accepted system has 16,384 at most.
pub fn accepted_systems_have_few_branches()
    ensures { AcceptedHaveFewBranches }
{}

/// So the acting place of each event of a run of an accepted system lies in one branch, whose number is less than how
/// many branches there are. Nothing is asked of how many these are.
pub fn events_of_accepted_lie_in_branches()
    ensures { EventsOfAcceptedLieInBranches }
{
    events_lie_in_branches();
    accepted_systems_have_few_branches();
}

/// The acting place of each event of a run, and of each that may be taken next, is that of a command, if it is not one
/// of the environment: it has a line, and a command begins there. So a breakpoint can be set on it.
pub fn events_have_lines()
    ensures taken { EventsHaveLines }
    ensures allowed { AllowedHaveLines }
{
    dependence::arms_are_taken_once();
    system_places::line_law();
}
