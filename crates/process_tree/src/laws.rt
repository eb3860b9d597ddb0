// The laws of the tree, each the contract of a function that does nothing.
ghost use Rattle.process_tree.specs.Laws.{LeftIsFormed, StartedHasAllLeft, FinishedIsDone, OffersAreMade, MadeAreOffered, MovesGoBack, MovesSwap, CommandsAgree, SystemsOpenAlike};
ghost use Rattle.process_tree.specs.Tidy.{StartedIsTidy, MovesKeepTidy};
ghost use Rattle.process_tree.specs.Children.{MovesInOneChild, MovesInOneBranch, BackInOneChild, BackInOneBranch};

/// What is left of any process is well formed: what comes later is numbered higher.
pub fn left_is_formed()
    ensures { LeftIsFormed }
{}

/// A command that has made no move has all left to do.
pub fn started_has_all_left()
    ensures { StartedHasAllLeft }
{}

/// A process is finished exactly where nothing is left of it.
pub fn finished_is_done()
    ensures { FinishedIsDone }
{}

/// The tree makes exactly the local moves that what is left of it offers, and leaves what they lead to.
pub fn moves_are_local()
    ensures made { OffersAreMade }
    ensures offered { MadeAreOffered }
{}

/// A move taken back, with what it took out, gives the same tree, finished processes included: the loop lemma for one
/// move.
pub fn moves_go_back()
    ensures { MovesGoBack }
{}

/// Two moves in turn can be made the other way round, to the same tree and with the same processes taken out,
/// unless the place of the first is before that of the second: the square lemma for one move.
pub fn moves_swap()
    ensures { MovesSwap }
{}

/// The commands of the tree of a system are to do what those of the system are to do, and before the first
/// move all is left that the system opens with.
pub fn systems_open_alike()
    ensures commands { CommandsAgree }
    ensures opening { SystemsOpenAlike }
{}

/// A move at a place in one child of a sequence or parallel is a move of that child, and so is its undo; the others
/// stay, and in a sequence the earlier ones are finished.
pub fn one_child_moves()
    ensures sequence { MovesInOneChild }
    ensures parallel { MovesInOneBranch }
    ensures back_in_sequence { BackInOneChild }
    ensures back_in_parallel { BackInOneBranch }
{}

/// Behind the first child of a sequence that is not finished none has made a move: so it is with what has made no
/// move, and a move keeps it.
pub fn moves_keep_tidy()
    ensures started { StartedIsTidy }
    ensures moves { MovesKeepTidy }
{}
