// The laws of what is accepted, each the contract of a function that does nothing.
ghost use Rattle.front_end.specs.Laws.{NamesAreDistinct, SystemIsSmall};

/// The variables and channels of an accepted system have names of their own.
pub fn names_are_distinct()
    ensures { NamesAreDistinct }
{
    typed_source::names_are_own();
    elaborate::name_law();
}

/// An accepted system has as many nodes and levels as there may be, at most.
pub fn system_is_small()
    ensures { SystemIsSmall }
{}
