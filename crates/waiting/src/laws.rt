// That there is one answer, the contracts of functions that do nothing.
ghost use Rattle.waiting.specs.Told.{OneRing};
ghost use Rattle.waiting.specs.Waits.{OneList};

use rings::first_rings_are_one;

/// In a state there is one list of the actions that wait, as `who_waits` tells it.
pub fn waiters_have_one_order()
    ensures { OneList }
{}

/// In a state there is one ring that `who_waits` tells, where there are several too.
pub fn one_ring_is_told()
    ensures { OneRing }
{
    first_rings_are_one();
}
