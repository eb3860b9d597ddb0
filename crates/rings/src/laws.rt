// That one ring is the first, the contract of a function that does nothing.
ghost use Rattle.rings.specs.FirstRing.{OneFirstRing};

/// Among the same actions, with the same partners and marks, there is one ring to which the search comes first.
pub fn first_rings_are_one()
    ensures { OneFirstRing }
{}
