// The laws of the definitions that the contracts cite, each a contract of a function that does nothing.
ghost use Rattle.address.specs.Order.{TiesAreEqual, IsAntisymmetric, IsTransitive, IsTotal, ExtendsBefore};
ghost use Rattle.address.specs.Laws.{BeforeIsFork, ApartIsFork, BeforeIsStrictOrder, ApartIsSymmetric, NeverBoth, TextsDiffer};

/// The order of `compare` is total, only equal addresses are tied in it, and what is `before`
/// another address is less.
pub fn compare_laws()
    ensures ties { TiesAreEqual }
    ensures antisymmetric { IsAntisymmetric }
    ensures transitive { IsTransitive }
    ensures total { IsTotal }
    ensures extends { ExtendsBefore }
{}

/// What `before` and apart mean by the first place at which two addresses differ; that before is a
/// strict order, apart is symmetric, and no two addresses are both.
pub fn place_laws()
    ensures before { BeforeIsFork }
    ensures apart { ApartIsFork }
    ensures order { BeforeIsStrictOrder }
    ensures symmetric { ApartIsSymmetric }
    ensures disjoint { NeverBoth }
{}

/// Addresses with one text are equal.
pub fn text_laws()
    ensures { TextsDiffer }
{}
