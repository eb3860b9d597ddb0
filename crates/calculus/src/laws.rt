// Laws of lists that are one run, each the contract of a function that does nothing.
ghost use Rattle.calculus.specs.OneRun.{OneRunRespects, OneRunEndsOnce, OneRunDependsAlike};

/// Two lists are one run exactly where the first runs and the second is a respecting order of it. They lead to one
/// state, and the same events depend on each of their events: causally equivalent runs (Danos and Krivine, 2004).
pub fn one_run_laws()
    ensures respects { OneRunRespects }
    ensures state { OneRunEndsOnce }
    ensures dependents { OneRunDependsAlike }
{}
