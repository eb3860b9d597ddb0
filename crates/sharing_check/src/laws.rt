// The laws of the rule, each the contract of a function that does nothing.
ghost use Rattle.sharing_check.specs.Laws.{ClashFreeKeepsTheRule};

/// Where no two uses of a variable stand in two branches of a parallel, one of them writing, no branch uses what
/// another one writes: the pairs that a refusal speaks of are what the rule on variables forbids.
pub fn clash_free_keeps_the_rule()
    ensures { ClashFreeKeepsTheRule }
{}
