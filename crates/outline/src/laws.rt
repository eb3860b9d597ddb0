// That the numbers of the branches are those that `branch` means, the contract of a function that does nothing.
ghost use Rattle.outline.specs.Branches.{BranchesByNumber};

/// A place lies in branch k exactly where the entry of this number has it, in a system of fewer than 2^32 branches.
pub fn branches_by_number()
    ensures { BranchesByNumber }
{}
