// The laws of the definitions that the contracts cite, each the contract of a function that does nothing.
ghost use Rattle.elaborate.specs.Laws.{NamesAreDistinct, BranchesAreInPortOrder, CallsAddNoPlace, WithoutCallsIsItself, KeepsItsShape, NodesAreOfTheSystem};

/// The variables and channels of an accepted system have names of their own, where each procedure declares distinct
/// names without `:`, as those of a typed source are.
pub fn name_law()
    ensures { NamesAreDistinct }
{}

/// The environment has a branch for each port of the root, in the order of the ports, on the channel of its port.
pub fn environment_law()
    ensures { BranchesAreInPortOrder }
{}

/// A call adds no entry to a place: the body of a procedure stands where its call stands.
pub fn place_law()
    ensures { CallsAddNoPlace }
{}

/// A description whose root calls nothing is elaborated to that root itself.
pub fn itself_law()
    ensures { WithoutCallsIsItself }
{}

/// The system of a description is its root by cases: form by form, line by line and name by name, each call the body of
/// its procedure.
pub fn shape_law()
    ensures { KeepsItsShape }
{}

/// The nodes that are counted are those of the system that is made.
pub fn node_law()
    ensures { NodesAreOfTheSystem }
{}
