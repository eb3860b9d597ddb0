ghost use Rattle.std.specs.Prelude.{◌≡◌, [], IfOk};
ghost use Rattle.machine.specs.AtMachine.{at_machine};
ghost use Rattle.machine.specs.internal.Histories.{Holds};

use dependence::Live;
use event_inverse::Inverse;
use process_tree::Tree;
use rows::Rows;
use sharing_check::Checked;
use std::alloc::{AllocError, Global};
use store::Store;

/// The tree and the values of the variables to which the live events lead, the live events with their tickets, what the
/// undo of each of them needs beside it, in their order, and the ticket of the next step.
#[derive(Drop)]
pub(crate) struct History {
    pub(crate) tree: Tree,
    pub(crate) store: Store,
    pub(crate) live: Live,
    pub(crate) inverses: Rows<Inverse>,
    pub(crate) next: u64,
}

impl History {
    /// Before the first event.
    pub(crate) fn new(alloc: Global, system: &Checked) -> Result<History, AllocError>
        ensures shown { IfOk result (λ made.
            at_machine system.now made ≡ record { checked = system.now; live = []; next = 1; marked = [] }) }
        ensures holds { IfOk result (λ made. Holds system.now made) }
    {
        let tree = Tree::new(alloc, system.system())?;
        let store = Store::new(alloc, system.system())?;
        Ok(History {
            tree,
            store,
            live: Live::new(alloc),
            inverses: Rows::new(alloc),
            next: 1,
        })
    }
}
