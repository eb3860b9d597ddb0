// One execution for several designers.
ghost use Rattle.std.specs.Prelude.{◌≡◌};
ghost use Rattle.system_places.specs.SystemBranches.{branch_count};

use crate::{Command, Desk, Reply};
use locked_object::Replies;

/// One designer's side of a shared execution: pass k speaks for session k.
pub type Pass = locked_object::Pass<Desk, Command, Reply>;

/// What keeps the execution while the lock is held: the desk, its recorded history, and the seat that notes it.
pub(crate) type Kept = locked_object::Keeper<Desk, Command, Reply>;

/// The word of recorded calls.
pub type Board = recorded_calls::Board<Desk, Command, Reply, Replies<Desk>>;

/// An execution under a lock, with the number of its recorded calls.
#[derive(Drop)]
pub struct Shared {
    pub(crate) object: locked_object::Shared<Command, Reply, Desk>,
    pub(crate) branches: u32,
    pub ghost counted: { branches ≡ branch_count object.board.table.shared.key.machine.checked },
}
