// The lock: a perch on which the cell's only seat rests while nobody has it.
use atomic_table::{PerchPlay, PerchRule};

/// What one caller knows of the lock.
pub enum Hold {
    Free,
    Held,
}

/// The rule: at most one caller has the lock, and none while the seat rests on it.
pub struct OneHolder;

impl PerchRule<Hold> for OneHolder {
    ghost use Rattle.locked_object.specs.Lock.{OneHolds};
    ghost use Rattle.locked_object.specs.declared.lock.Hold.TheVariants.{Held};

    ghost holds = { OneHolds };

    ghost first = { Held };
}

/// A caller takes the lock.
pub(crate) struct Locks;

impl PerchPlay<Hold> for Locks {
    ghost use Rattle.locked_object.specs.Lock.{Locked};

    ghost then = { λ _ _ _. Locked };
}

/// A caller looks whether the lock is free.
pub(crate) struct Looks;

impl PerchPlay<Hold> for Looks {
    ghost then = { λ _ _ _ _ _. Unit {0} };
}

/// The caller that has the lock lets it go.
pub(crate) struct Unlocks;

impl PerchPlay<Hold> for Unlocks {
    ghost use Rattle.locked_object.specs.Lock.{Unlocked};

    ghost then = { λ _ _ _ found _. Unlocked found };
}
