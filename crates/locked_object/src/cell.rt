// The cell, from which whoever has the lock takes the keeper: a table of one slot under a rule that names the board.
use crate::known::Knowing;
use crate::{Keeper, Object, Replies};
use atomic_table::{Play, TableRule};
use recorded_calls::Board;
use std::marker::PhantomData;

/// Where the keeper is, as the seat at the cell knows it.
pub enum Place {
    Home,
    Away,
}

/// What the rule names: the word of recorded calls, and how many passes there are.
#[derive(Drop)]
pub struct Register<C, R, D: Object<C, R>> {
    pub(crate) board: Board<D, C, R, Replies<D>>,
    pub(crate) passes: u32,
}

/// The rule: while the lock is free the keeper is at home, and its object is what the opening is after the recorded
/// history.
pub struct Guarded<D> {
    object: PhantomData<D>,
}

impl<C, R, D: Object<C, R>> TableRule<Keeper<D, C, R>, Place, Register<C, R, D>> for Guarded<D> {
    ghost use Rattle.locked_object.specs.Guards.{Guards};
    ghost use Rattle.locked_object.specs.declared.cell.Place.TheVariants.{Home};

    ghost holds = { λ named.
        Guards D.performs named.board.table.shared.table_id named.board.table.shared.key named.passes };

    ghost first = { λ _. Home };
}

/// The keeper is taken out.
pub(crate) struct Takes<J> {
    name: PhantomData<J>,
}

impl<D, C, R, J: Knowing<Keeper<D, C, R>>> Play<Keeper<D, C, R>, Place> for Takes<J> {
    ghost use Rattle.locked_object.specs.Guards.{TakesKeeper};

    ghost then = { λ _ _ _. TakesKeeper J.known };
}

/// The keeper is put back.
pub(crate) struct Gives;

impl<D, C, R> Play<Keeper<D, C, R>, Place> for Gives {
    ghost use Rattle.locked_object.specs.Guards.{GivesKeeper};

    ghost then = { λ _ _ _. GivesKeeper };
}
