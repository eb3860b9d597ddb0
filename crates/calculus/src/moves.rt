use crate::residual_tree::ResidualTree;
use syntax::{Boxed, Shared};
use system::{Decision, Expression};
use value::{Value, Width};

/// What one action does in an event. It has expressions and not their values.
#[derive(Drop)]
pub(crate) enum Move {
    /// to the variable, of this width
    Assigns(u32, Width, Expression),
    /// takes this arm or none
    Tests(Decision, Option<u32>),
    Turns,
    /// on the channel, of this width; true where it is held until the close
    Sends(u32, Width, Expression, bool),
    /// into the variable, or into none
    Receives(u32, Option<u32>),
    /// true where it is held until the close
    Syncs(u32, bool),
    /// on the channel, this arm, with the value received if the channel has data
    Opens(u32, u32, Option<Value>),
    Releases(u32),
    Closes(u32),
}

/// A move, and what is left after it.
#[derive(Drop)]
pub(crate) struct Moved {
    pub(crate) by: Boxed<Move>,
    pub(crate) left: Shared<ResidualTree>,
}
