//! Who waits: after a run, each action that is offered and that no allowed event has, whether the run goes on, is done
//! or is stuck, and a ring of places of which each waits for the next, where there is one.
#![tactic(auto)]

mod actions;
mod input;
mod laws;
mod other_lines;
mod places;
mod progress;
mod side;
mod text;
mod waiting;

pub use laws::{one_ring_is_told, waiters_have_one_order};
pub use progress::Progress;
pub use rings::Partner;
pub use waiting::{Waiting, who_waits};
