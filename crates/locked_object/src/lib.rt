//! An object of one thread under a lock: several passes, each in a thread of its own, call it, and what each has seen
//! is a beginning of one legal history.
#![tactic(auto)]

mod cell;
mod keeper;
mod known;
mod lock;
mod object;
mod pass;
mod shared;

pub use cell::Place;
pub use keeper::Keeper;
pub use lock::Hold;
pub use object::{NotRecorded, Object, Replies};
pub use pass::Pass;
pub use shared::Shared;
