//! The word of recorded calls: several passes, each in a thread of its own, speak to one object under a lock, and what
//! each has seen is a beginning of one legal history.
#![tactic(auto)]

mod board;
mod entry;
mod object;
mod plays;
mod view;

pub use board::{Board, Pass, Recorder};
pub use entry::Entry;
pub use object::Sequential;
pub use plays::Recording;
pub use view::{Claimed, Keeping, Passing, View};
