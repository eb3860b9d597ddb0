//! The events that are ready in any tree and store, found by what is left of the tree: slow, and true of each tree that
//! calls can make. The fast forms, for a tree that stands for a run, are those of `allowed_events`, handed on here.
#![tactic(auto)]

mod code;
mod process;
mod ready;

pub use allowed_events::{event_with, ready_below};
pub use ready::{event_at, ready_events};
