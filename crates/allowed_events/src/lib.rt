//! The events that are ready: what the actions that a state offers make, in order, and the one that a choice means.
#![tactic(auto)]

mod acting_events;
mod among;
mod choose;
mod least;
mod meet;
mod order;
mod ready;

pub use among::events_among;
pub use choose::{event_with, first_with};
pub use ready::{in_order, ready_below, ready_events};
