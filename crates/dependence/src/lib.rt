//! Live events, which of them depends on which, and where they act in the source. The tables of last events (which event
//! stands at which place, which events use which number) hold tickets, and fall back to what they were when an event is
//! taken out.
#![tactic(auto)]

mod accesses;
mod acting_event;
mod branch;
mod children;
mod consequences;
mod count;
mod entries;
mod event_places;
mod forks;
mod indexes;
mod inserts;
mod kept;
mod laws;
mod leading;
mod links;
mod live;
mod live_events;
mod live_list;
mod marks;
mod places;
mod puts;
mod search;
mod tables;
mod tickets;
mod topmost;
mod unreached;
mod uses;
mod ways;
mod whole;

pub use event_places::{line_after, select_after};
pub use laws::{
    arms_are_taken_once, last_comes_behind, least_is_follower, no_new_follower,
    reached_through_followers,
};
pub use live::Live;
pub use live_events::LiveEvents;
pub use places::PlaceTable;
pub use uses::UseTable;
