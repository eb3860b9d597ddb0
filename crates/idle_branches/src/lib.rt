//! Which branches may come to have a step by a step of others: those that act on a channel whose other side is offered
//! behind it, and so, at most, those that act on a channel on which a branch of that step gives. All others that have none
//! still have none behind it. And what a look at a branch tells of its next step.
#![tactic(auto)]

mod behind;
mod ends;
mod givers;
mod glance;
mod laws;
mod sight;
mod used;

pub use behind::{given_on, offers_behind};
pub use ends::Ends;
pub use glance::{Glance, glance_of};
pub use laws::{gives_what_is_known, stays_idle};
