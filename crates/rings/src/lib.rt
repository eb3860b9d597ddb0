//! Actions that wait: behind which place the only other end of a channel stands, which places are deadlocked, and rings
//! of actions of which each waits for the next one.
#![tactic(auto)]

mod among;
mod counts;
mod deadlock;
mod ends;
mod fresh;
mod laws;
mod line;
mod look;
mod partner;
mod place_uses;
mod ring;
mod sought;
mod tables;
mod waits;
mod wanted;
mod way;

pub use deadlock::deadlocked_among;
pub use laws::first_rings_are_one;
pub use partner::{Partner, partners_of};
pub use ring::ring_among;
