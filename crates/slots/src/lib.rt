//! Items by ticket in one map, in order of tickets. An item that is taken out leaves its place empty, so that nothing
//! moves. The items of each block of places are counted, so that the one at an index is found through the counts.
#![tactic(auto)]

mod blocks;
mod edits;
mod tickets;

pub use blocks::{index_at, place_at};
pub use edits::{close_up, cut_end, make_room, push, take_at};
pub use tickets::{Slots, find};
