//! The row of each live event in a picture, which is the length of the longest chain of events that led to it, how far
//! on its followers stand, and the orders that only a shared variable makes.
#![tactic(auto)]

mod ahead;
mod depth;
mod held;
mod races;
mod since;

pub use ahead::all_ahead;
pub use depth::depths_of;
pub use held::{HeldPlaces, held_places, since_now};
pub use races::{Race, races_of};
pub use since::all_since;
