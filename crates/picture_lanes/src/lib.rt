//! What the picture of a run is drawn on: the blocks of a circuit, which are its calls, and a lane for each branch in
//! which a command stands, with the uses of channels and what the ports have to give.
#![tactic(auto)]

mod calls;
mod ground;
mod lane;
mod path_places;
mod ports;
mod table;
mod walk;
mod written;

pub use ground::{Ground, ground_of};
pub use lane::{Feed, Instance, Lane, LaneKind};
pub use table::LaneTable;
pub use walk::{ChannelUse, Way};
