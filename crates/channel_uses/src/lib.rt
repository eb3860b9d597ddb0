//! Which commands of a system send or sync on which channel, so that the partners that a tree offers there are found
//! without a look at what does not use it.
#![tactic(auto)]

mod at_work;
mod fresh;
mod laws;
mod leaves;
mod located;
mod part;
mod search;
mod table;

pub use laws::{moves_keep_origin, unused_offers_nothing};
pub use table::ChannelUses;
