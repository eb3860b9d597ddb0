//! Which uses of a channel in a description are too many at one time.
#![tactic(auto)]

mod channel;
mod port;

pub use channel::{ChannelUses, Side, SideUse};
pub use port::channel_uses;
