//! Questions about a description and a run of it, each answered by a text: what there is, who waits, and why.
#![tactic(auto)]

mod reason;
mod system_outline;
mod unknown_name;
mod waits;
mod why;

pub use reason::{Reason, reason_of};
pub use system_outline::outline_text;
pub use waits::waiting_text;
pub use why::{Why, why_text};
