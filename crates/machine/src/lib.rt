//! One execution of a description: its live events, the steps that it takes and takes back, and the questions about it.
#![tactic(auto)]

mod among;
mod branch;
mod breaks;
mod fault;
mod history;
mod laws;
mod machine;
mod question;
mod reply;
mod step;
mod undo;

pub use branch::BranchReply;
pub use breaks::Breaks;
pub use fault::Fault;
pub use laws::{answered_laws, branch_laws};
pub use machine::{Machine, Ticket, Var};
pub use runs::{Choice, Event, Kind, Refusal};
