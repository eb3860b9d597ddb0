//! The way from a source and a stimulus to a system that may be run: each pass in turn, and the first fault of the
//! first that refuses them.
#![tactic(auto)]

mod acceptance;
mod fault;
mod laws;
mod make;

pub use acceptance::{accept, accept_leaving};
pub use fault::Fault;
pub use laws::{names_are_distinct, system_is_small};
