//! The calls of a description: what the names of each stand for, and to which call a place of the system belongs.
//!
//! A system has the body of a procedure in place of each call of it. So a place of the system is a place of the source,
//! in one call: the way to it is gone in the bodies as they are written.
#![tactic(auto)]

mod calls;
mod enter;
mod parts;
mod places;

pub use calls::{Call, Calls};
