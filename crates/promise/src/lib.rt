//! The capstone: what all layers together promise, from the bytes that a designer types to the bytes that come back.
#![tactic(auto)]

mod laws;

pub use laws::promise_law;
