//! What a session of a shell reaches beside its lines: files that it saves to and loads from, a clock, and who waits for
//! a long line.
#![tactic(auto)]

mod host;

pub use host::{FileFault, Host, Local};
