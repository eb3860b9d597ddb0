//! A debug adapter: the Debug Adapter Protocol over a reader and a writer, on the desk of one description. Threads are
//! its branches, and each step of a thread can be taken back.
#![tactic(auto)]

mod asked;
mod begin;
mod dispatch;
mod face;
mod launch;
mod laws;
mod moves;
mod paths;
mod restart;
mod session;
mod sources;
mod texts;

pub use dap_server::Fault;
pub use face::Face;
pub use launch::Launched;
pub use laws::session_laws;
pub use session::serve;
pub use sources::Sources;
