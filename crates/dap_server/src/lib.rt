//! A server of the Debug Adapter Protocol: it reads requests, lets an adapter answer them, and sends numbered messages.
#![tactic(auto)]

mod adapter;
mod batch;
mod fault;
mod gist;
mod input;
mod kinds;
mod laws;
mod output;
mod room;
mod server;
mod short;

pub use adapter::Adapter;
pub use fault::Fault;
pub use kinds::is_move;
pub use laws::short_laws;
pub use server::serve;
