//! Traces: the choices of the live events in canonical order as a text, and a machine that takes them again.
#![tactic(auto)]

mod canonical;
mod fault;
mod laws;
mod line;
mod long;
mod order;
mod queue;
mod reader;
mod version;
mod writer;

pub use canonical::canonical_order;
pub use devices::{Counted, CountedRead, CountedWrite};
pub use fault::Fault;
pub use laws::{canonical_laws, trace_laws};
pub use reader::{load, load_text};
pub use writer::{save, write_trace};
