//! Readers and writers that count how often they failed, so that who says that they did can be held to it.
#![tactic(auto)]

mod asked;
mod counted;
mod failure;
mod input;
mod output;
mod traits;

pub use counted::Counted;
pub use failure::{ReadFault, WriteFailed};
pub use input::read_all;
pub use output::write_out;
pub use traits::{CountedLines, CountedRead, CountedWrite};
