//! With which tokens a description can go on, as the parser has it: each kind is tried behind the tokens before it.
#![tactic(auto)]

mod spelling;
mod trial;

pub use spelling::{KINDS, spelled};
pub use trial::viable_kinds;
