//! The other use that makes a clash: of two branches that use one variable, where one of them writes it.
#![tactic(auto)]

mod pairs;
mod uses;

pub use pairs::{OtherUse, other_use};
