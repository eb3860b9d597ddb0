//! What is found about a fault, and its text: the place, what is wrong, the lines with their marks, and what helps.
#![tactic(auto)]

mod finding;
mod nearness;
mod wrap;

pub use finding::{Beside, Finding, Input, short, text_between, text_of};
pub use nearness::Nearest;
pub use wrap::plain_text;
