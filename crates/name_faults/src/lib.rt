//! What is wrong where a name, a kind or a width does not fit: refusals 7 to 13 and 17.
#![tactic(auto)]

mod calls;
mod kinds;
mod names;
mod repeated;
mod widths;

pub use kinds::kind_text;
pub use names::find;
pub use widths::greatest;
