//! The rule on sharing: how many branches may use a variable or a channel at one time.
#![tactic(auto)]

mod checked;
mod clashes;
mod found;
mod laws;
mod names;
mod places;
mod touched;
mod touches;
mod widths;

pub use checked::{Checked, check_sharing};
pub use laws::clash_free_keeps_the_rule;
pub use refusals::sharing_check::Fault;
