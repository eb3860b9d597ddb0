//! What there is in a system, by the numbers that script lines and answers use: its branches, each with the ends of
//! channels that it uses, its variables and its channels.
#![tactic(auto)]

mod branch_text;
mod branches;
mod channel_text;
mod end_table;
mod ends;
mod laws;
mod names;
mod outline;
mod piece;
mod source_text;
mod text;
mod variable_text;

pub use branches::{BranchEntry, Part};
pub use end_table::{BranchEnd, EndTable};
pub use ends::{End, Way};
pub use laws::branches_by_number;
pub use names::{ChannelEntry, VariableEntry};
pub use outline::{Outline, outline_of};
