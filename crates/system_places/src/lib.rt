//! What a system tells of its places: its branches and the one in which a place lies, the lines on which its commands
//! begin and the one of a place, and where a `select` opens; the last two also by the arms that were taken.
#![tactic(auto)]

mod command_places;
mod laws;
mod lines_begun;
mod system_branches;
mod taken_arms;

pub use command_places::{is_open_of_select, line_at};
pub use laws::line_law;
pub use lines_begun::begins_on;
pub use system_branches::{branch_at, branch_count};
pub use taken_arms::{TakenArms, is_open_under, line_under};
