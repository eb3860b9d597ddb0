//! Requests on a desk: breakpoints, runs forth and back, lines that are typed.
#![tactic(auto)]

mod backward;
mod breakpoints;
mod choices;
mod completion;
mod console;
mod entered;
mod hints;
mod lists;
mod moves;
mod places;
mod said;
mod still;
mod watches;

pub use backward::{back_in, reverse, reverse_in};
pub use breakpoints::{
    Placing, asks_for_refusals, place_again, set_before, set_exceptions, set_lines, tell_changed,
};
pub use choices::targets;
pub use completion::completions;
pub use console::evaluate;
pub use entered::is_typed;
pub use moves::{go_in, run, run_free, step_in};
pub use places::locations;
pub use said::{stop, tell};
pub use watches::{data_info, set_data, set_data_before};
