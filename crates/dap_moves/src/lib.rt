//! What a debug adapter does to a desk: it steps a branch, goes on until something stops it, and takes steps back. What
//! a request leaves is what some commands of sessions leave, and none where it only reads.
#![tactic(auto)]

mod back;
mod forth;
mod known;
mod laws;
mod run;
mod seen;
mod stops;
mod taken_back;

pub use back::{Back, step_back};
pub use forth::{step_at, target_at};
pub use known::{ready_events, value_of};
pub use laws::{led_laws, run_laws, step_back_laws};
pub use locked_execution::{Command, Desk, Machine, Reply};
pub use run::{Ended, Plan, go_on};
pub use seen::{has_choice, is_watched, see};
pub use stops::first_stop;
pub use taken_back::{Marks, Rewound, rewind, rewind_branch};

/// The session in which an adapter steps. It never sets a breakpoint there; lines that are typed are of session 0.
pub const QUIET: u32 = 15;
