//! One execution of a description and the sessions of the designers who work on it: they take events, take them back,
//! ask what is live, and step a branch up to their breakpoints.
#![tactic(auto)]

mod asked;
mod calls;
mod command;
mod crew;
mod desk;
mod fault;
mod keeper;
mod laws;
mod object;
mod perform;
mod shared;

pub use asked::run_commands;
pub use command::{Command, Reply};
pub use crew::{Crew, MOST_TURNS, MOST_WORKERS, Tally};
pub use desk::Desk;
pub use fault::Fault;
pub use keeper::Keeper;
pub use laws::{breakpoint_laws, crew_laws, history_laws, reply_laws, rollback_laws};
pub use machine::{Breaks, Machine, Ticket, Var};
pub use object_workers::{Gate, Ran};
pub use runs::{Choice, Event, Kind, Refusal};
pub use shared::{Board, Pass, Shared};
