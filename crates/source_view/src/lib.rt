//! The source of an execution with its lines numbered, and marks where events are ready, where breakpoints are, and
//! where a `select` has to choose.
#![tactic(auto)]

mod conflict;
mod lines;
mod marks;
mod ready_marks;
mod text;
mod view_lines;

pub use view_lines::view;
