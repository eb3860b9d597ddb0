//! Where the events of a run act: in which branch of their system, and on which line.
#![tactic(auto)]

mod laws;

pub use laws::{
    accepted_systems_have_few_branches, events_have_lines, events_lie_in_branches,
    events_of_accepted_lie_in_branches,
};
