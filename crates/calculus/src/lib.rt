//! The slow replay, which runs a list of events step by step and is the run; and whether two lists of events are one
//! run: the same events, taken in orders that differ only where nothing depends on it. What a run is stands in crate
//! `runs`, all of which is handed on here.
#![tactic(auto)]

mod alike;
mod allowed;
mod answers;
mod apart;
mod index;
mod laws;
mod make_event;
mod moves;
mod offers;
mod one_run;
mod place;
mod plain;
mod residual_tree;
mod same;
mod slow;
mod start;
mod step;
mod translate;
mod uses;
mod walk;

pub use laws::one_run_laws;
pub use one_run::same_run;
pub use plain::Plain;
pub use residual_tree::{ResidualTree, along, with_received, within};
pub use runs::{
    Ask, Choice, Event, Kind, LAST_TICKET, MOST_LIVE_EVENTS, Refusal, acting_once,
    allowed_are_listed, apart_moves_meet, back_then_forth_law, causes_alone, dependence_laws,
    depends_directly, earlier_places, events_are_distinct, least_rollback_law, limit_laws,
    neighbours_swap, one_choice, one_state, opening_is_well_formed, ordered, ready_law, reply_laws,
    respecting_orders, roll_laws, rolled_value_law, run_as_function, runs_without,
    runs_without_consequences, same_dependents, same_events, same_values, some_before,
    soundness_laws, state_laws, step_laws, ticket_law, undo_laws, writes,
};
pub use slow::{replay, replay_live};
pub use system::Variables;
pub use translate::{in_parallel, in_sequence};
