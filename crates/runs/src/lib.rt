//! What a run of a description is: local moves, events, steps, runs, dependence, and the laws of them;
//! what one execution is: its live events, what each command answers and leaves, and the laws of it.
#![tactic(auto)]

mod ask;
mod command;
mod dependence;
mod event;
mod event_of_parts;
mod laws;
mod object_laws;
mod same;

pub use ask::Ask;
pub use command::{LAST_TICKET, MOST_LIVE_EVENTS, Refusal};
pub use dependence::{depends_directly, some_before, writes};
pub use event::{Choice, Event, Kind};
pub use laws::{
    acting_once, allowed_are_listed, apart_moves_meet, causes_alone, earlier_places,
    events_are_distinct, neighbours_swap, one_choice, one_state, opening_is_well_formed, ordered,
    respecting_orders, run_as_function, runs_without, runs_without_consequences, same_dependents,
    same_events,
};
pub use object_laws::{
    back_then_forth_law, dependence_laws, least_rollback_law, limit_laws, ready_law, reply_laws,
    roll_laws, rolled_value_law, soundness_laws, state_laws, step_laws, ticket_law, undo_laws,
};
pub use same::same_values;
