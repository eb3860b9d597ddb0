//! Why an event could happen: the live events that it depends on, directly or by way of others, each with its nearest
//! causes.
#![tactic(auto)]

mod blocks;
mod held;
mod lanes;
mod laws;
mod past;
mod sweep;
mod text;
mod told;

pub use laws::{values_are_told_as_read, writers_are_told};
pub use past::{Past, PastEvent, past_of_event, past_of_variable};
pub use text::write_past;
