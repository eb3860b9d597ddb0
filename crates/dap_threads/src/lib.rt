//! Threads with their frames, and what is unfolded of them: variables, channels, the newest steps.
#![tactic(auto)]

mod frames;
mod places;
mod standing;
mod values;

pub use frames::{frame_in, stack_trace, thread_in};
pub use places::places_in;
pub use standing::threads;
pub use values::{channel_words, handle_named, scopes, variables};
