//! What a debug adapter shows of an execution, in words and numbers: actions, events, lines, names, frames, and what is
//! launched and watched.
#![tactic(auto)]

mod handles;
mod index;
mod lines;
mod parts;
mod paths;
mod program;
mod short;
mod sight;
mod watched;
mod words;

pub use handles::{Handle, frame_id, frame_of, handle_of, reference};
pub use index::{Index, Named, Thing};
pub use lines::{Heading, Lines};
pub use parts::{acts_in, newest_below, takes_part};
pub use paths::{base_of, is_rooted, is_same_file, own_name};
pub use program::{Asked, Counting, Launch, Memo, Program, Refused};
pub use short::event_words;
pub use sight::{
    Rank, Sight, add_action, add_waits, add_who, channel_of, line_at, same_place, sight_of,
    variable_of,
};
pub use watched::Watched;
pub use words::Words;
