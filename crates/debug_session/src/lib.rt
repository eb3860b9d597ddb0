//! A session with the debugger: the lines of a script, what each asks for, and the bytes with which they are answered.
#![tactic(auto)]

mod answer;
mod at_hand;
mod fault;
mod input;
mod laws;
mod line;
mod output;
mod pending;
mod read;
mod replay_live;
mod reply;
mod script_state;
mod session;
mod told;
mod whole;

pub use devices::{Counted, CountedLines, CountedWrite};
pub use fault::Fault;
pub use input::read_line;
pub use laws::line_laws;
pub use line::Line;
pub use output::write_out;
pub use read::read_command;
pub use replay_live::replay;
pub use reply::{write_answer, write_reply, write_session};
pub use session::Session;
pub use whole::{accept, accept_leaving, debug, debug_keeping};
