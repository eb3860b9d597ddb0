//! What a shell says in plain words: behind an answer, on questions, and to mistakes.
#![tactic(auto)]

mod channels_asked;
mod ends;
mod files;
mod first_lines;
mod help;
mod misfits;
mod mistakes;
mod names;
mod numbers;
mod past_steps;
mod ports;
mod program_words;
mod questions_asked;
mod refused;
mod replies;
mod scene;
mod sent_lines;
mod show;
mod source_lines;
mod steps;
mod terms;
mod usage;
mod values;

pub use ends::{run_text, unknown_text, way_text};
pub use files::{file_fault_text, loaded_text, refused_trace_text, unnamed_text, written_text};
pub use first_lines::greeting;
pub use mistakes::mistake_text;
pub use questions_asked::question_text;
pub use replies::reply_text;
pub use scene::Scene;
