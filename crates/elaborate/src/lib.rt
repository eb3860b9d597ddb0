//! From a typed description and a stimulus to the system: calls replaced by bodies, names by numbers.
//!
//! `elaborate` makes it, of the description that `types` checked and the stimulus that `Stimulus::read` reads. `specs/`
//! says which system that is, and which refusal is due where there is none.
#![tactic(auto)]

mod body;
mod count;
mod entry;
mod environment;
mod form;
mod forms;
mod front;
mod instance;
mod laws;
mod line;
mod lookups;
mod made;
mod names;
mod pass;
mod ports;
mod stimulus;
mod stimulus_front;

pub use front::refuse_front;
pub use laws::{environment_law, itself_law, name_law, node_law, place_law, shape_law};
pub use pass::elaborate;
pub use refusals::elaborate::Fault;
pub use stimulus::{Entry, Given, Stimulus};
pub use stimulus_front::Front;
pub use system::System;
