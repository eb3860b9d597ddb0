//! What happened, what may happen and what was refused, in plain words, with the names that the source has.
#![tactic(auto)]

mod deeds;
mod elements;
mod needed;
mod parts;
mod phrases;
mod reasons;
mod text;
mod values;

pub use deeds::{Tense, add_deed, add_step};
pub use elements::{Elements, root_name};
pub use needed::consequences_of;
pub use reasons::add_reason;
pub use text::Text;
pub use values::add_value;
