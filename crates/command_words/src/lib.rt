//! What the words of the command line ask for, and what is told where they ask for nothing.
#![tactic(auto)]

mod asked;
mod commands;
mod crew_size;
mod form;
mod help;
mod hint;
mod parse;
mod request;
mod unasked;

pub use crew_size::CrewSize;
pub use form::Drawing;
pub use parse::requested;
pub use request::Request;
pub use unasked::Unasked;
