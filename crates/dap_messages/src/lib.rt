//! Requests and messages of the Debug Adapter Protocol, as types, and their JSON.
#![tactic(auto)]

mod answer;
mod kind;
mod members;
mod message;
mod request;
mod told;

pub use answer::{Answer, Effect, Note, Outcome};
pub use kind::{Kind, kind_of};
pub use members::{Listed, Members, field, number_in, text_in};
pub use message::{Message, messages_of, write_message};
pub use request::{MOST_DEPTH, Request, Unread, read_request};
pub use told::{Stop, Told};
