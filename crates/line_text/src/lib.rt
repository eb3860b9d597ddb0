//! The text of a session: what the words of a line say, and how events, numbers and refusals are shown in its answer.
//! Nothing here knows who asks and who answers.
#![tactic(auto)]

mod answer;
mod digits;
mod event;
mod field;
mod keyword;
mod operands;
mod text;

pub use answer::{
    add_consequences, add_entry, add_live, add_numbered, add_ready, add_refusal, add_valued,
};
pub use field::{Field, variable_field};
pub use keyword::Keyword;
pub use operands::{cut_at_space, read_branch, read_choice, read_ticket, read_variable};
pub use text::{add_byte, add_bytes, add_decimal};
