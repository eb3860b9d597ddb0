//! Text of XML in printable ASCII, whatever bytes it stands for: none of them ends the text or the attribute that it
//! stands in.
//!
//! Bytes that are no UTF-8 are written as U+FFFD, one for each piece, and so is a character that XML cannot have.
#![tactic(auto)]

mod text;

pub use text::{add_text, texts_are_quiet, texts_read_back};
