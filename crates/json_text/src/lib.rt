//! JSON texts that may stand in the script of a page: printable ASCII alone, and no `<` at all, so that no text ends
//! the script.
//!
//! Bytes that are no UTF-8 are written as U+FFFD, one for each piece.
#![tactic(auto)]

mod item;
mod string;
mod writer;

pub use item::Item;
pub use string::{
    add_string, bytes_read_back, numbers_are_integers, strings_are_plain, strings_read_back,
    texts_have_one_value,
};
pub use writer::Json;
