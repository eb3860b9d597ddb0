//! A list in rows: what is taken out of the middle moves few others.
#![tactic(auto)]

mod list;
mod row;

pub use list::Rows;
