//! What each refusal means: its number, its name, a line for lists, and a page with an example and the usual causes.
//!
//! A help text, the answer to a question about one number and a document of all can be made of these pages.
#![tactic(auto)]

mod answers;
mod editor;
mod files;
mod form;
mod lines;
mod names;
mod page;
mod sharing;
mod table;

pub use page::{Page, page_text, summary};
pub use table::{NUMBERS, page_of};
