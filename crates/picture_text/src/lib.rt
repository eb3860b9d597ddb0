//! The picture of a run as one JSON text, and the page that has it in its script.
#![tactic(auto)]

mod data;
mod end;
mod ground;
mod page;
mod page_before;
mod page_drawing;
mod page_panel;
mod steps;

pub use data::{Names, data_text};
pub use page::page_text;
