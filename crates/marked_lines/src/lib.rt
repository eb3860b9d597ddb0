//! Lines of a text with marks under them, as people read them on a terminal.
//!
//! A mark stands below what it marks behind tabs and wide characters too: tabs are kept, and every other character
//! takes the columns that a terminal gives it. What a terminal would act on is shown as a sign in its place, and what
//! is no UTF-8 as U+FFFD. Of a long line a part is shown.
#![tactic(auto)]

mod marks;
mod part;
mod shown;

pub use marks::{Mark, add_marked};
