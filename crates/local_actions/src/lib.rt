//! The actions of events that a tree offers: what each place of it could do now, with its values.
#![tactic(auto)]

mod action;
mod actions;
mod around;
mod at_place;
mod cursor;
mod down;
mod fresh;
mod kinds;
mod leaves;
mod list;
mod moved;
mod over;
mod place;
mod site;

pub use action::{ActionKind, LocalAction};
pub use actions::actions_of;
pub use around::Arrived;
pub use at_place::{action_at, actions_below};
pub use cursor::Cursor;
pub use leaves::{list_held, list_sender};
pub use list::body_of_turn;
pub use moved::first_at_work;
pub use over::{is_over, starts_over};
