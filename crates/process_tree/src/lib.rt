//! The tree of an execution, which is changed in place: what each command has done, with the finished processes kept.
#![tactic(auto)]

mod advance;
mod code;
mod environment;
mod finder;
mod laws;
mod leaf_offers;
mod list;
mod list_fresh;
mod offer;
mod part;
mod place;
mod proc;
mod retreat;
mod translate;
mod tree;

pub use code::{Await, Code, Decide, Once, Repeat, Row, Sender};
pub use environment::system_code;
pub use laws::{
    finished_is_done, left_is_formed, moves_are_local, moves_go_back, moves_keep_tidy, moves_swap,
    one_child_moves, started_has_all_left, systems_open_alike,
};
pub use offer::{Offer, OfferKind};
pub use proc::{Gate, Phase, Proc, Tested, Turns, start};
pub use translate::code_of;
pub use tree::Tree;
