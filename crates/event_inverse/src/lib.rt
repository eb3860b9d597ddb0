//! Events made on the tree and the store with records, and taken back by them.
#![tactic(auto)]

mod asks;
mod backward;
mod forward;
mod laws;
mod moves;
mod record;

pub use backward::{invert, invert_by};
pub use forward::{apply, apply_by};
pub use laws::{
    neighbours_keep_records, orders_have_one_tree, records_revert, runs_have_trees,
    steps_are_applied, undone_by_records,
};
pub use record::{Inverse, Record};
