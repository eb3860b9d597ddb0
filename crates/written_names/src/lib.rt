//! What is declared in a description, and where its names stand: flat lists of what the trees say, for texts about
//! faults.
#![tactic(auto)]

mod declarations;
mod places;
mod walk;
mod widths;

pub use declarations::{
    Declared, Kind, find, ports, procedure_at, text_at, types, visible, width_of_number,
};
pub use places::{Role, Site};
pub use walk::sites;
