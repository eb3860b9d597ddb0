//! Workers in threads of their own, which step the branches of a shared object: each takes the number of a branch from
//! a queue, asks the object to step it, and puts the number back.
#![tactic(auto)]

mod branches;
mod gate;
mod queue;
mod threads;
mod worker;

pub use branches::Branches;
pub use gate::Gate;
pub use queue::{Dealing, Hand};
pub use threads::{Ran, run_workers};
