//! What a line of a shell asks of a desk: a command of the session, the step of a number, runs in which the branches
//! step in turn, and going back by so many steps. Whatever is asked, the desk is then what a list of commands leaves.
#![tactic(auto)]

mod ask;
mod back;
mod bench;
mod deed;
mod laws;
mod loaded;
mod marks;
mod run;
mod sleepers;
mod tidy;
mod word;

pub use bench::Bench;
pub use deed::{Deed, Done, End, Watch};
pub use laws::desk_laws;
pub use tidy::tidied;
pub use word::{Word, read_deed};
