//! A session with people that forgives: each line of a script is answered as a script is, and behind it in plain words;
//! a mistake costs nothing.
#![tactic(auto)]

mod answer;
mod laws;
mod lines;
mod load;
mod notes;
mod output;
mod progress;
mod save;
mod script_line;
mod session;
mod spoken;
mod start;
mod texts;

pub use answer::{Answer, Outcome};
pub use debug_session::Fault;
pub use devices::Counted;
pub use laws::session_laws;
pub use lines::run;
pub use session::{Session, Setting};
pub use shell_files::{FileFault, Host, Local};
pub use start::{begin, setting_of};
pub use texts::Texts;
