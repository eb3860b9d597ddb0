//! The frames of the Debug Adapter Protocol: a header that tells how many bytes come, an empty line, and the bytes.
#![tactic(auto)]

mod body;
mod frames;
mod header;
mod laws;

pub use body::{MOST_BODY, MOST_HEADER, Unframed, unframe};
pub use frames::write_header;
pub use laws::frames_come_back;
