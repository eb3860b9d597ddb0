//! What a request is answered of the files that it names: whether their description is accepted, what its trace tells,
//! what workers do with it, what people ask of it, its picture; or the line by which it is refused, and words behind it.
#![tactic(auto)]

mod answer;
mod draw;
mod explain;
mod files;
mod output;
mod question;
mod reading;
mod texts;

pub use answer::{check, replay_files, work_files};
pub use draw::picture_files;
pub use explain::words_behind;
pub use files::{Files, Source};
pub use output::{write_fault, write_refusal};
pub use question::{Question, outline_file, show_page, waiting_files, why_files};
pub use reading::{read_texts, read_trace};
pub use texts::{Names, Part, Texts};
