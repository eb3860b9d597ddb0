//! A run as a drawing (SVG 1.1) for a document: no script, no style sheet, no outside resource. A row is a depth, a
//! column a lane, as on the page.
#![tactic(auto)]

mod bars;
mod columns;
mod cones;
mod depth_rows;
mod draw;
mod figure;
mod heads;
mod ink;
mod joints;
mod labels;
mod links;
mod marks;
mod names;
mod now;
mod race_names;
mod sheet;
mod shown;
mod title;
mod tracks;
mod trails;

pub use cones::Cones;
pub use draw::drawing_text;
