//! What the picture of a run shows, as plain data: what it is drawn on, the row and the lanes of each event, who needs
//! whom, the steps that can be taken, and who waits for whom.
#![tactic(auto)]

mod actions;
mod end;
mod partners;
mod picture;
mod places;
mod prefix;
mod steps;

pub use actions::Actions;
pub use end::End;
pub use picture::{Picture, picture_of};
pub use picture_lanes::{Feed, Instance, Lane, LaneKind};
pub use places::{Place, Role, Wanted};
pub use prefix::prefix_length;
pub use run_depths::Race;
pub use steps::Steps;
pub use waiting::Progress;
