//! Restores are planned over lists: where a restore goes to, which archives and log files it needs, and what is lacking.
//!
//! Nothing here reads a disk. Each call answers exactly what its definition says: a refusal names each space that can't be
//! restored. The Resets are folded once, and the archives are passed over up to four times for each space.
#![tactic(auto)]

mod chains;
mod files;
mod gone;
mod laws;
mod live;
mod needs;
mod planning;
mod plans;
mod points;

pub use backup_lines::{Lacking, LackingList, Need, What};
pub use chains::SpacePlan;
pub use files::spans;
pub use laws::a_plan_has_the_files_that_are_wanted;
pub use live::LivePositions;
pub use needs::needed;
pub use planning::plan;
pub use plans::{Plan, PlanFault};
pub use points::{Found, find, within};
