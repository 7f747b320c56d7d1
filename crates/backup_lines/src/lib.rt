//! What the boot file lists: the archives and log files that were backed up, which of them are gone, and the restore that is
//! under way.
//!
//! Plain data, and the definitions that restores go by: the spans of the log's files, the point in time, the chain of
//! archives of a space, and what a restore needs.
#![tactic(auto)]

mod lanes;
mod lines;
mod objects;
mod points;
mod stretches;

pub use lanes::{Chain, LaneState};
pub use lines::{Archive, FileSpan, Line};
pub use objects::{Lacking, LackingList, Need, What};
pub use points::{Point, Restore};
pub use stretches::Stretch;
