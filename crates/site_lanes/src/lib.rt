//! The lanes of a site, space by space: they are synced, and opened.
//!
//! A lane that is lost, or whose mark isn't in the grammar, doesn't keep the others from being opened. The answer names the
//! first lost one, else the first one with such a mark.
#![tactic(auto)]

mod advancing;
mod opening;
mod refusals;
mod syncing;

pub use advancing::{advance_lane, advance_lanes, are_at};
pub use opening::{open_lane, open_lanes};
pub use refusals::{LanesFault, Opening};
pub use syncing::{sync_lane, sync_lanes};
