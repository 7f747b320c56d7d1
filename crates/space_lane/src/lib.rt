//! The lane of a space: its pages on a chunk of their own, behind a header and a mark that says which state they are in.
//!
//! A value owns its disk, and agrees with it: the mark has the state that the value tells of, and nothing is to be put back.
//! A stop in a call leaves the state before it or the one behind it, and within `advance` it may leave a place between them.
#![tactic(auto)]

mod advancing;
mod emptying;
mod faults;
mod header;
mod lane;
mod laws;
mod opening;
mod pages;
mod places;
mod reopening;
mod states;
#[cfg(test)]
mod tests;

pub use backup_lines::{Chain, LaneState};
pub use faults::LaneFault;
pub use lane::Lane;
pub use laws::{a_state_moves_the_place_alone, the_opening_shows_the_same, what_stands_is_shown};
