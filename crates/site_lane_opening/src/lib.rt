//! The lanes of a site are opened, behind its log: all of them, or the one of a space.
//!
//! Each is synced, and opened in the era behind. What its chunk holds decides alone: the lowest one that is lost is named, else the lowest
//! with a bad mark, unless a disk fails. Where the chunks show the lanes of a site the values stand for them behind Ok. Wherever it stops each
//! chunk shows its lane still.
#![tactic(auto)]

mod all;
mod one;
mod trying;

pub use all::open_site_lanes;
pub use one::open_site_lane;
