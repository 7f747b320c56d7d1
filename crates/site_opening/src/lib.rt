//! A site is opened: its catalogue with the spare disk, its boot file and its volumes, and then its log.
//!
//! What the disks hold decides alone: the first thing, in this order, that isn't as it should be is named, unless memory runs out or a
//! disk fails. Where they show a fit site the values stand for it behind Ok. Nothing is written.
#![tactic(auto)]

mod faults;
mod log;
mod parts;
mod restores;
mod site;

pub use log::open_site_log;
pub use restores::if_restoring;
pub use site::open_site;
