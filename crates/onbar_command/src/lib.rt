//! The commands of `onbar` over a whole site.
//!
//! What the disks hold decides: a form is refused for it, and then nothing is written, or it does what its run says. Wherever a
//! command is stopped, its disks stand for a fit site that the run passes, and the next command goes on from there.
#![tactic(auto)]

mod command;
mod form;
mod report;
mod telling;
mod text;

pub use command::onbar;
