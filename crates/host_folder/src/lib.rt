//! A site in the current folder of a process, and how the process begins and ends.
//!
//! The files of a site are opened, and made where they aren't there; the site is held as long as the process runs. Where a
//! command can't begin or is cut short, it is said what was in its way.
#![tactic(auto)]

mod ending;
mod opening;
mod process;

pub use ending::{Cut, StartFault, cut_of, start_status};
pub use opening::{open_folder, open_site};
pub use process::{moment_of, words_of};
