//! The logical log: a ring of eight files on a disk, which hold the last part of the history.
//!
//! A value owns its disk, and agrees with it: what a read gives and each image that a crash may leave hold the files that
//! the value tells of. Each call makes the like step of the files, and a stop in it leaves the files before or behind it.
#![tactic(auto)]

mod batch;
mod formatting;
mod places;
mod ring;
#[cfg(test)]
mod tests;
mod writing;

pub use backup_lines::FileSpan;
pub use log_files::{LogFault, LogFull, Room};
pub use ring::LogRing;
