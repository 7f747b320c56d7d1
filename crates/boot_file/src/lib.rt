//! The boot file: the list of what was backed up, and the restore that is under way, over a disk.
//!
//! Lines are appended in one batch, whole or not at all, and so the restore changes. After Ok what was written stands, and a
//! stop leaves what stood before or what is to stand. Opening names the first thing on the disk that isn't in the grammar.
#![tactic(auto)]

mod batch;
mod boot;
mod faults;
mod formatting;
mod header;
mod places;
mod reading;
#[cfg(test)]
mod tests;
mod writing;

pub use boot::Boot;
pub use faults::BootFault;
pub use places::NO_SLOT;
