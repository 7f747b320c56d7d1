//! Disks, input and output of the machine that a program runs on.
//!
//! Each adapter hands a call on to the system, counts its errors and keeps the last one, and tells nothing of what a file,
//! a terminal or a pipe holds. A call answers `Failed` only where the count of errors rose. A disk counts the bytes read
//! and written and the eras of its calls as the trait says.
#![tactic(auto)]

mod errors;
mod file;
mod folder;
mod streams;

pub use file::{FileDisk, HostFault};
pub use folder::Folder;
pub use streams::{StdSink, StdSource};

#[cfg(test)]
mod tests;
