//! Trials of the service's shell over a site in memory: what no clause says of its texts, and what stops leave of its store.
//!
//! The disks and a script go in as bytes, and status, text and disks come out as bytes.
#![tactic(auto)]

#[cfg(test)]
mod scripts;
mod shells;
#[cfg(test)]
mod states;
#[cfg(test)]
mod stops;

pub use shells::{copies_in, shell};
