//! The record in the log's mark: which files the log's disk holds, and where each of them begins.
//!
//! Each record has one spelling of 255 bytes. What is read is spelled so, each byte of it, and what is spelled so is read.
#![tactic(auto)]

mod fields;
mod mark;
#[cfg(test)]
mod tests;

pub use mark::{LogMark, PLACES};
