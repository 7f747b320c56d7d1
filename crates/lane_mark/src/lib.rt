//! The record in a chunk's mark: which state its lane is in.
//!
//! Each state has one spelling of 255 bytes. What is read is spelled so, each byte of it, and what is spelled so is read.
#![tactic(auto)]

mod fields;
mod mark;
#[cfg(test)]
mod tests;

pub use mark::{decode, encode_into, is_lane};
