//! The records of the logical log, and the 128 bytes of each.
//!
//! Each record has one spelling. What is read is spelled so, each byte of it, and what is spelled so is read.
#![tactic(auto)]

mod fields;
mod laws;
mod records;
#[cfg(test)]
mod tests;
mod text;

pub use laws::{one_slot_each, one_spelling};
pub use records::Record;
pub use text::Text64;
