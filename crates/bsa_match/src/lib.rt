//! Which objects a query finds.
//!
//! A pattern answers what its definition by cases on the pattern says, for every pattern and every text.
//! A query finds exactly the objects that its two patterns, its five texts and its three kinds ask for.
//! Two descriptors have one name exactly where their owners, spaces, paths and copy types are equal.
//! No call takes memory.
#![tactic(auto)]

mod pattern;
mod query;
#[cfg(test)]
mod tests;

pub use pattern::wild;
pub use query::{matches, same_name};
