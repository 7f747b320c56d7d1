//! What a query finds among the live objects, and how each of them is described.
//!
//! An object is the most recent of its name exactly where no live object with a greater copy id has that name. A query
//! finds exactly the objects that match it with this status, in order of copy id. Only the list of what is found takes
//! memory.
#![tactic(auto)]

mod finding;
#[cfg(test)]
mod tests;

pub use finding::{described, found};
