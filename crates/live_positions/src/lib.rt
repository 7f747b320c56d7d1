//! Which positions of a logical log are live, by the Resets in it.
//!
//! A Reset goes back to its target: from it on all is live, and before it what is live at the target.
#![tactic(auto)]

mod reset_points;

pub use reset_points::{ResetPoint, ResetPoints};

#[cfg(test)]
mod tests;
