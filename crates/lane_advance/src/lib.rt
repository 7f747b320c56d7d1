//! A lane brought forward: steps along its way, until its chunk stands at a position.
//!
//! The changes that are handed over may be of all spaces, and may begin long before the place of the mark: what is laid is passed
//! over. At Ok the chunk shows the pages of that position. A stop leaves a place on the way with its pages, none before
//! the one from which the work began.
#![tactic(auto)]

mod advancing;
mod passing;
mod places;
mod progress;
mod stepping;

pub use advancing::advance;
pub use places::{place_in, with_place};
pub use stepping::advance_step;

#[cfg(test)]
mod tests;
