//! What the last records of a log tell of all of it: the open transactions, and the changes that a lane lacks.
//!
//! Definitions and laws alone.
#![tactic(auto)]

mod laws;

pub use laws::{held_records_give_the_changes, held_records_give_the_open_transactions};
