//! The board that hands jobs to streams. In a run each job is drawn by one worker, run once, and given back.
//!
//! A run by 1 to 16 workers relates each job's value before it to the value after it by one call of the function, as a
//! loop over the list does, whatever the schedule. The jobs come back in their first order.
//! No clause says that two threads run, in which order jobs run, or when.
#![tactic(auto)]

mod board;
mod rule;
mod steps;
mod worker;

pub use board::{Board, OutOfMemory};

#[cfg(test)]
mod tests;
