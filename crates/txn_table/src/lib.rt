//! The transactions that run in the logical log, as its records are fed one after another.
//!
//! A Commit hands out its transaction's Writes in order. A record is refused exactly for the transactions that are open: a
//! Begin of one that is, or behind 64 of them, and any other record of one that isn't. Times and the targets of Resets
//! aren't looked at. A refusal changes nothing.
#![tactic(auto)]

mod changes;
mod faults;
mod laws;
mod running;
mod table;
#[cfg(test)]
mod tests;

pub use changes::Change;
pub use faults::OrderFault;
pub use laws::{a_commit_gives_its_writes, an_order_is_not_refused, the_first_is_the_oldest};
pub use table::Open;
