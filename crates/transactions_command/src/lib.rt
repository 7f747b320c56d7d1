//! The form `-T` of a command over a whole site: the log is extended by a script of transactions.
//!
//! What the disks hold decides first: a form that they refuse takes nothing of its script. Wherever the form is stopped it has passed
//! worlds of its run alone, and at its end it has done that run, unless it was cut short.
#![tactic(auto)]

mod command;
mod opening;

pub use command::run_transactions;
