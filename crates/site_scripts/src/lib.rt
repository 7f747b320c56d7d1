//! A script of transactions over a whole site.
//!
//! The lines of the script are collected into batches of 1 to 32 records, and each batch is appended before anything else is
//! read. The whole run is one call by the course of its script: wherever it is stopped it passes sites of that course alone, and
//! at its end it has done it.
#![tactic(auto)]

mod outcomes;
mod running;
mod scripts;
mod transactions;
mod work;

pub use outcomes::{Cut, Extended, ScriptEnd};
pub use scripts::run_script;
