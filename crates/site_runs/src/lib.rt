//! What the commands make of a whole site: the moves of a script of transactions, each of which may be made.
//!
//! Definitions and laws alone, for the commands over a whole site.
#![tactic(auto)]

mod laws;

pub use laws::scripts_pass_fit_sites;
