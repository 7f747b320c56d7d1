//! The forms of a command over a whole site: what each promises, and what it reports.
#![tactic(auto)]

mod report;

pub use report::Report;
