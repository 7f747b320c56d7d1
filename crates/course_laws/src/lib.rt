//! Laws of the courses of commands: each of their moves may be made, so each world that they pass is fit.
#![tactic(auto)]

mod laws;

pub use laws::{
    formatting_passes_fit_worlds, showing_passes_fit_sites, transactions_pass_fit_sites,
};
