//! Laws of the courses of backups and upkeep: each of their moves may be made, so each site that they pass is fit.
#![tactic(auto)]

mod laws;

pub use laws::{
    backups_of_logs_pass_fit_sites, backups_of_spaces_pass_fit_sites, upkeep_passes_fit_sites,
};
