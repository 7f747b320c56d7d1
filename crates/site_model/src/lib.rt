//! What contracts and programs name alike of a site: its disks, how a command ends, its texts, what a script's lines collect, and what a
//! site shows.
#![tactic(auto)]

mod disk_name;
mod status;

pub use disk_name::DiskName;
pub use status::{Status, exit_status};
