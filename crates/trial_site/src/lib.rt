//! A site in memory, over which trials run the command `onbar`: words, disks and a script go in as bytes, and status, text and
//! disks come out as bytes.
//!
//! The disks of a plan fail or stop where it says, and crash behind the command. A blank site is formatted by the command.
#![tactic(auto)]

mod bytes;
mod commands;
mod disks;
mod steps;

pub use bytes::Bytes;
pub use commands::{Ended, begins, command, end_of, extend, run};
pub use disks::{MOMENT, Plan, Trouble, leave, site_of};
pub use steps::{INIT, NOTHING, Step, WRITTEN, formatted, go_on, run_steps};
