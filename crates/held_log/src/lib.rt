//! What the held files of a log tell: the transactions that are open at its end, and the changes in effect there.
//!
//! The records are read file by file, each once, with one file in memory at a time. A record of a transaction that began in
//! a file that isn't held any more is passed over. A Begin that the open transactions refuse is a bad record, the first one
//! in order.
#![tactic(auto)]

mod faults;
mod reader;
mod reading;

pub use faults::HeldFault;
pub use reader::HeldLog;
pub use reading::{read_changes, read_open};
