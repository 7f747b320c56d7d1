//! The log's disk read: its header, its mark, the gates of the files held, and the records in their slots.
//!
//! Bytes hold one log at most. Where they hold none, the first place that isn't as it should be is named. Reading writes
//! nothing.
#![tactic(auto)]

mod counting;
mod decoding;
mod filing;
mod front;
mod laws;
mod reading;

pub use filing::read_file;
pub use laws::{one_answer, one_log};
pub use reading::{Found, read_ring};
