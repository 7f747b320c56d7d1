//! Areas of slots on a disk, each slot with a gate byte in a region of its own, and the header page of a disk.
//!
//! A batch of slots is appended as a whole: where the slots agree with their disk and it reaches up to the next one,
//! each image that a crash leaves has the old slots, or the old ones and the whole batch, and after Ok the latter.
#![tactic(auto)]

mod header;
mod reading;
mod slots;
mod writing;

pub use header::{header_close, header_open, header_read};
pub use slots::{AppendFault, Slots};

#[cfg(test)]
mod tests;
