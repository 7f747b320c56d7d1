//! The twin mark: a record of 255 bytes on a disk that changes whole or not at all.
//!
//! Two slots hold the record in sequence, each behind a gate. Where a mark agrees with its disk, each image that a crash in
//! a `store` leaves has the old record or the new one, and after Ok the new one; nothing outside of the region changes.
#![tactic(auto)]

mod mark;
mod slots;

pub use mark::{Mark, MarkFault};

#[cfg(test)]
mod tests;
