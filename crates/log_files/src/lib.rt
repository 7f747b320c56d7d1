//! The files that the log's disk holds: their part of the history, how it stands on the disk, and what a value knows of it.
//!
//! The disk is a ring of eight places. A value tells of the files held, without their records: each call makes of it what
//! the like step makes of the files. Whether a batch has room is answered by it alone.
#![tactic(auto)]

mod faults;
mod held;
mod places;
mod room;
mod times;

pub use faults::LogFault;
pub use held::HeldFiles;
pub use places::{MARK_AT, NO_SLOT, PLACE_SLOTS, place_of, slots_of};
pub use room::{LogFull, Room};
