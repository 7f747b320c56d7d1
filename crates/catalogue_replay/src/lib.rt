//! The catalogue's disk read: a journal of records in slots, followed one by one, gives the live objects.
//!
//! Bytes show one journal at most, and what stands beside its gates and slots doesn't matter. Where a disk holds none,
//! the first place that isn't as it should be is named. Reading writes nothing.
#![tactic(auto)]

mod faults;
mod laws;
mod live;
mod places;
mod reading;
mod replay;
mod sums;

pub use faults::CatFault;
pub use laws::{journal_not_bad, journal_stays, one_journal};
pub use places::{MARK_AT, slots_at};
pub use reading::{Found, NO_SLOT, has_spare_header, read_catalogue};
