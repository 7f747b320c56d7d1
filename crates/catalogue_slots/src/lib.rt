//! The slots of the catalogue, 4,096 bytes each: which records of its journal they hold, and what an object takes.
//!
//! Each record has one spelling. A slot is read exactly where it spells a record, each byte of it, and an object is
//! written as its Add and the Mores behind it. Writing takes no memory, and reading fails only by want of it.
#![tactic(auto)]

mod entry;
mod front;
mod laws;
mod reading;
mod runs;
mod slot;
mod writing;

pub use entry::ObjectEntry;
pub use laws::{an_object_has_its_records, one_record};
pub use slot::{SLOT_LEN, Slot};
pub use writing::{slots_for, write_del, write_entry};

#[cfg(test)]
mod tests;
