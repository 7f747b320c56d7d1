//! The store of a backup's bytes: objects sent piece by piece into blocks of a volume.
//!
//! From its end on, until it is released, an object is found again, in each image of later eras, as exactly the bytes
//! that were sent, with their size and their SHA-256. A stop while another object is sent, or while it is ended, leaves
//! the bytes in the blocks of the live objects as they were. A piece is refused exactly where a free block is lacking for it, and then nothing of it is taken.
#![tactic(auto)]

mod checking;
mod faults;
mod laws;
mod reading;
mod sending;
mod volume;
mod writing;

pub use faults::{SendFault, Sent, Soundness, VolumeFault};
pub use laws::{live_blocks_are_apart, spared_objects_read_the_same};
pub use reading::Cursor;
pub use volume::Volume;

#[cfg(test)]
mod tests;
