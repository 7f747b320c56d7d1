//! The disks of a site, and the streams that commands read and print.
//!
//! A crash falls in one era, and leaves of each disk one image of that era: each range written since the last sync
//! may then hold any bytes. After a sync that succeeds, images of later eras are what a read gives until the next
//! write. A call answers `Failed` only where the count of faults rose. A disk, a source and a sink in memory keep all
//! of this, and fail where they are told to or memory runs out.
#![tactic(auto)]

mod disk;
mod era;
mod faults;
mod filling;
mod gates;
mod memory;
mod streams;
mod syncing;

pub use disk::Disk;
pub use era::Era;
pub use faults::{Failed, OutOfMemory};
pub use filling::{extend_to, write_zeros};
pub use gates::close_gate;
pub use memory::{Choice, MemDisk, MemSink, MemSource};
pub use streams::{Sink, Source};
pub use syncing::write_and_sync;
