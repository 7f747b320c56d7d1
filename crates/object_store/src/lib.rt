//! The store of the service: the catalogue and the volumes, and what sessions do to both.
//!
//! An object is found by its copy id, and read from the volume that has its blocks. Blocks of objects that are given up
//! go back behind the free ones of their volumes, in order, and nothing is written for it.
#![tactic(auto)]

mod ending;
mod finding;
mod reading;
mod releasing;
mod store;

pub use finding::find_object;
pub use reading::{check_object, read_object};
pub use releasing::{ObjectBlocks, blocks_of_objects, release_additions, release_blocks};
pub use store::Store;
