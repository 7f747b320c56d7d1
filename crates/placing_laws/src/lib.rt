//! Laws of the objects that backups add: each stands in blocks that no live object has, and may be added.
#![tactic(auto)]

mod laws;

pub use laws::{a_new_object_may_be_added, a_new_object_stands_in_free_blocks};
