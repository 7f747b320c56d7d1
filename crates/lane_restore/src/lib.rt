//! A lane on its way through a restore: it is emptied, the images of its chain are merged in their order, and then the log is replayed.
//!
//! A job owns its lane and its volume, and works on nothing else. Wherever a call stops, the chunk shows the state before it, one that
//! the lane passes on its way, or the one behind the call; images that are merged aren't read again. No call takes memory.
#![tactic(auto)]

mod images;
mod job;
mod laws;
mod marking;
mod merging;
mod preparing;
mod reading;
mod replaying;
mod stepping;

pub use backup_lines::{Chain, LaneState};
pub use job::{ImageJob, LaneEnd, LaneJob};
pub use laws::{
    an_archive_gives_its_pages, an_emptied_chunk_has_no_image, an_image_is_taken,
    merged_pages_stand,
};
pub use preparing::prepare;
pub use replaying::{finish, step_replay};
pub use stepping::step_image;
