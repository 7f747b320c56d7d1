//! A site: its disks, and the values that work on them.
//!
//! Each call that writes has one clause: from each fit site for which the values stand it passes sites of its course alone,
//! wherever it is stopped, and at its end it has done that course.
#![tactic(auto)]

mod appending;
mod checkpointing;
mod faults;
mod lanes;
mod laws;
mod site;
#[cfg(test)]
mod tests;

pub use faults::SiteFault;
pub use laws::{
    a_batch_is_appended_by_the_answer_on_room, no_batch_loses_a_lane,
    the_log_answers_for_the_whole_history, the_next_file_has_positions,
};
pub use site::{Site, SiteDisks};
