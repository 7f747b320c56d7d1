//! Calls of a site's log that are moves of the site by themselves: the current file closed, and a file marked as backed up.
#![tactic(auto)]

mod calls;

pub use calls::{close_current_file, mark_file_backed_up};
