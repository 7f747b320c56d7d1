//! What of the log is needed for a restore: the archives of a planned chain and the needed files give the pages at the position.
#![tactic(auto)]

mod laws;

pub use laws::{archives_and_the_needed_log_give_the_page, what_is_read_gives_the_changes};
