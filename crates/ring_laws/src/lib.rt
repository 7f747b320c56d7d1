//! Laws of the log of a site: the files that its disk holds, as the layers of the log have them.
//!
//! Definitions and laws alone.
#![tactic(auto)]

mod laws;

pub use laws::{
    a_fit_site_holds_files_that_may_be_held, a_move_of_the_log_is_its_step,
    the_answer_on_room_is_that_of_the_whole_history, the_bytes_of_a_log_tell_its_files,
    what_a_stop_leaves_is_on_the_way, what_is_held_ends_with_the_history,
};
