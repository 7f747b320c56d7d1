//! Stories of a site: commands that end or stop anywhere, and what befalls it between them. Each world of a story is fit, and
//! what was backed up stays. A restore that is restarted until none is under way leaves in every space the pages at its position.
#![tactic(auto)]

mod laws;

pub use laws::{
    a_done_restore_has_the_pages, a_restart_goes_on, a_restore_begins,
    a_restore_gives_the_pages_at_its_position, a_restore_is_restarted, a_restore_may_be_stopped,
    each_world_of_a_story_is_fit, the_log_only_grows, what_befalls_a_site_leaves_it_fit,
    what_was_backed_up_stays,
};
