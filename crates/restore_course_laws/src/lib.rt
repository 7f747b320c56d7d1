//! Laws of the courses of restores: they make the moves of a restore, and of a restart of one.
#![tactic(auto)]

mod laws;

pub use laws::{
    a_restart_ends_or_is_refused_as_it_begins, a_restart_ends_the_restore,
    a_restart_makes_its_moves, a_restore_gives_the_pages_at_its_point, a_restore_makes_its_moves,
};
