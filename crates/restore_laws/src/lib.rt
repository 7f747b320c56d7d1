//! What a restore makes of backups: the archives that are planned for a space build on one another, and merged they give its
//! pages at the position of the last.
#![tactic(auto)]

mod laws;

pub use laws::{a_planned_chain_gives_the_page, merged_archives_give_the_page};
