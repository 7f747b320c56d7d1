//! The way of a lane: the changes of its space that are in effect at a position, in order, the places on it, and the steps along it.
//!
//! Definitions and laws alone: which pages a place has, that a batch leaves them so, that the cut behind each step is a place which
//! lays what is laid, and how places are ordered. All of it is said of any position that a way leads to: the end of the log, and the
//! position of a restore. And what a chunk shows of a lane, while a step goes on.
#![tactic(auto)]

mod laws;

pub use laws::{
    a_batch_only_adds_to_the_way, a_cut_is_a_place, a_live_position_has_its_pages,
    a_place_lies_on_the_way, a_step_goes_on_behind_its_front, a_step_takes_what_it_can,
    a_stop_within_a_step_leaves_a_place, all_changes_laid_give_the_pages,
    behind_a_step_stands_its_place, changes_bring_their_pages_further,
    commits_elsewhere_move_nothing, cuts_are_in_order, the_rest_is_what_lies_behind,
    the_way_ends_where_it_leads,
};
