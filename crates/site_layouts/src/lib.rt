//! What each disk of a whole site shows of a world, and that a move of one disk leaves apart what the others show.
//!
//! Definitions and laws alone.
#![tactic(auto)]

mod laws;

pub use laws::{
    a_call_of_the_boot_file_makes_its_move, a_call_of_the_log_makes_its_moves,
    a_catalogue_shows_its_store, a_catalogue_tells_what_it_shows, a_chunk_shows_its_own_lane,
    a_formatted_disk_shows_a_new_site, a_lane_at_a_place_is_shown, a_lane_goes_on_by_its_places,
    a_lane_has_its_header_and_pages, a_lane_that_agrees_shows_it,
    a_lane_that_is_shown_can_be_opened, a_log_tells_what_it_holds, a_mark_fills_its_slot,
    a_mark_tells_its_state, a_move_leaves_the_others_apart,
    a_move_of_worlds_leaves_the_others_apart, a_place_fits_its_mark, a_sound_object_is_found_sound,
    a_volume_with_new_objects_shows_them, an_opening_leaves_the_lane_shown,
    free_blocks_show_nothing,
};
