//! What the held files of a fit site's log tell of all of its history: the open transactions, and what its lanes lack.
//!
//! Definitions and laws alone.
#![tactic(auto)]

mod laws;

pub use laws::{
    held_files_give_the_open_transactions, held_files_give_what_a_lane_lacks,
    no_held_begin_is_refused, what_is_read_lies_in_pages_of_its_space,
};
