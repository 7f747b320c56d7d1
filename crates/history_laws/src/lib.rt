//! Laws of the history of a log, for restores: what is live, what a Reset goes back to, what later records leave as it is,
//! and how the pages at one position come from those at another.
#![tactic(auto)]

mod laws;

pub use laws::{
    a_live_position_lies_on_the_way, a_reset_goes_back_to_its_target, an_unstamped_page_stands,
    later_records_change_nothing_before, no_stamp_lies_ahead, what_is_live_at_a_live_position,
};
