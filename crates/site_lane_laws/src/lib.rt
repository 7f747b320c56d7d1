//! What the lanes' values do, in the words of a site: what an opening finds, and how lanes go on to the end of the log.
#![tactic(auto)]

mod laws;

pub use laws::{
    an_opening_is_refused_by_the_first_lost_lane, an_opening_leaves_the_lane,
    lanes_come_to_the_end, lanes_go_on_along_their_ways, opened_lanes_agree,
};
