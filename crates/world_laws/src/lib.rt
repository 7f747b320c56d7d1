//! Laws of the worlds of a site: each move that may be made leaves a fit site, wherever it is stopped.
#![tactic(auto)]

mod laws;

pub use laws::{a_move_keeps_a_site_fit, a_new_site_is_fit, a_way_is_fit, a_way_of_worlds_is_fit};
