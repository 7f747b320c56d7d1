//! Lines added to a site's boot file: a move of the site by itself.
#![tactic(auto)]

mod adding;

pub use adding::add_lines;
