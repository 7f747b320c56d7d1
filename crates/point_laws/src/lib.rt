//! Laws of the point of a restore: the position that it comes to, by the whole log and by what is known of its files.
#![tactic(auto)]

mod laws;

pub use laws::what_is_found_is_the_position;
