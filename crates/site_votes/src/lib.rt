//! One object of a site: sent to its volume, and voted on.
//!
//! The whole transaction is one move of the site, the vote's. Where it is refused no move is made, and where a fault cuts it
//! short each crash image has the object whole or nothing of it.
#![tactic(auto)]

mod faults;
mod sending;
mod voting;

pub use voting::vote_on_object;
