//! What the opening of a store says of a site: its disks show the store of a fit site, and then it is opened as that.
//!
//! Definitions and laws alone.
#![tactic(auto)]

mod laws;

pub use laws::a_shown_store_is_opened;
