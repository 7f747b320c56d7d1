//! Before-images: pages of a disk kept as they stand before they are changed, and put back after a stop.
//!
//! Each image that a crash in a `save` leaves keeps what was kept before, nothing, or the pages as they stood. Once they
//! are saved, whatever these pages hold since, `put_back` gives the bytes as they were then; it may be stopped and done
//! again. A `save` changes nothing outside of its region, and a `put_back` nothing outside of the region and the pages.
#![tactic(auto)]

mod images;
mod laws;
mod lists;
mod pages;
mod putting;
mod saving;

pub use images::Images;
pub use laws::{
    another_place_keeps_its_pages, only_pages_are_put_back, restored_pages_agree,
    saved_pages_come_back, torn_pages_stay_within,
};

#[cfg(test)]
mod tests;
