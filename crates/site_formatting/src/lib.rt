//! A site formatted: all its disks but the catalogue's header in one era, and that header in the next.
//!
//! The header is what makes it a formatted site. Wherever the call stops, none stands in any crash image, or the new
//! site stands whole.
#![tactic(auto)]

mod disks;
mod faults;
mod formatting;
mod lanes;

pub use formatting::format_site;
