//! The header pages of 4,096 bytes with which the disks of a site begin, and what the catalogue's fixes of the site.
//!
//! A page is read as a header exactly where it spells one, each byte of it, whatever byte but 0 its gate has. The
//! catalogue's header is that of one site at most. Writing takes no memory, and reading fails only by want of it.
#![tactic(auto)]

mod areas;
mod catalogue;
mod front;
mod heads;
mod kinds;
mod laws;
mod names;
mod plain;
mod sizes;
mod spaces;
#[cfg(test)]
mod tests;
mod volume;

pub use areas::{GATES_AT, LOG_SLOT_LEN, SLOTS, SLOTS_AT};
pub use catalogue::{read_catalogue_header, write_catalogue_header};
pub use heads::{SiteHead, SpaceHead};
pub use laws::{header_fills_its_page, header_is_the_first_page, one_catalogue_header};
pub use plain::{is_log_header, is_spare_header, write_log_header, write_spare_header};
pub use volume::{read_volume_header, write_volume_header};
