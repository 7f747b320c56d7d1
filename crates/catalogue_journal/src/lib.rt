//! The catalogue: what the service knows of its objects.
//!
//! A journal on a disk, in which each ended transaction stands whole or not at all, is folded into the live objects.
//! Each image of the disk that a crash within a commit leaves has the transactions that had ended before, or these and
//! the one that is committed. A refusal changes nothing.
#![tactic(auto)]

mod batch;
mod catalogue;
mod deletions;
mod ending;
mod entries;
mod formatting;

pub use catalogue::Catalogue;
pub use catalogue_replay::CatFault;
pub use catalogue_slots::ObjectEntry;
pub use entries::{NewObject, Staged};
pub use site_headers::{SiteHead, SpaceHead};
