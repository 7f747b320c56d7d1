//! The store of a site as a whole: made over its disks, synced, formatted, and opened.
//!
//! A store is the catalogue, with its spare disk, and 17 volumes. It is opened exactly where each disk is as it should be,
//! the catalogue first and then the volumes in order; else the first that isn't is named. Opening writes nothing.
#![tactic(auto)]

mod faults;
mod formatting;
mod laws;
mod live;
mod making;
mod opening;
mod syncing;

pub use faults::{StoreDisk, StoreFault};
pub use formatting::format_store;
pub use laws::{a_store_agrees_later, an_open_store_holds_its_objects};
pub use making::{VOLUMES, new_store};
pub use opening::{open_store, open_volumes};
pub use syncing::sync_store;
