//! The places on the catalogue's disks.
ghost use Rattle.std.specs.Prelude.{◌≡◌, ◌≤◌};
ghost use Rattle.catalogue_replay.specs.Places.{area_of};

use gated_slots::Slots;
use site_headers::{GATES_AT, SLOTS_AT};

/// Where the mark begins, behind the header page.
pub const MARK_AT: u64 = 4_096;

/// The slots of a disk of the catalogue.
pub fn slots_at(capacity: u32) -> Slots
    requires some { 2 ≤ capacity }
    requires few { capacity ≤ 65536 }
    ensures area { result.area ≡ area_of capacity }
    ensures used { result.used ≡ 0 }
{
    Slots::new(GATES_AT, SLOTS_AT, 4096, capacity)
}
