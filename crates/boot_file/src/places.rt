//! The places on the boot file's disk.
ghost use Rattle.std.specs.Prelude.{◌≡◌};
ghost use Rattle.boot_file.specs.Places.{lines_area};

use gated_slots::Slots;
use site_headers::{GATES_AT, SLOTS, SLOTS_AT};

/// Where the mark begins, behind the header page.
pub(crate) const MARK_AT: u64 = 4_096;

/// The bytes of a slot.
const SLOT_LEN: u32 = 128;

/// What stands for a slot where the header or the mark isn't as it should be, or the disk ends before the slots.
pub const NO_SLOT: u32 = u32::MAX;

/// The slots of the lines.
pub(crate) fn line_slots() -> Slots
    ensures area { result.area ≡ lines_area }
    ensures used { result.used ≡ 0 }
{
    Slots::new(GATES_AT, SLOTS_AT, SLOT_LEN, SLOTS)
}
