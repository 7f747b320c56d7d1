//! The places on the log's disk.
ghost use Rattle.std.specs.Prelude.{◌≡◌, ◌%◌};
ghost use Rattle.log_files.specs.Ring.{area_of};

use gated_slots::Slots;

/// Where the mark begins, behind the header page.
pub const MARK_AT: u64 = 4_096;

/// Where the first place begins, and the bytes of each.
const PLACES_AT: u64 = 8_192;

const PLACE_LEN: u64 = 33_024;

/// The slots of a place, each of which has a gate.
pub const PLACE_SLOTS: u32 = 256;

/// The bytes of a slot.
const SLOT_LEN: u32 = 128;

/// What stands for a slot where the mark, or what belongs to it, isn't in the grammar.
pub const NO_SLOT: u32 = u32::MAX;

/// The place of a file.
pub fn place_of(file: u64) -> u64
    ensures { result ≡ file % 8 }
{
    file % 8
}

/// The slots of a file.
pub fn slots_of(file: u64) -> Slots
    ensures area { result.area ≡ area_of file }
    ensures used { result.used ≡ 0 }
{
    let gates = PLACES_AT + PLACE_LEN * place_of(file);
    Slots::new(gates, gates + u64::from(PLACE_SLOTS), SLOT_LEN, PLACE_SLOTS)
}
