//! The writes of the boot file: the mark's record, and a batch of lines.
ghost use Rattle.std.specs.Prelude.{◌≡◌, ◌+◌, ◌*◌, ◌/◌, ◌%◌, ◌<◌, ◌≤◌, length, IsTrue, OnOk, OnErr};
ghost use Rattle.site_disk.specs.Causes.{HasCause};
ghost use Rattle.site_disk.specs.Images.{Leaves, OnlyAfter, IsSynced};
ghost use Rattle.site_disk.specs.Ledger.{MayUse, Uses};
ghost use Rattle.site_disk.specs.Seen.{seen};
ghost use Rattle.gated_slots.specs.Slots.{place_of, Gains, MayGain, Agrees as SlotsAgree, Reaches};
ghost use Rattle.twin_mark.specs.Marks.{Knows, Stores, MayStore};
ghost use Rattle.boot_lines.specs.MarkLayout.{active_in, spelling as mark_spelling};

use boot_lines::BootMark;
use gated_slots::Slots;
use site_disk::{Disk, Era, Failed};
use twin_mark::Mark;

/// Puts a record into the mark.
pub(crate) fn store_record<D: Disk>(
    disk: &mut D,
    era: &Era,
    mark: &mut Mark,
    state: &BootMark,
) -> Result<(), Failed>
    requires era { MayUse era.now (D.ledger disk.old) }
    requires base { mark.old.base ≡ 4096 }
    ensures base { mark.new.base ≡ mark.old.base }
    ensures value { OnErr result (mark.new ≡ mark.old) }
    ensures stored { IsTrue D.is_modelled → Knows mark.old (D.bytes disk.old)
        → OnOk result (Stores 4096 (mark_spelling state.now.last_number (active_in state.now.restore)) (D.bytes disk.old) (D.bytes disk.new)) }
    ensures knows { IsTrue D.is_modelled → Knows mark.old (D.bytes disk.old) → OnOk result (Knows mark.new (D.bytes disk.new)) }
    ensures durable { IsTrue D.is_modelled → OnOk result (OnlyAfter era.now.number (D.bytes disk.new) (D.image disk.new)) }
    ensures crash { IsTrue D.is_modelled → Knows mark.old (D.bytes disk.old) → IsSynced (seen D.Disk disk.old)
        → Leaves era.now.number (MayStore 4096 (mark_spelling state.now.last_number (active_in state.now.restore))) (D.image disk.old) (D.image disk.new) }
    ensures ledger { Uses era.now 1 4866 (D.ledger disk.old) (D.ledger disk.new) }
    ensures bound { IsTrue D.is_modelled → Knows mark.old (D.bytes disk.old)
        → (D.ledger disk.new).written ≤ (D.ledger disk.old).written + 258 }
    ensures cause { HasCause (D.ledger disk.old).faults (D.ledger disk.new).faults result }
{
    let mut bytes = [0; 255];
    state.encode_into(&mut bytes);
    mark.store(disk, era, &bytes)
}

/// Appends the bytes of a batch for which there are slots.
pub(crate) fn append_bytes<D: Disk>(
    slots: &mut Slots,
    disk: &mut D,
    era: &Era,
    batch: &[u8],
) -> Result<(), Failed>
    requires era { MayUse era.now (D.ledger disk.old) }
    requires size { slots.old.area.size ≡ 128 }
    requires whole { length batch.now % 128 ≡ 0 }
    requires some { 0 < length batch.now }
    requires room { slots.old.used + length batch.now / 128 ≤ slots.old.area.capacity }
    ensures used { OnOk result (slots.new ≡ record slots.old { used = slots.old.used + length batch.now / 128 }) }
    ensures value { OnErr result (slots.new ≡ slots.old) }
    ensures gained { IsTrue D.is_modelled → Reaches slots.old (D.bytes disk.old) → SlotsAgree slots.old (seen D.Disk disk.old)
        → OnOk result (Gains slots.old.area (length batch.now / 128) batch.now (D.bytes disk.old) (D.bytes disk.new)) }
    ensures durable { IsTrue D.is_modelled → OnOk result (OnlyAfter era.now.number (D.bytes disk.new) (D.image disk.new)) }
    ensures crash { IsTrue D.is_modelled → Reaches slots.old (D.bytes disk.old) → SlotsAgree slots.old (seen D.Disk disk.old)
        → Leaves era.now.number (MayGain slots.old.area (length batch.now / 128) batch.now) (D.image disk.old) (D.image disk.new) }
    ensures ledger { Uses era.now 0 (place_of slots.old.area slots.old.used + length batch.now + 1) (D.ledger disk.old) (D.ledger disk.new) }
    ensures bound { IsTrue D.is_modelled → Reaches slots.old (D.bytes disk.old)
        → (D.ledger disk.new).written ≤ (D.ledger disk.old).written + length batch.now + 1 }
    ensures cause { HasCause (D.ledger disk.old).faults (D.ledger disk.new).faults result }
{
    match slots.append(disk, era, batch) {
        Ok(_) => Ok(()),
        Err(_) => Err(Failed),
    }
}
