// Writes by which a stop leaves all of a batch or nothing: the gate is written last, after a sync of its own.
ghost use Rattle.std.specs.Prelude.{◌≡◌, ◌+◌, ◌-◌, ◌<◌, ◌≤◌, min, length, IsTrue, OnOk};
ghost use Rattle.site_disk.specs.Bytes.{written, filled, Torn};
ghost use Rattle.site_disk.specs.Causes.{HasCause};
ghost use Rattle.site_disk.specs.Images.{Leaves, OnlyAfter};
ghost use Rattle.site_disk.specs.Ledger.{MayUse, Uses};
ghost use Rattle.gated_slots.specs.Slots.{Zeroes};
ghost use Rattle.gated_slots.specs.Writes.{with_batch, MayAdd};

use site_disk::{Disk, Era, Failed, extend_to, write_and_sync, write_zeros};

// A batch and its gate, each on the disk before the next step. Apart from `add_batch`, so that what a stop leaves is
// proved where no zero bytes come first.
fn put_batch<D: Disk>(
    disk: &mut D,
    era: &Era,
    at: u64,
    batch: &[u8],
    gate: u64,
) -> Result<(), Failed>
    requires era { MayUse era.now (D.ledger disk.old) }
    requires within { IsTrue D.is_modelled → at ≤ length (D.bytes disk.old) }
    requires gate { gate ≤ at }
    ensures bytes { IsTrue D.is_modelled
        → OnOk result (D.bytes disk.new ≡ with_batch at batch.now gate (D.bytes disk.old)) }
    ensures durable { IsTrue D.is_modelled
        → OnOk result (OnlyAfter era.now.number (D.bytes disk.new) (D.image disk.new)) }
    ensures crash { IsTrue D.is_modelled
        → Leaves era.now.number (MayAdd at batch.now gate) (D.image disk.old) (D.image disk.new) }
    ensures ledger { Uses era.now 0 (length batch.now + 1) (D.ledger disk.old) (D.ledger disk.new) }
    ensures cause { HasCause (D.ledger disk.old).faults (D.ledger disk.new).faults result }
{
    write_and_sync(disk, era, at, batch)?;
    write_and_sync(disk, era, gate, &[1])
}

/// Adds a batch and its gate, after zero bytes up to the batch's place where the disk doesn't reach it.
pub(crate) fn add_batch<D: Disk>(
    disk: &mut D,
    era: &Era,
    at: u64,
    batch: &[u8],
    gate: u64,
) -> Result<(), Failed>
    requires era { MayUse era.now (D.ledger disk.old) }
    requires gate { gate ≤ at }
    ensures bytes { IsTrue D.is_modelled
        → OnOk result (D.bytes disk.new ≡ with_batch at batch.now gate (filled at (D.bytes disk.old))) }
    ensures reaches { IsTrue D.is_modelled → OnOk result (at + length batch.now ≤ length (D.bytes disk.new)) }
    ensures durable { IsTrue D.is_modelled
        → OnOk result (OnlyAfter era.now.number (D.bytes disk.new) (D.image disk.new)) }
    ensures crash { IsTrue D.is_modelled → at ≤ length (D.bytes disk.old)
        → Leaves era.now.number (MayAdd at batch.now gate) (D.image disk.old) (D.image disk.new) }
    ensures ledger { Uses era.now 0 (at + length batch.now + 1) (D.ledger disk.old) (D.ledger disk.new) }
    ensures bound { IsTrue D.is_modelled → at ≤ length (D.bytes disk.old)
        → (D.ledger disk.new).written ≤ (D.ledger disk.old).written + length batch.now + 1 }
    ensures cause { HasCause (D.ledger disk.old).faults (D.ledger disk.new).faults result }
{
    extend_to(disk, era, at)?;
    put_batch(disk, era, at, batch, gate)
}

/// Zero bytes from a place on, or from the disk's end where that is before it, up to another place, and a sync.
pub(crate) fn zero_up_to<D: Disk>(disk: &mut D, era: &Era, from: u64, to: u64) -> Result<(), Failed>
    requires era { MayUse era.now (D.ledger disk.old) }
    requires order { from ≤ to }
    ensures zeros { IsTrue D.is_modelled
        → OnOk result (Zeroes (min from (length (D.bytes disk.old))) to (D.bytes disk.old) (D.bytes disk.new)) }
    ensures durable { IsTrue D.is_modelled
        → OnOk result (OnlyAfter era.now.number (D.bytes disk.new) (D.image disk.new)) }
    ensures crash { IsTrue D.is_modelled
        → let first = min from (length (D.bytes disk.old)) in Leaves era.now.number (Torn first (to - first))
        (D.image disk.old) (D.image disk.new) }
    ensures ledger { Uses era.now 0 to (D.ledger disk.old) (D.ledger disk.new) }
    ensures bound { IsTrue D.is_modelled → from ≤ length (D.bytes disk.old)
        → (D.ledger disk.new).written ≤ (D.ledger disk.old).written + (to - from) }
    ensures cause { HasCause (D.ledger disk.old).faults (D.ledger disk.new).faults result }
{
    let len = disk.len()?;
    write_zeros(disk, era, from.min(len), to)?;
    disk.sync(era)
}
