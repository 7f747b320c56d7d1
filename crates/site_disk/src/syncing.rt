// A write and a sync as one call.
ghost use Rattle.std.specs.Prelude.{◌≡◌, ◌≤◌, length, IsTrue, OnOk};
ghost use Rattle.site_disk.specs.Bytes.{written, Torn};
ghost use Rattle.site_disk.specs.Causes.{HasCause};
ghost use Rattle.site_disk.specs.Images.{Leaves, OnlyAfter};
ghost use Rattle.site_disk.specs.Ledger.{MayUse, Uses};

use crate::{Disk, Era, Failed};

/// Writes a piece and syncs, so that at Ok it stands.
pub fn write_and_sync<D: Disk>(disk: &mut D, era: &Era, at: u64, piece: &[u8]) -> Result<(), Failed>
    requires era { MayUse era.now (D.ledger disk.old) }
    requires within { IsTrue D.is_modelled → at ≤ length (D.bytes disk.old) }
    ensures bytes { IsTrue D.is_modelled → OnOk result (D.bytes disk.new ≡ written at piece.now (D.bytes disk.old)) }
    ensures durable { IsTrue D.is_modelled → OnOk result (OnlyAfter era.now.number (D.bytes disk.new) (D.image disk.new)) }
    ensures crash { Leaves era.now.number (Torn at (length piece.now)) (D.image disk.old) (D.image disk.new) }
    ensures ledger { Uses era.now 0 (length piece.now) (D.ledger disk.old) (D.ledger disk.new) }
    ensures synced { OnOk result ((D.ledger disk.new).synced ≡ era.now.number) }
    ensures cause { HasCause (D.ledger disk.old).faults (D.ledger disk.new).faults result }
{
    disk.write_at(era, at, piece)?;
    disk.sync(era)
}
