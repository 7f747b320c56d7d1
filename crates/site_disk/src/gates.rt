// Gates: bytes that say whether what stands behind them counts.
ghost use Rattle.std.specs.Prelude.{◌≡◌, ◌≤◌, ◌↔◌, length, IsTrue, IfOk, OnOk};
ghost use Rattle.site_disk.specs.Bytes.{Torn, Same};
ghost use Rattle.site_disk.specs.Causes.{HasCause};
ghost use Rattle.site_disk.specs.Gates.{IsShut, shut, GateIsSynced, MayShut, ComeShut};
ghost use Rattle.site_disk.specs.Images.{Leaves, OnlyAfter, IsSynced, Unchanged};
ghost use Rattle.site_disk.specs.Ledger.{MayUse, Uses};
ghost use Rattle.site_disk.specs.Seen.{seen};

use crate::{Disk, Era, Failed, write_and_sync};

// Whether a gate is closed: its byte is there and is 0.
fn is_shut<D: Disk>(disk: &mut D, era: &Era, gate: u64) -> Result<bool, Failed>
    requires { MayUse era.now (D.ledger disk.old) }
    ensures found { IsTrue D.is_modelled → IfOk result (λ closed. IsTrue closed ↔ IsShut gate (D.bytes disk.old)) }
    ensures bytes { OnOk result (D.bytes disk.new ≡ D.bytes disk.old) }
    ensures images { OnOk result (Unchanged (D.image disk.old) (D.image disk.new)) }
    ensures crash { Leaves era.now.number Same (D.image disk.old) (D.image disk.new) }
    ensures ledger { Uses era.now 1 0 (D.ledger disk.old) (D.ledger disk.new) }
    ensures nothing { (D.ledger disk.new).written ≡ (D.ledger disk.old).written }
    ensures cause { HasCause (D.ledger disk.old).faults (D.ledger disk.new).faults result }
{
    let mut byte = [0];
    let found = disk.read_at(era, gate, &mut byte)?;
    Ok(found == 1 && byte[0] == 0)
}

/// Closes a gate: its byte is 0, and a sync stands behind it. Where it is 0 already, nothing is written, so that no
/// image opens what stands behind it.
pub fn close_gate<D: Disk>(disk: &mut D, era: &Era, gate: u64) -> Result<(), Failed>
    requires era { MayUse era.now (D.ledger disk.old) }
    requires within { IsTrue D.is_modelled → gate ≤ length (D.bytes disk.old) }

    ensures written { IsTrue D.is_modelled → OnOk result (D.bytes disk.new ≡ shut gate (D.bytes disk.old)) }
    // Where it's closed already nothing is written, so that images have to be known by then.
    ensures come { IsTrue D.is_modelled → GateIsSynced gate (seen D.Disk disk.old)
        → OnOk result (ComeShut gate era.now.number (D.image disk.old) (D.image disk.new)) }
    ensures durable { IsTrue D.is_modelled
        → (IsShut gate (D.bytes disk.old) → IsSynced (seen D.Disk disk.old))
        → OnOk result (OnlyAfter era.now.number (D.bytes disk.new) (D.image disk.new)) }
    ensures crash { IsTrue D.is_modelled → GateIsSynced gate (seen D.Disk disk.old)
        → Leaves era.now.number (MayShut gate) (D.image disk.old) (D.image disk.new) }
    ensures torn { Leaves era.now.number (Torn gate 1) (D.image disk.old) (D.image disk.new) }
    ensures still { IsTrue D.is_modelled → IsShut gate (D.bytes disk.old)
        → Leaves era.now.number Same (D.image disk.old) (D.image disk.new) }
    ensures kept { IsTrue D.is_modelled → IsShut gate (D.bytes disk.old)
        → OnOk result (Unchanged (D.image disk.old) (D.image disk.new)) }

    ensures ledger { Uses era.now 1 1 (D.ledger disk.old) (D.ledger disk.new) }
    ensures bound { IsTrue D.is_modelled → IsShut gate (D.bytes disk.old)
        → (D.ledger disk.new).written ≡ (D.ledger disk.old).written }
    ensures cause { HasCause (D.ledger disk.old).faults (D.ledger disk.new).faults result }
{
    let closed = is_shut(disk, era, gate)?;
    if closed {
        return Ok(());
    }
    write_and_sync(disk, era, gate, &[0])
}
