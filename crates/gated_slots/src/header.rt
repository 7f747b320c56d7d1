// The header page of a disk: its gate, the first byte, is written last, after a sync of the rest.
ghost use Rattle.std.specs.Prelude.{◌≡◌, ◌+◌, ◌≤◌, ◌↔◌, [], ◌∷◌, length, drop, IsTrue, IfOk, OnOk};
ghost use Rattle.site_disk.specs.Bytes.{extent, written, Same};
ghost use Rattle.site_disk.specs.Causes.{HasCause};
ghost use Rattle.site_disk.specs.Images.{Leaves, OnlyAfter, IsSynced, Unchanged};
ghost use Rattle.site_disk.specs.Ledger.{MayUse, Uses};
ghost use Rattle.site_disk.specs.Seen.{seen};
ghost use Rattle.gated_slots.specs.Header.{IsHeader, IsClosed, ClosedAfter, StandsClosed, MayClose, MayOpen};

use crate::writing::add_batch;
use site_disk::{Disk, Era, Failed, close_gate};

/// Reads the header. True exactly where the disk has 4,096 bytes and the first isn't 0.
pub fn header_read<D: Disk>(disk: &mut D, era: &Era, into: &mut [u8; 4096]) -> Result<bool, Failed>
    requires { MayUse era.now (D.ledger disk.old) }

    ensures header { IsTrue D.is_modelled → IfOk result (λ found. IsTrue found ↔ IsHeader (D.bytes disk.old)) }
    ensures page { IsTrue D.is_modelled
        → IfOk result (λ found. IsTrue found → into.new ≡ extent 0 4096 (D.bytes disk.old)) }

    ensures bytes { OnOk result (D.bytes disk.new ≡ D.bytes disk.old) }
    ensures images { OnOk result (Unchanged (D.image disk.old) (D.image disk.new)) }
    ensures crash { Leaves era.now.number Same (D.image disk.old) (D.image disk.new) }

    ensures ledger { Uses era.now 4096 0 (D.ledger disk.old) (D.ledger disk.new) }
    ensures cause { HasCause (D.ledger disk.old).faults (D.ledger disk.new).faults result }
{
    read_page(disk, era, into)
}

// `header_read` over a slice, as the prover knows ranges of slices alone.
fn read_page<D: Disk>(disk: &mut D, era: &Era, into: &mut [u8]) -> Result<bool, Failed>
    requires era { MayUse era.now (D.ledger disk.old) }
    requires page { length into.old ≡ 4096 }
    ensures header { IsTrue D.is_modelled → IfOk result (λ found. IsTrue found ↔ IsHeader (D.bytes disk.old)) }
    ensures page { IsTrue D.is_modelled
        → IfOk result (λ found. IsTrue found → into.new ≡ extent 0 4096 (D.bytes disk.old)) }
    ensures bytes { OnOk result (D.bytes disk.new ≡ D.bytes disk.old) }
    ensures images { OnOk result (Unchanged (D.image disk.old) (D.image disk.new)) }
    ensures crash { Leaves era.now.number Same (D.image disk.old) (D.image disk.new) }
    ensures ledger { Uses era.now 4096 0 (D.ledger disk.old) (D.ledger disk.new) }
    ensures cause { HasCause (D.ledger disk.old).faults (D.ledger disk.new).faults result }
{
    let found = disk.read_at(era, 0, into)?;
    Ok(found == into.len() && into[0] != 0)
}

/// Closes the header: its first byte is 0, and a sync stands behind it. Where it is 0 already, nothing is written.
pub fn header_close<D: Disk>(disk: &mut D, era: &Era) -> Result<(), Failed>
    requires { MayUse era.now (D.ledger disk.old) }

    ensures written { IsTrue D.is_modelled → OnOk result (D.bytes disk.new ≡ written 0 (0 ∷ []) (D.bytes disk.old)) }
    // Where it's closed already nothing is written, so that it has to be so in every image, or on the disk, by then.
    ensures closed { IsTrue D.is_modelled
        → (IsClosed (D.bytes disk.old) → ClosedAfter (seen D.Disk disk.old))
        → OnOk result (StandsClosed (seen D.Disk disk.new)) }
    ensures durable { IsTrue D.is_modelled
        → (IsClosed (D.bytes disk.old) → IsSynced (seen D.Disk disk.old))
        → OnOk result (OnlyAfter era.now.number (D.bytes disk.new) (D.image disk.new)) }
    ensures kept { IsTrue D.is_modelled → IsClosed (D.bytes disk.old)
        → OnOk result (Unchanged (D.image disk.old) (D.image disk.new)) }
    ensures crash { Leaves era.now.number MayClose (D.image disk.old) (D.image disk.new) }
    ensures still { IsTrue D.is_modelled → IsClosed (D.bytes disk.old)
        → Leaves era.now.number Same (D.image disk.old) (D.image disk.new) }

    ensures ledger { Uses era.now 1 1 (D.ledger disk.old) (D.ledger disk.new) }
    ensures bound { IsTrue D.is_modelled → IsClosed (D.bytes disk.old)
        → (D.ledger disk.new).written ≡ (D.ledger disk.old).written }
    ensures cause { HasCause (D.ledger disk.old).faults (D.ledger disk.new).faults result }
{
    close_gate(disk, era, 0)
}

/// Writes a header over a closed one: the page's other bytes, a sync, 1 as its first byte, a sync.
pub fn header_open<D: Disk>(disk: &mut D, era: &Era, page: &[u8; 4096]) -> Result<(), Failed>
    requires { MayUse era.now (D.ledger disk.old) }

    ensures written { IsTrue D.is_modelled
        → OnOk result (D.bytes disk.new ≡ written 0 (1 ∷ drop 1 page.now) (D.bytes disk.old)) }
    ensures durable { IsTrue D.is_modelled
        → OnOk result (OnlyAfter era.now.number (D.bytes disk.new) (D.image disk.new)) }
    ensures crash { IsTrue D.is_modelled → StandsClosed (seen D.Disk disk.old)
        → Leaves era.now.number (MayOpen page.now) (D.image disk.old) (D.image disk.new) }

    ensures ledger { Uses era.now 0 4097 (D.ledger disk.old) (D.ledger disk.new) }
    ensures bound { IsTrue D.is_modelled → IsClosed (D.bytes disk.old)
        → (D.ledger disk.new).written ≤ (D.ledger disk.old).written + 4096 }
    ensures cause { HasCause (D.ledger disk.old).faults (D.ledger disk.new).faults result }
{
    open_page(disk, era, page)
}

// `header_open` over a slice, as the prover knows ranges of slices alone.
fn open_page<D: Disk>(disk: &mut D, era: &Era, page: &[u8]) -> Result<(), Failed>
    requires era { MayUse era.now (D.ledger disk.old) }
    requires page { length page.now ≡ 4096 }
    ensures written { IsTrue D.is_modelled
        → OnOk result (D.bytes disk.new ≡ written 0 (1 ∷ drop 1 page.now) (D.bytes disk.old)) }
    ensures durable { IsTrue D.is_modelled
        → OnOk result (OnlyAfter era.now.number (D.bytes disk.new) (D.image disk.new)) }
    ensures crash { IsTrue D.is_modelled → StandsClosed (seen D.Disk disk.old)
        → Leaves era.now.number (MayOpen page.now) (D.image disk.old) (D.image disk.new) }
    ensures ledger { Uses era.now 0 4097 (D.ledger disk.old) (D.ledger disk.new) }
    ensures bound { IsTrue D.is_modelled → IsClosed (D.bytes disk.old)
        → (D.ledger disk.new).written ≤ (D.ledger disk.old).written + 4096 }
    ensures cause { HasCause (D.ledger disk.old).faults (D.ledger disk.new).faults result }
{
    add_batch(disk, era, 1, &page[1..], 0)
}
