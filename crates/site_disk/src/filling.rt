// Zero bytes, up to a place that a disk doesn't reach.
ghost use Rattle.std.specs.Prelude.{◌≡◌, ◌+◌, ◌-◌, ◌<◌, ◌≤◌, length, min, replicate, IsTrue, OnOk};
ghost use Rattle.site_disk.specs.Bytes.{written, filled, Torn};
ghost use Rattle.site_disk.specs.Causes.{HasCause};
ghost use Rattle.site_disk.specs.Images.{Leaves, Unchanged};
ghost use Rattle.site_disk.specs.Ledger.{MayUse, Uses};

use crate::{Disk, Era, Failed};

// What is written where zero bytes are wanted.
static ZEROS: [u8; 4096] = [0; 4096];

// Writes zero bytes from one place up to another, a piece of `zeros` at a time: a parameter, since the prover reads a
// static's bytes only where it stands whole.
fn put_zeros<D: Disk>(
    disk: &mut D,
    era: &Era,
    from: u64,
    to: u64,
    zeros: &[u8],
) -> Result<(), Failed>
    requires era { MayUse era.now (D.ledger disk.old) }
    requires within { IsTrue D.is_modelled → from ≤ length (D.bytes disk.old) }
    requires order { from ≤ to }
    requires some { 0 < length zeros.now }
    requires zeros { zeros.now ≡ replicate (length zeros.now) 0 }
    ensures bytes { IsTrue D.is_modelled
        → OnOk result (D.bytes disk.new ≡ written from (replicate (to - from) 0) (D.bytes disk.old)) }
    ensures crash { Leaves era.now.number (Torn from (to - from)) (D.image disk.old) (D.image disk.new) }
    ensures ledger { Uses era.now 0 (to - from) (D.ledger disk.old) (D.ledger disk.new) }
    ensures cause { HasCause (D.ledger disk.old).faults (D.ledger disk.new).faults result }
{
    let mut at = from;
    while at < to {
        let n = (to - at).min(zeros.len() as u64) as usize;
        disk.write_at(era, at, &zeros[..n])?;
        at += n as u64;
    }
    Ok(())
}

/// Writes zero bytes from one place up to another, in pieces of 4,096 bytes.
pub fn write_zeros<D: Disk>(disk: &mut D, era: &Era, from: u64, to: u64) -> Result<(), Failed>
    requires era { MayUse era.now (D.ledger disk.old) }
    requires within { IsTrue D.is_modelled → from ≤ length (D.bytes disk.old) }
    requires order { from ≤ to }
    ensures bytes { IsTrue D.is_modelled
        → OnOk result (D.bytes disk.new ≡ written from (replicate (to - from) 0) (D.bytes disk.old)) }
    ensures crash { Leaves era.now.number (Torn from (to - from)) (D.image disk.old) (D.image disk.new) }
    ensures ledger { Uses era.now 0 (to - from) (D.ledger disk.old) (D.ledger disk.new) }
    ensures cause { HasCause (D.ledger disk.old).faults (D.ledger disk.new).faults result }
{
    put_zeros(disk, era, from, to, &ZEROS)
}

/// Fills with zero bytes up to a place that the disk doesn't reach; where it reaches it, nothing is written.
pub fn extend_to<D: Disk>(disk: &mut D, era: &Era, place: u64) -> Result<(), Failed>
    requires era { MayUse era.now (D.ledger disk.old) }
    ensures filled { IsTrue D.is_modelled → OnOk result (D.bytes disk.new ≡ filled place (D.bytes disk.old)) }
    ensures reaches { IsTrue D.is_modelled → OnOk result (place ≤ length (D.bytes disk.new)) }
    ensures bytes { IsTrue D.is_modelled → place ≤ length (D.bytes disk.old) → D.bytes disk.new ≡ D.bytes disk.old }
    ensures images { IsTrue D.is_modelled → place ≤ length (D.bytes disk.old)
        → Unchanged (D.image disk.old) (D.image disk.new) }
    ensures crash { IsTrue D.is_modelled → let first = min place (length (D.bytes disk.old)) in
        Leaves era.now.number (Torn first (place - first)) (D.image disk.old) (D.image disk.new) }
    ensures spent { IsTrue D.is_modelled
        → Uses era.now 0 (place - length (D.bytes disk.old)) (D.ledger disk.old) (D.ledger disk.new) }
    ensures ledger { Uses era.now 0 place (D.ledger disk.old) (D.ledger disk.new) }
    ensures cause { HasCause (D.ledger disk.old).faults (D.ledger disk.new).faults result }
{
    let len = disk.len()?;
    if len >= place {
        return Ok(());
    }
    write_zeros(disk, era, len, place)
}
