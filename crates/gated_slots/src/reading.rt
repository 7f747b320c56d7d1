// Reads of gates, in large pieces.
ghost use Rattle.std.specs.Prelude.{◌≡◌, ◌+◌, ◌<◌, ◌≤◌, ◌^◌, length, IsTrue, IfOk, OnOk};
ghost use Rattle.site_disk.specs.Bytes.{extent, Same};
ghost use Rattle.site_disk.specs.Causes.{HasCause};
ghost use Rattle.site_disk.specs.Images.{Leaves, Unchanged};
ghost use Rattle.site_disk.specs.Ledger.{MayUse, Uses};
ghost use Rattle.gated_slots.specs.Slots.{used_of};

use site_disk::{Disk, Era, Failed};

// The number of slots up to the last open gate.
fn last_open(gates: &[u8]) -> usize
    ensures { result ≡ used_of gates.now }
{
    let mut used = 0;
    for (i, gate) in gates.iter().enumerate() {
        if *gate != 0 {
            used = i + 1;
        }
    }
    used
}

// Reads the gates of some slots, and says how many of these slots are used.
fn read_gates<D: Disk>(disk: &mut D, era: &Era, at: u64, piece: &mut [u8]) -> Result<usize, Failed>
    requires { MayUse era.now (D.ledger disk.old) }
    ensures within { IfOk result (λ used. used ≤ length piece.old) }
    ensures used { IsTrue D.is_modelled
        → IfOk result (λ used. used ≡ used_of (extent at (length piece.old) (D.bytes disk.old))) }
    ensures bytes { OnOk result (D.bytes disk.new ≡ D.bytes disk.old) }
    ensures images { OnOk result (Unchanged (D.image disk.old) (D.image disk.new)) }
    ensures crash { Leaves era.now.number Same (D.image disk.old) (D.image disk.new) }
    ensures ledger { Uses era.now (length piece.old) 0 (D.ledger disk.old) (D.ledger disk.new) }
    ensures cause { HasCause (D.ledger disk.old).faults (D.ledger disk.new).faults result }
{
    let got = disk.read_at(era, at, piece)?;
    Ok(last_open(&piece[..got]))
}

/// The number of slots used, by their gates, which are read a buffer at a time.
pub(crate) fn count_used<D: Disk>(
    disk: &mut D,
    era: &Era,
    gates: u64,
    capacity: u32,
    buffer: &mut [u8],
) -> Result<u32, Failed>
    requires era { MayUse era.now (D.ledger disk.old) }
    requires fits { gates + capacity < 2 ^ 64 }
    requires some { 0 < length buffer.old }
    ensures within { IfOk result (λ used. used ≤ capacity) }
    ensures used { IsTrue D.is_modelled
        → IfOk result (λ used. used ≡ used_of (extent gates capacity (D.bytes disk.old))) }
    ensures bytes { OnOk result (D.bytes disk.new ≡ D.bytes disk.old) }
    ensures images { OnOk result (Unchanged (D.image disk.old) (D.image disk.new)) }
    ensures crash { Leaves era.now.number Same (D.image disk.old) (D.image disk.new) }
    ensures ledger { Uses era.now capacity 0 (D.ledger disk.old) (D.ledger disk.new) }
    ensures cause { HasCause (D.ledger disk.old).faults (D.ledger disk.new).faults result }
{
    let mut used = 0;
    let mut at = 0;
    while at < capacity {
        let n = buffer.len().min((capacity - at) as usize);
        let found = read_gates(disk, era, gates + at as u64, &mut buffer[..n])?;
        if found > 0 {
            used = at + found as u32;
        }
        at += n as u32;
    }
    Ok(used)
}
