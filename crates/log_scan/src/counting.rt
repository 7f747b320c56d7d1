//! The gates of the files held.
ghost use Rattle.std.specs.List.{AllByRecursion};
ghost use Rattle.std.specs.Prelude.{◌≡◌, ◌+◌, ◌-◌, ◌*◌, ◌≤◌, ◌<◌, length, slice_index, vec_len, vec_capacity, IsTrue, IfOk, IfErr, OnOk};
ghost use Rattle.site_disk.specs.Bytes.{extent, Same};
ghost use Rattle.site_disk.specs.Causes.{HasCause};
ghost use Rattle.site_disk.specs.Images.{Leaves, OnlyAfter, Unchanged};
ghost use Rattle.site_disk.specs.Ledger.{MayUse, Uses};
ghost use Rattle.gated_slots.specs.Slots.{used, used_of};
ghost use Rattle.log_files.specs.Ring.{area_of};
ghost use Rattle.log_files.specs.Answers.{IsFailure, FailsOn};
ghost use Rattle.log_scan.specs.Fronts.{counts_from};

use gated_slots::Slots;
use log_files::{LogFault, place_of, slots_of};
use site_disk::{Disk, Era, Failed};
use std::alloc::Global;

/// Where the gates of the first place begin, and the bytes of a place.
const GATES_AT: u64 = 8_192;

const PLACE_LEN: u64 = 33_024;

// The number of slots up to the last open gate.
fn last_open(gates: &[u8]) -> usize
    ensures used { result ≡ used_of gates.now }
    ensures few { result ≤ length gates.now }
{
    let mut used = 0;
    for (i, gate) in gates.iter().enumerate() {
        if *gate != 0 {
            used = i + 1;
        }
    }
    used
}

// How many slots of a place are used, as its gates say.
fn count_used<D: Disk>(
    disk: &mut D,
    era: &Era,
    place: u64,
    gates: &mut [u8],
) -> Result<usize, Failed>
    requires era { MayUse era.now (D.ledger disk.old) }
    requires place { place ≤ 7 }
    requires all { length gates.old ≡ 256 }
    ensures few { IfOk result (λ count. count ≤ 256) }
    ensures used { IsTrue D.is_modelled → IfOk result (λ count. count ≡ used_of (extent (8192 + 33024 * place) 256 (D.bytes disk.old))) }
    ensures bytes { OnOk result (D.bytes disk.new ≡ D.bytes disk.old) }
    ensures images { OnOk result (Unchanged (D.image disk.old) (D.image disk.new)) }
    ensures crash { Leaves era.now.number Same (D.image disk.old) (D.image disk.new) }
    ensures ledger { Uses era.now 256 0 (D.ledger disk.old) (D.ledger disk.new) }
    ensures cause { HasCause (D.ledger disk.old).faults (D.ledger disk.new).faults result }
{
    let found = disk.read_at(era, GATES_AT + PLACE_LEN * place, gates)?;
    Ok(last_open(&gates[..found]))
}

// How many slots each of some files uses, those from one on and before another. There is room for one count more.
fn count_files<D: Disk>(
    alloc: Global,
    disk: &mut D,
    era: &Era,
    oldest: u64,
    current: u64,
) -> Result<Vec<usize>, LogFault>
    requires era { MayUse era.now (D.ledger disk.old) }
    requires order { oldest ≤ current }
    requires few { current ≤ oldest + 7 }
    ensures count { IfOk result (λ counts. length counts.items ≡ current - oldest) }
    ensures room { IfOk result (λ counts. vec_len counts < vec_capacity counts) }
    ensures each { IfOk result (λ counts. AllByRecursion (λ count. count ≤ 256) counts.items) }
    ensures used { IsTrue D.is_modelled → IfOk result (λ counts. counts.items ≡ counts_from oldest (current - oldest) (D.bytes disk.old)) }
    ensures only { IfErr result IsFailure }
    ensures failed { IfErr result (FailsOn (D.ledger disk.old).faults (D.ledger disk.new).faults) }
    ensures bytes { OnOk result (D.bytes disk.new ≡ D.bytes disk.old) }
    ensures images { OnOk result (Unchanged (D.image disk.old) (D.image disk.new)) }
    ensures crash { Leaves era.now.number Same (D.image disk.old) (D.image disk.new) }
    ensures ledger { Uses era.now 1792 0 (D.ledger disk.old) (D.ledger disk.new) }
{
    let mut gates = [0; 256];
    let mut counts = Vec::with_capacity(alloc, (current - oldest) as usize + 1)?;
    for file in oldest..current {
        let count = count_used(disk, era, place_of(file), &mut gates)?;
        counts.push_reserved(count);
    }
    Ok(counts)
}

/// How many slots each file held uses, and the slots of the current one, after a sync.
pub(crate) fn open_counts<D: Disk>(
    alloc: Global,
    disk: &mut D,
    era: &Era,
    oldest: u64,
    current: u64,
) -> Result<(Vec<usize>, Slots), LogFault>
    requires era { MayUse era.now (D.ledger disk.old) }
    requires order { oldest ≤ current }
    requires few { current ≤ oldest + 7 }
    ensures count { IfOk result (λ found. length found.0.items ≡ current + 1 - oldest) }
    ensures each { IfOk result (λ found. AllByRecursion (λ count. count ≤ 256) found.0.items) }
    ensures used { IsTrue D.is_modelled → IfOk result (λ found. found.0.items ≡ counts_from oldest (current + 1 - oldest) (D.bytes disk.old)) }
    ensures area { IfOk result (λ found. found.1.area ≡ area_of current) }
    ensures last { IfOk result (λ found. slice_index found.0.items (current - oldest) ≡ found.1.used) }
    ensures only { IfErr result IsFailure }
    ensures failed { IfErr result (FailsOn (D.ledger disk.old).faults (D.ledger disk.new).faults) }
    ensures bytes { OnOk result (D.bytes disk.new ≡ D.bytes disk.old) }
    ensures durable { IsTrue D.is_modelled → OnOk result (OnlyAfter era.now.number (D.bytes disk.new) (D.image disk.new)) }
    ensures crash { Leaves era.now.number Same (D.image disk.old) (D.image disk.new) }
    ensures ledger { Uses era.now 2048 0 (D.ledger disk.old) (D.ledger disk.new) }
{
    let mut counts = count_files(alloc, disk, era, oldest, current)?;
    let mut slots = slots_of(current);
    slots.open(disk, era)?;
    counts.push_reserved(slots.used() as usize);
    Ok((counts, slots))
}
