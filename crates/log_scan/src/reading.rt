//! The log's disk read.
ghost use Rattle.std.specs.Prelude.{◌≡◌, ◌⊎◌, ◌+◌, ◌*◌, ◌-◌, ◌^◌, ◌≤◌, ℕ, length, IsTrue, IfOk, IfErr, OnOk, IsErrOf, IfSome, IfNone};
ghost use Rattle.std.specs.List.{AllByRecursion};
ghost use Rattle.site_disk.specs.Bytes.{Same};
ghost use Rattle.site_disk.specs.Images.{IsSynced, Leaves, OnlyAfter, Unchanged};
ghost use Rattle.site_disk.specs.Ledger.{MayUse, Uses};
ghost use Rattle.site_disk.specs.Seen.{seen};
ghost use Rattle.gated_slots.specs.Slots.{end_of_gates};
ghost use Rattle.log_mark.specs.Layout.{IsMark};
ghost use Rattle.log_files.specs.Files.{LogFiles, AreFiles};
ghost use Rattle.log_files.specs.Held.{IsHeld, Tells};
ghost use Rattle.log_files.specs.Ring.{area_of};
ghost use Rattle.log_files.specs.Answers.{IsFailure, FailsOn};
ghost use Rattle.log_scan.specs.Slots.{StopsIn};
ghost use Rattle.log_scan.specs.Fronts.{Names, counts_on};
ghost use Rattle.log_files.specs.Files.{total};
ghost use Rattle.log_scan.specs.Filing.{HasTaken, HasFiles, IsStopped};
ghost use Rattle.log_scan.specs.Refusals.{IsDecided, IsNotLost, IsBadFront, IsBadSlot, Refuses};
ghost use Rattle.log_scan.specs.Scans.{IsCounted, IsFound, IsFoundOn, IsBehind};

use crate::counting::open_counts;
use crate::filing::read_file;
use crate::front::{has_header, load_record, names};
use gated_slots::Slots;
use log_files::{HeldFiles, LogFault, MARK_AT, NO_SLOT, place_of};
use log_mark::LogMark;
use site_disk::{Disk, Era};
use std::alloc::Global;
use twin_mark::Mark;

/// Where the slots of the first place begin, and the bytes of a place.
const SLOTS_AT: u64 = 8_448;

const PLACE_LEN: u64 = 33_024;

const BAD_FRONT: LogFault = LogFault::BadRecord { slot: NO_SLOT };

// Reads the records of the current file, which is empty so far.
fn take_records<D: Disk>(
    alloc: Global,
    disk: &mut D,
    era: &Era,
    held: &mut HeldFiles,
    count: usize,
) -> Result<(), LogFault>
    requires era { MayUse era.now (D.ledger disk.old) }
    requires held { IsHeld held.old }
    requires empty { held.old.next ≡ held.old.first }
    requires few { count ≤ 256 }
    requires positions { held.old.next + count ≤ 2 ^ 48 + 1 }
    ensures taken { (files : LogFiles) → Tells files held.old
        → OnOk result (HasTaken D.is_modelled files count (D.bytes disk.old) held.new) }
    ensures bad { IsTrue D.is_modelled → (number : ℕ) → IsErrOf result (LogFault.BadRecord number)
        → StopsIn held.old.first held.old.mark.current count (D.bytes disk.old) number }
    ensures only { IfErr result IsNotLost }
    ensures failed { IfErr result (FailsOn (D.ledger disk.old).faults (D.ledger disk.new).faults) }
    ensures bytes { OnOk result (D.bytes disk.new ≡ D.bytes disk.old) }
    ensures images { OnOk result (Unchanged (D.image disk.old) (D.image disk.new)) }
    ensures kept { IfErr result (λ fault. IsDecided fault → D.bytes disk.new ≡ D.bytes disk.old) }
    ensures crash { Leaves era.now.number Same (D.image disk.old) (D.image disk.new) }
    ensures ledger { Uses era.now (128 * count) 0 (D.ledger disk.old) (D.ledger disk.new) }
{
    if count == 0 {
        return Ok(());
    }
    let records = read_file(alloc, disk, era, held.mark.current, held.first, count)?;
    held.reserve()?;
    held.append(&records);
    Ok(())
}

// Reads the records of the files that a record of the mark names, with these counts.
fn read_files<D: Disk>(
    alloc: Global,
    disk: &mut D,
    era: &Era,
    marked: &LogMark,
    counts: &[usize],
) -> Result<HeldFiles, LogFault>
    requires era { MayUse era.now (D.ledger disk.old) }
    requires fits { IsMark marked.now }
    requires names { Names marked.now counts.now }
    requires each { AllByRecursion (λ count. count ≤ 256) counts.now }
    ensures files { IfOk result (HasFiles D.is_modelled marked.now counts.now (D.bytes disk.old)) }
    ensures bad { IsTrue D.is_modelled → counts.now ≡ counts_on marked.now (D.bytes disk.old)
        → (number : ℕ) → IsErrOf result (LogFault.BadRecord number) → IsStopped marked.now (D.bytes disk.old) number }
    ensures only { IfErr result IsNotLost }
    ensures failed { IfErr result (FailsOn (D.ledger disk.old).faults (D.ledger disk.new).faults) }
    ensures bytes { OnOk result (D.bytes disk.new ≡ D.bytes disk.old) }
    ensures images { OnOk result (Unchanged (D.image disk.old) (D.image disk.new)) }
    ensures kept { IfErr result (λ fault. IsDecided fault → D.bytes disk.new ≡ D.bytes disk.old) }
    ensures crash { Leaves era.now.number Same (D.image disk.old) (D.image disk.new) }
    ensures ledger { Uses era.now (128 * total counts.now) 0 (D.ledger disk.old) (D.ledger disk.new) }
{
    let first = marked.firsts[place_of(marked.oldest) as usize];
    let mut held = HeldFiles::new(alloc, marked.oldest, first, marked.before);
    take_records(alloc, disk, era, &mut held, counts[0])?;
    for count in &counts[1..] {
        held.open_next();
        take_records(alloc, disk, era, &mut held, *count)?;
    }
    held.mark = *marked;
    Ok(held)
}

// How many slots each file held uses, and the slots of the current one. `None` where the front isn't in the grammar.
fn read_counts<D: Disk>(
    alloc: Global,
    disk: &mut D,
    era: &Era,
    marked: &LogMark,
) -> Result<Option<(Vec<usize>, Slots)>, LogFault>
    requires era { MayUse era.now (D.ledger disk.old) }
    requires fits { IsMark marked.now }
    ensures found { IfOk result (λ found. IfSome found (λ counted. IsCounted marked.now counted.0.items counted.1)) }
    ensures counts { IsTrue D.is_modelled → IfOk result (λ found. IfSome found (λ counted.
        (counted.0.items ≡ counts_on marked.now (D.bytes disk.old)) × (end_of_gates (area_of marked.now.current) ≤ length (D.bytes disk.old)))) }
    ensures none { IsTrue D.is_modelled → IfOk result (λ found. IfNone found
        (Names marked.now (counts_on marked.now (D.bytes disk.old)) → end_of_gates (area_of marked.now.current) ≤ length (D.bytes disk.old) → ⊥)) }
    ensures only { IfErr result IsFailure }
    ensures failed { IfErr result (FailsOn (D.ledger disk.old).faults (D.ledger disk.new).faults) }
    ensures bytes { OnOk result (D.bytes disk.new ≡ D.bytes disk.old) }
    ensures durable { IsTrue D.is_modelled → OnOk result (OnlyAfter era.now.number (D.bytes disk.new) (D.image disk.new)) }
    ensures crash { Leaves era.now.number Same (D.image disk.old) (D.image disk.new) }
    ensures ledger { Uses era.now 2048 0 (D.ledger disk.old) (D.ledger disk.new) }
{
    let (counts, slots) = open_counts(alloc, disk, era, marked.oldest, marked.current)?;
    let slots_at = SLOTS_AT + PLACE_LEN * place_of(marked.current);
    if disk.len()? < slots_at || !names(marked, &counts) {
        return Ok(None);
    }
    Ok(Some((counts, slots)))
}

/// What the log's disk holds: its mark, the slots of the current file, and what is known of the files.
#[derive(Drop)]
pub struct Found {
    pub mark: Mark,
    pub slots: Slots,
    pub held: HeldFiles,
}

// Reads what stands behind the header.
fn read_held<D: Disk>(alloc: Global, disk: &mut D, era: &Era) -> Result<Found, LogFault>
    requires era { MayUse era.now (D.ledger disk.old) }
    ensures found { IfOk result IsFound }
    ensures holds { IsTrue D.is_modelled → IsSynced (seen D.Disk disk.old) → IfOk result (IsBehind (D.bytes disk.old)) }
    ensures bad { IsTrue D.is_modelled → (number : ℕ) → IsErrOf result (LogFault.BadRecord number)
        → IsBadFront (D.bytes disk.old) number ⊎ IsBadSlot (D.bytes disk.old) number }
    ensures only { IfErr result IsNotLost }
    ensures failed { IfErr result (FailsOn (D.ledger disk.old).faults (D.ledger disk.new).faults) }
    ensures bytes { OnOk result (D.bytes disk.new ≡ D.bytes disk.old) }
    ensures durable { IsTrue D.is_modelled → OnOk result (OnlyAfter era.now.number (D.bytes disk.new) (D.image disk.new)) }
    ensures kept { IfErr result (λ fault. IsDecided fault → D.bytes disk.new ≡ D.bytes disk.old) }
    ensures crash { Leaves era.now.number Same (D.image disk.old) (D.image disk.new) }
    ensures ledger { Uses era.now 264960 0 (D.ledger disk.old) (D.ledger disk.new) }
{
    let mut mark = Mark::new(MARK_AT);
    let Some(marked) = load_record(disk, era, &mut mark)? else {
        return Err(BAD_FRONT);
    };
    let Some((counts, slots)) = read_counts(alloc, disk, era, &marked)? else {
        return Err(BAD_FRONT);
    };
    let held = read_files(alloc, disk, era, &marked, &counts)?;
    Ok(Found { mark, slots, held })
}

/// Reads the log of a site, after a sync. The header is looked at first, then the mark and the gates of the files held, then
/// their slots used, in order of file, each once and those of a file in one read.
///
/// `LogLost`: the header isn't a valid one of the site. `BadRecord`: the mark isn't in the grammar, with what the gates say
/// of the files that it names, or this slot is the first one that isn't.
pub fn read_ring<D: Disk>(
    alloc: Global,
    disk: &mut D,
    era: &Era,
    site: u64,
) -> Result<Found, LogFault>
    requires era { MayUse era.now (D.ledger disk.old) }

    ensures found { IfOk result IsFound }
    ensures holds { IsTrue D.is_modelled → IfOk result (IsFoundOn site (D.bytes disk.old)) }
    ensures durable { IsTrue D.is_modelled → OnOk result (OnlyAfter era.now.number (D.bytes disk.new) (D.image disk.new)) }
    // The first place that isn't as it should be.
    ensures refused { IsTrue D.is_modelled → IfErr result (λ fault. IsFailure fault ⊎ Refuses site (D.bytes disk.old) fault) }
    ensures failed { IfErr result (FailsOn (D.ledger disk.old).faults (D.ledger disk.new).faults) }

    // Nothing is written.
    ensures bytes { OnOk result (D.bytes disk.new ≡ D.bytes disk.old) }
    ensures kept { IfErr result (λ fault. IsDecided fault → D.bytes disk.new ≡ D.bytes disk.old) }
    ensures crash { Leaves era.now.number Same (D.image disk.old) (D.image disk.new) }
    ensures ledger { Uses era.now 269056 0 (D.ledger disk.old) (D.ledger disk.new) }
{
    disk.sync(era)?;
    if !has_header(disk, era, site)? {
        return Err(LogFault::LogLost);
    }
    read_held(alloc, disk, era)
}
