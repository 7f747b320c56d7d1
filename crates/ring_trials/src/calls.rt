//! Calls of a ring that its answers allow.
ghost use Rattle.std.specs.Prelude.{◌≡◌, ◌≤◌, false, length, OnOk};
ghost use Rattle.std.specs.List.{AllByRecursion};
ghost use Rattle.log_record.specs.Entry.{history_of};
ghost use Rattle.log_record.specs.Layout.{IsRecord};
ghost use Rattle.log_files.specs.Files.{is_reset};
ghost use Rattle.site_disk.specs.Ledger.{MayUse};
ghost use Rattle.site_disk.specs.MemDisk.{disk_ledger};
ghost use Rattle.logical_log.specs.Rings.{IsMade, IsOpen, disk_of};

use log_record::Record;
use logical_log::{LogFault, LogRing, Room};
use site_disk::{Era, MemDisk};

/// Appends records to the current file. False where they don't fit.
pub(crate) fn append(
    ring: &mut LogRing<MemDisk>,
    era: &Era,
    batch: &[Record],
) -> Result<bool, LogFault>
    requires may { MayUse era.now (disk_ledger (disk_of ring.old)) }
    requires opened { IsOpen ring.old }
    requires some { 1 ≤ length batch.now }
    requires few { length batch.now ≤ 256 }
    requires records { AllByRecursion IsRecord (history_of batch.now) }
    requires plain { AllByRecursion (λ entry. is_reset entry ≡ false) (history_of batch.now) }
    ensures may { MayUse era.now (disk_ledger (disk_of ring.new)) }
    ensures made { IsMade ring.new }
    ensures opened { OnOk result (IsOpen ring.new) }
{
    if ring.room(batch.len() as u32, None) != Room::Fits {
        return Ok(false);
    }
    ring.append(era, batch)?;
    Ok(true)
}

/// Makes the next file the current one. False where it isn't wanted for a record.
pub(crate) fn open_next(ring: &mut LogRing<MemDisk>, era: &Era) -> Result<bool, LogFault>
    requires may { MayUse era.now (disk_ledger (disk_of ring.old)) }
    requires opened { IsOpen ring.old }
    ensures may { MayUse era.now (disk_ledger (disk_of ring.new)) }
    ensures made { IsMade ring.new }
    ensures opened { OnOk result (IsOpen ring.new) }
{
    let Room::Next { drops: _ } = ring.room(1, None) else {
        return Ok(false);
    };
    ring.open_next(era)?;
    Ok(true)
}

/// Closes the current file. False where that is done or it is empty.
pub(crate) fn close(ring: &mut LogRing<MemDisk>, era: &Era) -> Result<bool, LogFault>
    requires may { MayUse era.now (disk_ledger (disk_of ring.old)) }
    requires opened { IsOpen ring.old }
    ensures may { MayUse era.now (disk_ledger (disk_of ring.new)) }
    ensures made { IsMade ring.new }
    ensures opened { OnOk result (IsOpen ring.new) }
{
    Ok(ring.close_current(era)?)
}

/// Marks the first file that isn't backed up. False where none is closed.
pub(crate) fn back_up(ring: &mut LogRing<MemDisk>, era: &Era) -> Result<bool, LogFault>
    requires may { MayUse era.now (disk_ledger (disk_of ring.old)) }
    requires opened { IsOpen ring.old }
    ensures may { MayUse era.now (disk_ledger (disk_of ring.new)) }
    ensures made { IsMade ring.new }
    ensures opened { OnOk result (IsOpen ring.new) }
{
    let Some(file) = ring.next_to_back_up() else {
        return Ok(false);
    };
    ring.mark_backed_up(era, file)?;
    Ok(true)
}

/// Writes a Reset to position 1. False where not all is backed up, or no record is there.
pub(crate) fn reset(ring: &mut LogRing<MemDisk>, era: &Era) -> Result<bool, LogFault>
    requires may { MayUse era.now (disk_ledger (disk_of ring.old)) }
    requires opened { IsOpen ring.old }
    ensures may { MayUse era.now (disk_ledger (disk_of ring.new)) }
    ensures made { IsMade ring.new }
    ensures opened { OnOk result (IsOpen ring.new) }
{
    let end = ring.end();
    if !ring.is_saved() || end < 1 || end > 1_000 {
        return Ok(false);
    }
    ring.reset(era, 1, 1, 9)?;
    Ok(true)
}
