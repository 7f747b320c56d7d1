//! The held files read.
ghost use Rattle.std.specs.Prelude.{◌≡◌, ◌+◌, ◌*◌, ◌-◌, ◌%◌, ◌≤◌, ◌^◌, ℕ, suc, List, length, map, IsTrue, None, IfOk, IfErr, IsErrOf, OnOk};
ghost use Rattle.log_history.specs.History.{LogEntry};
ghost use Rattle.site_disk.specs.Bytes.{Same};
ghost use Rattle.site_disk.specs.Images.{Leaves, Unchanged};
ghost use Rattle.site_disk.specs.Ledger.{MayUse, Uses};
ghost use Rattle.site_disk.specs.Causes.{Rose};
ghost use Rattle.site_disk.specs.Seen.{seen};
ghost use Rattle.txn_table.specs.Table.{change_of};
ghost use Rattle.log_files.specs.Files.{LogFiles, end_of, records_of};
ghost use Rattle.logical_log.specs.Rings.{disk_of, with_disk, IsOpen, Stands, TellsOf};
ghost use Rattle.held_log.specs.Answers.{IsRefusal};
ghost use Rattle.held_log.specs.Logs.{AreChanges, changes_held, table_held};
ghost use Rattle.held_log.specs.Readers.{FileIs, HasTaken};
ghost use Rattle.held_log.specs.Strays.{FirstStray, first_stray};

use crate::reader::Reader;
use crate::{HeldFault, HeldLog};
use logical_log::LogRing;
use site_disk::{Disk, Era};
use std::alloc::Global;
use txn_table::Open;

// Reads the records of a file, the first of which has this position.
fn read_next<D: Disk>(
    log: &mut LogRing<D>,
    era: &Era,
    reader: &mut Reader,
    file: u64,
    first: u64,
) -> Result<(), HeldFault>
    requires era { MayUse era.now (D.ledger (disk_of log.old)) }
    requires opened { IsOpen log.old }
    requires position { first ≤ 2 ^ 48 + 1 }
    ensures opened { IsOpen log.new }
    ensures told { (files : LogFiles) → TellsOf files log.old → TellsOf files log.new }
    ensures stands { IsTrue D.is_modelled → (site : ℕ) (files : LogFiles) → Stands site files (seen D.Disk (disk_of log.old)) log.old
        → OnOk result (Stands site files (seen D.Disk (disk_of log.new)) log.new) }
    ensures taken { IsTrue D.is_modelled → (site : ℕ) (files : LogFiles) → Stands site files (seen D.Disk (disk_of log.old)) log.old
        → (before : ℕ) (past : List LogEntry) → HasTaken before past reader.old → first ≡ before + suc (length past)
        → FileIs before past (256 * (file % 8)) (records_of files file) reader.new result }
    ensures failed { IsErrOf result HeldFault.Failed → Rose (D.ledger (disk_of log.old)).faults (D.ledger (disk_of log.new)).faults }
    ensures value { log.new ≡ with_disk log.old (disk_of log.new) }
    ensures bytes { OnOk result (D.bytes (disk_of log.new) ≡ D.bytes (disk_of log.old)) }
    ensures kept { IfErr result (λ fault. IsRefusal fault → D.bytes (disk_of log.new) ≡ D.bytes (disk_of log.old)) }
    ensures images { OnOk result (Unchanged (D.image (disk_of log.old)) (D.image (disk_of log.new))) }
    ensures crash { Leaves era.now.number Same (D.image (disk_of log.old)) (D.image (disk_of log.new)) }
    ensures ledger { Uses era.now 32768 0 (D.ledger (disk_of log.old)) (D.ledger (disk_of log.new)) }
{
    let records = log.records(era, file)?;
    reader.take_file(file, first, &records)
}

/// Reads the records of the files held, file by file, each once: the transactions that are open at the end, and the changes
/// in effect there.
///
/// A record of a transaction that isn't open is passed over: that began in a file that isn't held. `BadRecord`: a Begin that
/// the open transactions don't allow, the first one in order.
pub fn read_changes<D: Disk>(
    alloc: Global,
    log: &mut LogRing<D>,
    era: &Era,
) -> Result<HeldLog, HeldFault>
    requires era { MayUse era.now (D.ledger (disk_of log.old)) }
    requires opened { IsOpen log.old }

    ensures table { IsTrue D.is_modelled → (site : ℕ) (files : LogFiles) → Stands site files (seen D.Disk (disk_of log.old)) log.old
        → IfOk result (λ held. held.open ≡ table_held files) }
    ensures changes { IsTrue D.is_modelled → (site : ℕ) (files : LogFiles) → Stands site files (seen D.Disk (disk_of log.old)) log.old
        → IfOk result (λ held. map change_of held.changes.items ≡ changes_held files) }
    // What these are good for.
    ensures good { IsTrue D.is_modelled → (site : ℕ) (files : LogFiles) → Stands site files (seen D.Disk (disk_of log.old)) log.old
        → IfOk result (λ held. AreChanges (end_of files) (map change_of held.changes.items)) }
    ensures few { IsTrue D.is_modelled → (site : ℕ) (files : LogFiles) → Stands site files (seen D.Disk (disk_of log.old)) log.old
        → IfOk result (λ held. length held.changes.items ≤ 2048) }
    // It is refused exactly by the first Begin that isn't allowed.
    ensures in_order { IsTrue D.is_modelled → (site : ℕ) (files : LogFiles) → Stands site files (seen D.Disk (disk_of log.old)) log.old
        → OnOk result (first_stray files ≡ None) }
    ensures refused { IsTrue D.is_modelled → (site : ℕ) (files : LogFiles) (slot : ℕ) → Stands site files (seen D.Disk (disk_of log.old)) log.old
        → IsErrOf result (HeldFault.BadRecord slot) → FirstStray files slot }
    ensures failed { IsErrOf result HeldFault.Failed → Rose (D.ledger (disk_of log.old)).faults (D.ledger (disk_of log.new)).faults }

    // Nothing is written, and the value stays.
    ensures opened { IsOpen log.new }
    ensures told { (files : LogFiles) → TellsOf files log.old → TellsOf files log.new }
    ensures stands { IsTrue D.is_modelled → (site : ℕ) (files : LogFiles) → Stands site files (seen D.Disk (disk_of log.old)) log.old
        → OnOk result (Stands site files (seen D.Disk (disk_of log.new)) log.new) }
    ensures value { log.new ≡ with_disk log.old (disk_of log.new) }
    ensures bytes { OnOk result (D.bytes (disk_of log.new) ≡ D.bytes (disk_of log.old)) }
    ensures kept { IfErr result (λ fault. IsRefusal fault → D.bytes (disk_of log.new) ≡ D.bytes (disk_of log.old)) }
    ensures images { OnOk result (Unchanged (D.image (disk_of log.old)) (D.image (disk_of log.new))) }
    ensures crash { Leaves era.now.number Same (D.image (disk_of log.old)) (D.image (disk_of log.new)) }
    ensures ledger { Uses era.now 262144 0 (D.ledger (disk_of log.old)) (D.ledger (disk_of log.new)) }
{
    let mut reader = Reader::new(alloc);
    for i in 0..log.files().len() {
        let span = log.files()[i];
        read_next(log, era, &mut reader, span.file, span.first)?;
    }
    Ok(reader.finish(log.end()))
}

/// Reads the records of the files held, as `read_changes` does: the transactions that are open at the end.
pub fn read_open<D: Disk>(alloc: Global, log: &mut LogRing<D>, era: &Era) -> Result<Open, HeldFault>
    requires era { MayUse era.now (D.ledger (disk_of log.old)) }
    requires opened { IsOpen log.old }

    ensures table { IsTrue D.is_modelled → (site : ℕ) (files : LogFiles) → Stands site files (seen D.Disk (disk_of log.old)) log.old
        → IfOk result (λ running. running ≡ table_held files) }
    ensures in_order { IsTrue D.is_modelled → (site : ℕ) (files : LogFiles) → Stands site files (seen D.Disk (disk_of log.old)) log.old
        → OnOk result (first_stray files ≡ None) }
    ensures refused { IsTrue D.is_modelled → (site : ℕ) (files : LogFiles) (slot : ℕ) → Stands site files (seen D.Disk (disk_of log.old)) log.old
        → IsErrOf result (HeldFault.BadRecord slot) → FirstStray files slot }
    ensures failed { IsErrOf result HeldFault.Failed → Rose (D.ledger (disk_of log.old)).faults (D.ledger (disk_of log.new)).faults }

    // Nothing is written, and the value stays.
    ensures opened { IsOpen log.new }
    ensures told { (files : LogFiles) → TellsOf files log.old → TellsOf files log.new }
    ensures stands { IsTrue D.is_modelled → (site : ℕ) (files : LogFiles) → Stands site files (seen D.Disk (disk_of log.old)) log.old
        → OnOk result (Stands site files (seen D.Disk (disk_of log.new)) log.new) }
    ensures value { log.new ≡ with_disk log.old (disk_of log.new) }
    ensures bytes { OnOk result (D.bytes (disk_of log.new) ≡ D.bytes (disk_of log.old)) }
    ensures kept { IfErr result (λ fault. IsRefusal fault → D.bytes (disk_of log.new) ≡ D.bytes (disk_of log.old)) }
    ensures images { OnOk result (Unchanged (D.image (disk_of log.old)) (D.image (disk_of log.new))) }
    ensures crash { Leaves era.now.number Same (D.image (disk_of log.old)) (D.image (disk_of log.new)) }
    ensures ledger { Uses era.now 262144 0 (D.ledger (disk_of log.old)) (D.ledger (disk_of log.new)) }
{
    let held = read_changes(alloc, log, era)?;
    Ok(held.open)
}
