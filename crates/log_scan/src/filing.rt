//! The records of a file.
ghost use Rattle.std.specs.Prelude.{◌≡◌, ◌+◌, ◌*◌, ◌<◌, ◌≤◌, ℕ, length, IsTrue, IfOk, IfErr, OnOk, IsErrOf};
ghost use Rattle.std.specs.List.{flat_map};
ghost use Rattle.log_record.specs.Entry.{history_of};
ghost use Rattle.log_record.specs.Layout.{spelling};
ghost use Rattle.site_disk.specs.Bytes.{extent, Same};
ghost use Rattle.site_disk.specs.Images.{Leaves, Unchanged};
ghost use Rattle.site_disk.specs.Ledger.{MayUse, Uses};
ghost use Rattle.log_files.specs.Files.{FitFile};
ghost use Rattle.log_files.specs.Ring.{area_of};
ghost use Rattle.log_files.specs.Answers.{FailsOn};
ghost use Rattle.log_scan.specs.Slots.{StopsIn};
ghost use Rattle.log_scan.specs.Refusals.{IsDecided, IsNotLost};

use crate::decoding::{SLOT_LEN, decode_all};
use log_files::{LogFault, place_of};
use log_record::Record;
use site_disk::{Disk, Era};
use std::alloc::Global;

/// Where the slots of the first place begin, and the bytes of a place.
const SLOTS_AT: u64 = 8_448;

const PLACE_LEN: u64 = 33_024;

/// Reads the first slots of a file, so many of them and all in one read, and answers their records. The first position of
/// the file is `first`.
///
/// `BadRecord` names the first of these slots that holds no record which may stand there.
pub fn read_file<D: Disk>(
    alloc: Global,
    disk: &mut D,
    era: &Era,
    file: u64,
    first: u64,
    count: usize,
) -> Result<Vec<Record>, LogFault>
    requires era { MayUse era.now (D.ledger disk.old) }
    requires few { count ≤ 256 }

    ensures count { IfOk result (λ records. length records.items ≡ count) }
    ensures fits { IfOk result (λ records. FitFile first (history_of records.items)) }
    ensures spelled { IsTrue D.is_modelled → IfOk result (λ records.
        extent (area_of file).slots (128 * count) (D.bytes disk.old) ≡ flat_map spelling (history_of records.items)) }
    ensures bad { IsTrue D.is_modelled → (number : ℕ) → IsErrOf result (LogFault.BadRecord number)
        → StopsIn first file count (D.bytes disk.old) number }
    ensures only { IfErr result IsNotLost }
    ensures failed { IfErr result (FailsOn (D.ledger disk.old).faults (D.ledger disk.new).faults) }

    ensures bytes { OnOk result (D.bytes disk.new ≡ D.bytes disk.old) }
    ensures images { OnOk result (Unchanged (D.image disk.old) (D.image disk.new)) }
    ensures kept { IfErr result (λ fault. IsDecided fault → D.bytes disk.new ≡ D.bytes disk.old) }
    ensures crash { Leaves era.now.number Same (D.image disk.old) (D.image disk.new) }
    ensures ledger { Uses era.now (128 * count) 0 (D.ledger disk.old) (D.ledger disk.new) }
{
    let place = place_of(file);
    let mut bytes = vec![in alloc; 0; SLOT_LEN * count]?;
    let found = disk.read_at(era, SLOTS_AT + PLACE_LEN * place, &mut bytes)?;
    decode_all(alloc, place as u32, first, count, &bytes[..found])
}
