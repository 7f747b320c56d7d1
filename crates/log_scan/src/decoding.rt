//! Records in the slots of a file.
ghost use Rattle.std.specs.Prelude.{◌≡◌, ◌+◌, ◌*◌, ◌/◌, ◌%◌, ◌<◌, ◌≤◌, ◌↔◌, ℕ, length, IsTrue, IfOk, IfErr, IsErrOf, IfSome, IfNone};
ghost use Rattle.std.specs.List.{flat_map};
ghost use Rattle.site_disk.specs.Bytes.{extent};
ghost use Rattle.log_history.specs.History.{LogEntry};
ghost use Rattle.log_record.specs.Entry.{entry_of, history_of};
ghost use Rattle.log_record.specs.Layout.{IsRecord, spelling};
ghost use Rattle.log_files.specs.Files.{FitFile};
ghost use Rattle.log_scan.specs.Slots.{MayStand};
ghost use Rattle.log_scan.specs.Runs.{StopsAt, IsSlotOrMemory};

use log_files::LogFault;
use log_record::Record;
use std::alloc::Global;

/// The bytes of a slot.
pub(crate) const SLOT_LEN: usize = 128;

// Whether a record may stand in a slot of the file whose first position this is.
fn may_stand(first: u64, slot: usize, entry: &Record) -> bool
    ensures { IsTrue result ↔ MayStand first slot (entry_of entry.now) }
{
    match entry {
        Record::Reset { target, .. } => slot == 0 && *target < first,
        _ => true,
    }
}

// The bytes of a slot. `None` where it isn't whole.
fn slot_in(bytes: &[u8], slot: usize) -> Option<[u8; SLOT_LEN]>
    requires { slot < 256 }
    ensures found { IfSome result (λ page. page ≡ extent (128 * slot) 128 bytes.now) }
    ensures none { IfNone result (length bytes.now < 128 * slot + 128) }
{
    let at = SLOT_LEN * slot;
    if bytes.len() < at + SLOT_LEN {
        return None;
    }
    let mut page = [0; SLOT_LEN];
    page.copy_from_slice(&bytes[at..at + SLOT_LEN]);
    Some(page)
}

// The record in the bytes of a slot, which may stand there.
fn record_in(page: &[u8; SLOT_LEN], first: u64, slot: usize) -> Option<Record>
    ensures found { IfSome result (λ r. IsRecord (entry_of r) × MayStand first slot (entry_of r) × (page.now ≡ spelling (entry_of r))) }
    ensures none { IfNone result ((entry : LogEntry) → IsRecord entry → MayStand first slot entry → page.now ≡ spelling entry → ⊥) }
{
    match Record::decode(page)? {
        entry if may_stand(first, slot, &entry) => Some(entry),
        _ => None,
    }
}

// The record in a slot, which may stand there.
fn record_at(bytes: &[u8], first: u64, slot: usize) -> Option<Record>
    requires { slot < 256 }
    ensures found { IfSome result (λ r. IsRecord (entry_of r) × MayStand first slot (entry_of r) × (extent (128 * slot) 128 bytes.now ≡ spelling (entry_of r))) }
    ensures none { IfNone result ((entry : LogEntry) → IsRecord entry → MayStand first slot entry → extent (128 * slot) 128 bytes.now ≡ spelling entry → ⊥) }
{
    let page = slot_in(bytes, slot)?;
    record_in(&page, first, slot)
}

/// The records in so many slots of a place, or the first slot that has none which may stand there.
pub(crate) fn decode_all(
    alloc: Global,
    place: u32,
    first: u64,
    count: usize,
    bytes: &[u8],
) -> Result<Vec<Record>, LogFault>
    requires place { place ≤ 7 }
    requires few { count ≤ 256 }
    requires within { length bytes.now ≤ 128 * count }
    ensures count { IfOk result (λ records. length records.items ≡ count) }
    ensures fits { IfOk result (λ records. FitFile first (history_of records.items)) }
    ensures spelled { IfOk result (λ records. bytes.now ≡ flat_map spelling (history_of records.items)) }
    ensures bad { (number : ℕ) → IsErrOf result (LogFault.BadRecord number) → StopsAt place first count bytes.now number }
    ensures only { IfErr result IsSlotOrMemory }
{
    let mut records = Vec::with_capacity(alloc, count)?;
    for slot in 0..count {
        let Some(entry) = record_at(bytes, first, slot) else {
            let slot = 256 * place + slot as u32;
            return Err(LogFault::BadRecord { slot });
        };
        records.push_reserved(entry);
    }
    Ok(records)
}
