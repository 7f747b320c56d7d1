//! A batch of records, spelled.
ghost use Rattle.std.specs.Prelude.{◌≡◌, ◌+◌, ◌*◌, ◌<◌, ◌≤◌, length, take, IfOk};
ghost use Rattle.std.specs.List.{AllByRecursion, flat_map};
ghost use Rattle.log_record.specs.Entry.{history_of};
ghost use Rattle.log_record.specs.Layout.{IsRecord, spelling};

use log_record::Record;
use std::alloc::{AllocError, Global};

/// The bytes of a record.
const SLOT_LEN: usize = 128;

/// The bytes of so many records, one behind another.
pub(crate) fn spelled(alloc: Global, batch: &[Record]) -> Result<Vec<u8>, AllocError>
    requires few { length batch.now ≤ 256 }
    requires records { AllByRecursion IsRecord (history_of batch.now) }
    ensures { IfOk result (λ bytes. bytes.items ≡ flat_map spelling (history_of batch.now)) }
{
    let mut bytes = Vec::with_capacity(alloc, SLOT_LEN * batch.len())?;
    for entry in batch {
        let mut slot = [0; SLOT_LEN];
        entry.encode_into(&mut slot);
        bytes.extend_from_slice(&slot)?;
    }
    Ok(bytes)
}
