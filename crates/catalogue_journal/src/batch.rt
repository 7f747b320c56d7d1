//! The slots of a transaction, laid out in memory.
ghost use Rattle.std.specs.Prelude.{◌≡◌, ◌+◌, ◌-◌, ◌*◌, ◌^◌, ◌<◌, ◌≤◌, ◌++◌, min, length, take, sum_by, IfOk};
ghost use Rattle.std.specs.List.{AllByRecursion, flat_map};
ghost use Rattle.catalogue_slots.specs.Records.{slots_for as slots_for_runs};
ghost use Rattle.catalogue_journal.specs.Batches.{HasFewRuns, slots_of_entries, del_bytes, entry_bytes, batch_bytes};

use crate::NewObject;
use catalogue_slots::{ObjectEntry, SLOT_LEN, slots_for, write_del, write_entry};
use std::alloc::{AllocError, Global};

fn lay_deletions(batch: &mut [u8], copies: &[u64])
    requires { 4096 * length copies.now ≤ length batch.old }
    ensures { take (4096 * length copies.now) batch.new ≡ flat_map del_bytes copies.now }
{
    for (i, copy) in copies.iter().enumerate() {
        write_del(batch, SLOT_LEN * i, *copy);
    }
}

fn lay_entries(batch: &mut [u8], first: usize, entries: &[ObjectEntry])
    requires few { AllByRecursion HasFewRuns entries.now }
    requires place { first + 4096 * slots_of_entries entries.now ≤ length batch.old }
    ensures { take (first + 4096 * slots_of_entries entries.now) batch.new
        ≡ take first batch.old ++ flat_map entry_bytes entries.now }
{
    let mut at = first;
    for entry in entries {
        write_entry(batch, at, entry);
        at += SLOT_LEN * slots_for(entry.runs.len());
    }
}

/// The slots of a transaction: its deletions, then its additions, so many slots in all.
pub(crate) fn batch_of(
    alloc: Global,
    copies: &[u64],
    entries: &[ObjectEntry],
    slots: usize,
) -> Result<Vec<u8>, AllocError>
    requires few { AllByRecursion HasFewRuns entries.now }
    requires slots { slots ≡ length copies.now + slots_of_entries entries.now }
    requires fits { slots < 2 ^ 32 }
    ensures { IfOk result (λ batch. batch.items ≡ batch_bytes copies.now entries.now) }
{
    let mut batch = vec![in alloc; 0; SLOT_LEN * slots]?;
    lay_deletions(&mut batch, copies);
    lay_entries(&mut batch, SLOT_LEN * copies.len(), entries);
    Ok(batch)
}

/// The slots that the objects take, at most 2^64 - 1.
pub(crate) fn slots_of(objects: &[NewObject]) -> u64
    ensures { result ≡ min (sum_by (λ object. slots_for_runs (length object.runs.items)) objects.now) (2 ^ 64 - 1) }
{
    let mut slots: u64 = 0;
    for object in objects {
        slots = slots.saturating_add(slots_for(object.runs.len()) as u64);
    }
    slots
}
