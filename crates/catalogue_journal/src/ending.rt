//! The parts of a transaction's end: what takes memory, what is written, what becomes of the live objects.
ghost use Rattle.std.specs.Prelude.{◌≡◌, ◌+◌, ◌*◌, ◌/◌, ◌%◌, ◌^◌, ◌<◌, ◌≤◌, ◌++◌, false, length, map, vec_len, vec_capacity, IsTrue, IfOk, IfErr, OnOk, OnErr};
ghost use Rattle.std.specs.List.{AllByRecursion};
ghost use Rattle.std.specs.List.Sorted.{IsNonDecreasing, IsPermutation};
ghost use Rattle.site_disk.specs.Causes.{Rose};
ghost use Rattle.site_disk.specs.Images.{Leaves, OnlyAfter};
ghost use Rattle.site_disk.specs.Ledger.{MayUse, Uses};
ghost use Rattle.site_disk.specs.Seen.{seen};
ghost use Rattle.gated_slots.specs.Slots.{place_of, Gains, MayGain, Agrees, Reaches};
ghost use Rattle.catalogue_slots.specs.Views.{object_of};
ghost use Rattle.catalogue_replay.specs.Contents.{AreRising};
ghost use Rattle.catalogue_journal.specs.Transactions.{AreLive, IsAddition, objects_from, slots_wanted, without_all};
ghost use Rattle.catalogue_journal.specs.Batches.{IsBatch};
ghost use Rattle.catalogue_journal.specs.Catalogues.{additions_of, ids_from};

use crate::batch::batch_of;
use crate::deletions::{in_order, take_out_all};
use crate::entries::new_entries;
use crate::{CatFault, Staged};
use catalogue_slots::ObjectEntry;
use gated_slots::Slots;
use site_disk::{Disk, Era};
use std::alloc::{AllocError, Global};

fn copies_of(alloc: Global, entries: &[ObjectEntry]) -> Result<Vec<u64>, AllocError>
    ensures { IfOk result (λ copies. copies.items ≡ map (λ entry. entry.copy) entries.now) }
{
    entries.iter().map(|entry| entry.copy).collect(alloc)
}

/// All of a transaction that takes memory: its additions as entries, their copy ids, the bytes of its slots, and what it
/// deletes in order.
#[derive(Drop)]
pub(crate) struct Prepared {
    pub(crate) entries: Vec<ObjectEntry>,
    pub(crate) copies: Vec<u64>,
    pub(crate) batch: Vec<u8>,
    pub(crate) deletions: Vec<u64>,
}

/// Prepares a transaction that follows these objects and this last copy id, and makes room for its additions.
pub(crate) fn prepare(
    alloc: Global,
    objects: &mut Vec<ObjectEntry>,
    staged: &Staged,
    last: u64,
    slots: usize,
) -> Result<Prepared, AllocError>
    requires ids { last + length staged.now.add.items ≤ 2 ^ 48 }
    requires below { AllByRecursion (λ object. object.copy ≤ last) (map object_of objects.old.items) }
    requires slots { slots ≡ slots_wanted staged.now.delete.items (additions_of staged.now) }
    requires few { slots ≤ 65536 }
    requires deletions { AreLive staged.now.delete.items (map object_of objects.old.items) }
    requires additions { AllByRecursion IsAddition (additions_of staged.now) }
    ensures entries { IfOk result (λ ready. map object_of ready.entries.items ≡ objects_from (last + 1) (additions_of staged.now)) }
    ensures copies { IfOk result (λ ready. ready.copies.items ≡ ids_from (last + 1) (additions_of staged.now)) }
    ensures batch { IfOk result (λ ready. IsBatch staged.now.delete.items (additions_of staged.now)
        (record { last = last; objects = map object_of objects.old.items }) ready.batch.items) }
    ensures long { IfOk result (λ ready. length ready.batch.items ≡ 4096 * slots) }
    ensures same { IfOk result (λ ready. IsPermutation staged.now.delete.items ready.deletions.items) }
    ensures order { IfOk result (λ ready. IsNonDecreasing ready.deletions.items) }
    ensures room { IfOk result (λ ready. vec_len objects.new + vec_len ready.entries ≤ vec_capacity objects.new) }
    ensures objects { objects.new.items ≡ objects.old.items }
{
    let entries = new_entries(alloc, &staged.add, last + 1)?;
    let copies = copies_of(alloc, &entries)?;
    let batch = batch_of(alloc, &staged.delete, &entries, slots)?;
    let deletions = in_order(alloc, &staged.delete)?;
    objects.reserve(entries.len())?;
    Ok(Prepared {
        entries,
        copies,
        batch,
        deletions,
    })
}

/// Appends a batch of slots for which there is room.
pub(crate) fn append<D: Disk>(
    slots: &mut Slots,
    disk: &mut D,
    era: &Era,
    batch: &[u8],
) -> Result<(), CatFault>
    requires era { MayUse era.now (D.ledger disk.old) }
    requires size { slots.old.area.size ≡ 4096 }
    requires whole { length batch.now % 4096 ≡ 0 }
    requires some { 0 < length batch.now }
    requires room { slots.old.used + length batch.now / 4096 ≤ slots.old.area.capacity }
    ensures area { slots.new.area ≡ slots.old.area }
    ensures used { OnOk result (slots.new ≡ record slots.old { used = slots.old.used + length batch.now / 4096 }) }
    ensures gained { IsTrue D.is_modelled → Reaches slots.old (D.bytes disk.old)
        → Agrees slots.old (seen D.Disk disk.old)
        → OnOk result (Gains slots.old.area (length batch.now / 4096) batch.now (D.bytes disk.old) (D.bytes disk.new)) }
    ensures reaches { IsTrue D.is_modelled → OnOk result (Reaches slots.new (D.bytes disk.new)) }
    ensures agrees { IsTrue D.is_modelled
        → Agrees slots.old (seen D.Disk disk.old)
        → OnOk result (Agrees slots.new (seen D.Disk disk.new)) }
    ensures durable { IsTrue D.is_modelled → OnOk result (OnlyAfter era.now.number (D.bytes disk.new) (D.image disk.new)) }
    ensures crash { IsTrue D.is_modelled → Reaches slots.old (D.bytes disk.old)
        → Agrees slots.old (seen D.Disk disk.old)
        → Leaves era.now.number (MayGain slots.old.area (length batch.now / 4096) batch.now) (D.image disk.old) (D.image disk.new) }
    ensures ledger { Uses era.now 0 (place_of slots.old.area slots.old.used + length batch.now + 1) (D.ledger disk.old) (D.ledger disk.new) }
    ensures bound { IsTrue D.is_modelled → Reaches slots.old (D.bytes disk.old)
        → (D.ledger disk.new).written ≤ (D.ledger disk.old).written + length batch.now + 1 }
    ensures fault { IfErr result (λ fault. fault ≡ CatFault.Failed false) }
    ensures failed { OnErr result (Rose (D.ledger disk.old).faults (D.ledger disk.new).faults) }
{
    match slots.append(disk, era, batch) {
        Ok(_) => Ok(()),
        Err(_) => Err(CatFault::Failed { spare: false }),
    }
}

/// Takes the objects with these copy ids out, which are in ascending order, and puts new ones behind those that are left.
pub(crate) fn put_in(
    objects: &mut Vec<ObjectEntry>,
    deletions: &[u64],
    mut entries: Vec<ObjectEntry>,
)
    requires rising { AreRising 0 (map object_of objects.old.items) }
    requires order { IsNonDecreasing deletions.now }
    requires room { vec_len objects.old + vec_len entries ≤ vec_capacity objects.old }
    ensures { map object_of objects.new.items
        ≡ without_all deletions.now (map object_of objects.old.items) ++ map object_of entries.items }
{
    take_out_all(objects, deletions);
    let _ = objects.append(&mut entries);
}
