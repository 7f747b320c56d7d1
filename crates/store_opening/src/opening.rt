//! A store opened.
ghost use Rattle.std.specs.Prelude.{◌≡◌, ◌+◌, ◌*◌, ◌<◌, ℕ, List, length, map, IsTrue, IfOk, IfErr, OnOk, MatchResult};
ghost use Rattle.site_disk.specs.Ledger.{MayUse};
ghost use Rattle.site_headers.specs.Heads.{Head};
ghost use Rattle.site_headers.specs.Views.{head_of};
ghost use Rattle.catalogue_slots.specs.Views.{object_of};
ghost use Rattle.catalogue_replay.specs.Contents.{Contents};
ghost use Rattle.catalogue_journal.specs.Catalogues.{cat_of, spare_of, objects_of, contents_in};
ghost use Rattle.object_volume.specs.Volumes.{disk_of, number_of};
ghost use Rattle.object_store.specs.Reading.{ChangesOne};
ghost use Rattle.object_store.specs.Stores.{OfEach, MayUseEach, IsOpenStore};
ghost use Rattle.store_opening.specs.Disks.{At, EachDisk, EachFrom, files_of, HasRisen, IsDurable, IsMadeStore, KeepsBytes, MayUseStore, StopsAt, UsesStore, WritesNothing};
ghost use Rattle.store_opening.specs.Faults.{IsFailure, IsNoDiskFault, IsRefusal, NamesAsWell};
ghost use Rattle.store_opening.specs.Opening.{IsGoodStore, ShowsStore, StoreRefuses, OpensVolume, MissesVolume};
ghost use Rattle.store_opening.specs.Standing.{Agrees, FreeInOrder, IsSettled};

use crate::faults::{StoreFault, catalogue_fault, volume_fault};
use crate::live::live_runs;
use crate::making::VOLUMES;
use catalogue_journal::{ObjectEntry, SiteHead};
use object_store::Store;
use object_volume::Volume;
use site_disk::{Disk, Era};
use std::alloc::Global;

/// Opens a store, after a sync of its disks: the catalogue first, then each volume in order, with the runs of the live
/// objects on it. Nothing is written, and a store that isn't opened may be opened again.
pub fn open_store<D: Disk>(
    alloc: Global,
    store: &mut Store<D>,
    era: &Era,
) -> Result<SiteHead, StoreFault>
    requires era { MayUseStore D.ledger era.now store.old }
    requires made { IsMadeStore store.old }

    ensures opened { OnOk result (IsOpenStore store.new) }
    // No object is being sent, the volumes hold just the live objects, and their free blocks are in ascending order.
    ensures settled { OnOk result (IsSettled store.new) }
    ensures order { OnOk result (FreeInOrder store.new) }
    ensures good { IsTrue D.is_modelled → IfOk result (λ head. IsGoodStore (head_of head) (contents_in store.new.cat)
        (D.bytes (cat_of store.old.cat)) (D.bytes (spare_of store.old.cat)) (files_of D.bytes store.old.volumes.items)) }
    // Disks that show a store are opened as that, unless memory runs out or a disk fails.
    ensures shown { IsTrue D.is_modelled → (head : Head) (contents : Contents) (taken : ℕ) → ShowsStore head contents taken
        (D.bytes (cat_of store.old.cat)) (D.bytes (spare_of store.old.cat)) (files_of D.bytes store.old.volumes.items)
        → MatchResult result (λ found. (head_of found ≡ head) × ((from : ℕ) → era.now.number < from → Agrees D.Disk from store.new contents taken head)) IsFailure }
    ensures made { IsMadeStore store.new }

    // The first place that isn't as it should be.
    ensures refused { IsTrue D.is_modelled → IfErr result (StoreRefuses (D.bytes (cat_of store.old.cat))
        (D.bytes (spare_of store.old.cat)) (files_of D.bytes store.old.volumes.items)) }
    // And where there is one, its disk is named, unless memory runs out or a disk fails.
    ensures refuses { IsTrue D.is_modelled → (fault : StoreFault) → IsRefusal fault → StoreRefuses (D.bytes (cat_of store.old.cat))
        (D.bytes (spare_of store.old.cat)) (files_of D.bytes store.old.volumes.items) fault
        → MatchResult result (λ _. ⊥) (λ found. IsRefusal found → NamesAsWell found fault) }
    ensures failed { IfErr result (HasRisen D.ledger store.old store.new) }

    ensures bytes { OnOk result (EachDisk (KeepsBytes D.bytes) store.old store.new) }
    ensures refused_bytes { IfErr result (λ fault. IsNoDiskFault fault → EachDisk (KeepsBytes D.bytes) store.old store.new) }
    ensures durable { IsTrue D.is_modelled → OnOk result (IsDurable D.Disk era.now store.new) }
    ensures crash { EachDisk (WritesNothing D.image era.now) store.old store.new }
    ensures ledger { UsesStore D.ledger era.now (4864 + 4097 * 65536) 0 4096 0 4096 0 store.old store.new }
{
    let head = match store.cat.open(era) {
        Ok(head) => head,
        Err(fault) => return Err(catalogue_fault(fault)),
    };
    open_volumes(alloc, store, era, head.site)?;
    Ok(head)
}

/// Opens the volumes of a site behind an open catalogue, in order, each with the objects that stand on it and after a sync.
/// It stops at the first that isn't opened. Nothing is written.
pub fn open_volumes<D: Disk>(
    alloc: Global,
    store: &mut Store<D>,
    era: &Era,
    site: u64,
) -> Result<(), StoreFault>
    requires count { length store.old.volumes.items ≡ 17 }
    requires era { MayUseEach D.ledger era.now store.old.volumes.items }
    requires numbers { OfEach (λ place volume. number_of volume ≡ place) store.old.volumes.items }
    ensures cat { store.new.cat ≡ store.old.cat }
    ensures volumes { MatchResult result (λ _. EachFrom (OpensVolume D.Disk era.now site (objects_of store.old.cat)) store.old.volumes.items store.new.volumes.items)
        (λ fault. StopsAt (OpensVolume D.Disk era.now site (objects_of store.old.cat)) (MissesVolume D.Disk era.now site (objects_of store.old.cat)) fault
        store.old.volumes.items store.new.volumes.items) }
{
    for number in 0..VOLUMES {
        open_one(
            alloc,
            store.cat.objects(),
            &mut store.volumes,
            era,
            number,
            site,
        )?;
    }
    Ok(())
}

// Opens one.
fn open_one<D: Disk>(
    alloc: Global,
    objects: &[ObjectEntry],
    volumes: &mut [Volume<D>],
    era: &Era,
    number: u16,
    site: u64,
) -> Result<(), StoreFault>
    requires within { number < length volumes.old }
    requires era { At number (λ volume. MayUse era.now (D.ledger (disk_of volume))) volumes.old }
    requires number { At number (λ volume. number_of volume ≡ number) volumes.old }
    ensures { MatchResult result (λ _. ChangesOne (OpensVolume D.Disk era.now site (map object_of objects.now) number) number volumes.old volumes.new)
        (λ fault. ChangesOne (MissesVolume D.Disk era.now site (map object_of objects.now) number fault) number volumes.old volumes.new) }
{
    open_volume(
        alloc,
        objects,
        &mut volumes[usize::from(number)],
        era,
        number,
        site,
    )
}

// Opens a volume by the objects that stand on it.
fn open_volume<D: Disk>(
    alloc: Global,
    objects: &[ObjectEntry],
    volume: &mut Volume<D>,
    era: &Era,
    number: u16,
    site: u64,
) -> Result<(), StoreFault>
    requires era { MayUse era.now (D.ledger (disk_of volume.old)) }
    requires number { number_of volume.old ≡ number }
    ensures { MatchResult result (λ _. OpensVolume D.Disk era.now site (map object_of objects.now) number volume.old volume.new)
        (λ fault. MissesVolume D.Disk era.now site (map object_of objects.now) number fault volume.old volume.new) }
{
    let Ok(live) = live_runs(alloc, objects, number) else {
        return Err(StoreFault::OutOfMemory);
    };
    match volume.open(era, site, &live) {
        Ok(()) => Ok(()),
        Err(fault) => Err(volume_fault(number, fault)),
    }
}
