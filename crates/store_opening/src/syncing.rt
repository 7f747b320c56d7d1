//! A store synced.
ghost use Rattle.std.specs.Prelude.{◌≡◌, ◌<◌, length, IfErr, OnOk, MatchResult};
ghost use Rattle.site_disk.specs.Ledger.{MayUse};
ghost use Rattle.catalogue_journal.specs.Catalogues.{cat_of, spare_of, with_disks};
ghost use Rattle.object_volume.specs.Volumes.{disk_of, with_disk};
ghost use Rattle.object_store.specs.Reading.{ChangesOne};
ghost use Rattle.object_store.specs.Stores.{MayUseEach};
ghost use Rattle.store_opening.specs.Disks.{At, EachDisk, EachFrom, HasRisen, IsSynced, MayUseStore, StopsAt, UsesStore, WritesNothing};
ghost use Rattle.store_opening.specs.Faults.{IsDiskFault};
ghost use Rattle.store_opening.specs.Syncing.{SyncsVolume, FailsToSync};

use crate::faults::{StoreDisk, StoreFault, catalogue_fault};
use crate::making::VOLUMES;
use object_store::Store;
use object_volume::Volume;
use site_disk::{Disk, Era};

/// Syncs each disk of a store, the catalogue's first, so that a crash in a later era leaves what a read gives. Values and
/// bytes stay.
pub fn sync_store<D: Disk>(store: &mut Store<D>, era: &Era) -> Result<(), StoreFault>
    requires era { MayUseStore D.ledger era.now store.old }
    requires count { length store.old.volumes.items ≡ 17 }

    ensures synced { OnOk result (EachDisk (IsSynced D.Disk era.now) store.old store.new) }
    ensures cat { store.new.cat ≡ with_disks store.old.cat (cat_of store.new.cat) (spare_of store.new.cat) }
    ensures volumes { EachFrom (λ place was is. is ≡ with_disk was (disk_of is)) store.old.volumes.items store.new.volumes.items }

    ensures only { IfErr result IsDiskFault }
    ensures failed { IfErr result (HasRisen D.ledger store.old store.new) }

    ensures crash { EachDisk (WritesNothing D.image era.now) store.old store.new }
    ensures ledger { UsesStore D.ledger era.now 0 0 0 0 0 0 store.old store.new }
{
    if let Err(fault) = store.cat.sync(era) {
        return Err(catalogue_fault(fault));
    }
    sync_volumes(store, era)
}

// Syncs the disk of each volume, in order.
fn sync_volumes<D: Disk>(store: &mut Store<D>, era: &Era) -> Result<(), StoreFault>
    requires count { length store.old.volumes.items ≡ 17 }
    requires era { MayUseEach D.ledger era.now store.old.volumes.items }
    ensures cat { store.new.cat ≡ store.old.cat }
    ensures volumes { MatchResult result (λ _. EachFrom (SyncsVolume D.Disk era.now) store.old.volumes.items store.new.volumes.items)
        (λ fault. StopsAt (SyncsVolume D.Disk era.now) (FailsToSync D.Disk era.now) fault store.old.volumes.items store.new.volumes.items) }
{
    for number in 0..VOLUMES {
        sync_one(&mut store.volumes, era, number)?;
    }
    Ok(())
}

// Syncs the disk of one.
fn sync_one<D: Disk>(volumes: &mut [Volume<D>], era: &Era, number: u16) -> Result<(), StoreFault>
    requires within { number < length volumes.old }
    requires era { At number (λ volume. MayUse era.now (D.ledger (disk_of volume))) volumes.old }
    ensures { MatchResult result (λ _. ChangesOne (SyncsVolume D.Disk era.now number) number volumes.old volumes.new)
        (λ fault. ChangesOne (FailsToSync D.Disk era.now number fault) number volumes.old volumes.new) }
{
    let volume = &mut volumes[usize::from(number)];
    match volume.sync(era) {
        Ok(()) => Ok(()),
        Err(_) => Err(StoreFault::DiskFault(StoreDisk::Volume(number))),
    }
}
