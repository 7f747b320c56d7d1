//! A store formatted.
ghost use Rattle.std.specs.Prelude.{◌≡◌, ◌<◌, length, IsTrue, IfErr, OnOk, IsErrOf, MatchResult};
ghost use Rattle.gated_slots.specs.Header.{StandsClosed};
ghost use Rattle.site_disk.specs.Images.{Leaves};
ghost use Rattle.site_disk.specs.Ledger.{MayUse};
ghost use Rattle.site_disk.specs.Seen.{seen};
ghost use Rattle.site_headers.specs.Heads.{IsHead};
ghost use Rattle.site_headers.specs.Headers.{spare_tail, IsVolumeSize};
ghost use Rattle.site_headers.specs.Views.{head_of};
ghost use Rattle.catalogue_journal.specs.Catalogues.{cat_of, spare_of};
ghost use Rattle.catalogue_journal.specs.Formats.{MayUnformat, MayFormat};
ghost use Rattle.object_volume.specs.Volumes.{disk_of, number_of};
ghost use Rattle.object_store.specs.Reading.{ChangesOne};
ghost use Rattle.object_store.specs.Stores.{OfEach, MayUseEach};
ghost use Rattle.store_opening.specs.Disks.{At, EachFrom, HasRisen, IsDurable, IsMadeStore, MayUseStore, StopsAt, UsesStore};
ghost use Rattle.store_opening.specs.Faults.{IsBehindCatalogue, IsDiskFault, IsOfCatalogue};
ghost use Rattle.store_opening.specs.Formatting.{IsFormattedStore, MayFormatVolume, FormatsVolume, FailsToFormat};

use crate::faults::{StoreDisk, StoreFault, catalogue_fault};
use crate::making::VOLUMES;
use catalogue_journal::SiteHead;
use object_store::Store;
use object_volume::Volume;
use site_disk::{Disk, Era};

/// Formats the disks of an empty store, all but the header of the catalogue, which is closed first of all: the catalogue's
/// disk, the spare one, then each volume. `Catalogue::publish` opens it, in a later era.
///
/// Wherever the call stops, the catalogue has no header, or the one from before with nothing changed behind its gate.
pub fn format_store<D: Disk>(
    store: &mut Store<D>,
    era: &Era,
    head: &SiteHead,
) -> Result<(), StoreFault>
    requires era { MayUseStore D.ledger era.now store.old }
    requires made { IsMadeStore store.old }
    requires head { IsHead (head_of head.now) }

    ensures formatted { IsTrue D.is_modelled → OnOk result (IsFormattedStore D.Disk (head_of head.now) store.new) }
    ensures durable { IsTrue D.is_modelled → OnOk result (IsDurable D.Disk era.now store.new) }
    ensures made { IsMadeStore store.new }

    ensures only { IfErr result IsDiskFault }
    ensures failed { IfErr result (HasRisen D.ledger store.old store.new) }
    // The other disks are written once no header of the catalogue stands.
    ensures first { IsErrOf result (StoreFault.DiskFault StoreDisk.Cat) → spare_of store.new.cat ≡ spare_of store.old.cat }
    ensures volumes_last { IfErr result (λ fault. IsOfCatalogue fault → store.new.volumes ≡ store.old.volumes) }
    ensures closed { IsTrue D.is_modelled → IfErr result (λ fault. IsBehindCatalogue fault → StandsClosed (seen D.Disk (cat_of store.new.cat))) }

    ensures crash { IsTrue D.is_modelled → Leaves era.now.number MayUnformat (D.image (cat_of store.old.cat)) (D.image (cat_of store.new.cat)) }
    ensures spare_crash { IsTrue D.is_modelled → Leaves era.now.number (MayFormat (spare_tail head.now.site))
        (D.image (spare_of store.old.cat)) (D.image (spare_of store.new.cat)) }
    ensures volumes_crash { EachFrom (λ place was is. MayFormatVolume D.Disk era.now place head.now.site head.now.blocks (disk_of was) (disk_of is))
        store.old.volumes.items store.new.volumes.items }
    ensures ledger { UsesStore D.ledger era.now 1 78849 1 77826 1 4098 store.old store.new }
{
    if let Err(fault) = store.cat.format(era, head) {
        return Err(catalogue_fault(fault));
    }
    format_volumes(store, era, head.site, head.blocks)
}

// Formats each volume, in order.
fn format_volumes<D: Disk>(
    store: &mut Store<D>,
    era: &Era,
    site: u64,
    blocks: u32,
) -> Result<(), StoreFault>
    requires count { length store.old.volumes.items ≡ 17 }
    requires era { MayUseEach D.ledger era.now store.old.volumes.items }
    requires numbers { OfEach (λ place volume. number_of volume ≡ place) store.old.volumes.items }
    requires size { IsVolumeSize blocks }
    ensures cat { store.new.cat ≡ store.old.cat }
    ensures volumes { MatchResult result (λ _. EachFrom (FormatsVolume D.Disk era.now site blocks) store.old.volumes.items store.new.volumes.items)
        (λ fault. StopsAt (FormatsVolume D.Disk era.now site blocks) (FailsToFormat D.Disk era.now site blocks) fault store.old.volumes.items store.new.volumes.items) }
{
    for number in 0..VOLUMES {
        format_one(&mut store.volumes, era, number, site, blocks)?;
    }
    Ok(())
}

// Formats one.
fn format_one<D: Disk>(
    volumes: &mut [Volume<D>],
    era: &Era,
    number: u16,
    site: u64,
    blocks: u32,
) -> Result<(), StoreFault>
    requires within { number < length volumes.old }
    requires era { At number (λ volume. MayUse era.now (D.ledger (disk_of volume))) volumes.old }
    requires number { At number (λ volume. number_of volume ≡ number) volumes.old }
    requires size { IsVolumeSize blocks }
    ensures { MatchResult result (λ _. ChangesOne (FormatsVolume D.Disk era.now site blocks number) number volumes.old volumes.new)
        (λ fault. ChangesOne (FailsToFormat D.Disk era.now site blocks number fault) number volumes.old volumes.new) }
{
    let volume = &mut volumes[usize::from(number)];
    match volume.format(era, site, blocks) {
        Ok(()) => Ok(()),
        Err(_) => Err(StoreFault::DiskFault(StoreDisk::Volume(number))),
    }
}
