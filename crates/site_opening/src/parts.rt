//! A site opened part by part.
ghost use Rattle.std.specs.Prelude.{◌≡◌, length, MatchResult};
ghost use Rattle.site_disk.specs.Ledger.{MayUse};
ghost use Rattle.site_headers.specs.Areas.{slot_count};
ghost use Rattle.site_headers.specs.Views.{head_of};
ghost use Rattle.catalogue_journal.specs.Catalogues.{cat_of, spare_of, capacity_of, IsMade as IsMadeCatalogue};
ghost use Rattle.boot_file.specs.Boots.{disk_of as boot_disk, IsMade as IsMadeBoot};
ghost use Rattle.object_volume.specs.Volumes.{number_of};
ghost use Rattle.object_store.specs.Stores.{OfEach, MayUseEach};
ghost use Rattle.store_opening.specs.Disks.{IsMadeStore, MayUseStore};
ghost use Rattle.site_opening.specs.Steps.{OpensCatalogue, MissesCatalogue, OpensBoot, MissesBoot, OpensVolumes, MissesVolumes, OpensParts, MissesParts};

use crate::faults::{boot_fault, catalogue_fault, store_fault};
use boot_file::Boot;
use catalogue_journal::Catalogue;
use object_store::Store;
use site_core::{Site, SiteFault};
use site_disk::{Disk, Era};
use site_headers::SiteHead;
use std::alloc::Global;
use store_opening::open_volumes;

// Opens the catalogue, with the spare disk.
fn open_catalogue<D: Disk>(cat: &mut Catalogue<D>, era: &Era) -> Result<SiteHead, SiteFault>
    requires era { MayUse era.now (D.ledger (cat_of cat.old)) }
    requires spare_era { MayUse era.now (D.ledger (spare_of cat.old)) }
    requires made { IsMadeCatalogue cat.old }
    requires capacity { capacity_of cat.old ≡ slot_count }
    ensures { MatchResult result (λ head. OpensCatalogue D.Disk era.now (head_of head) cat.old cat.new) (λ fault. MissesCatalogue D.Disk era.now fault cat.old cat.new) }
{
    match cat.open(era) {
        Ok(head) => Ok(head),
        Err(fault) => Err(catalogue_fault(fault)),
    }
}

// Opens the boot file of a site.
fn open_boot<D: Disk>(boot: &mut Boot<D>, era: &Era, site: u64) -> Result<(), SiteFault>
    requires era { MayUse era.now (D.ledger (boot_disk boot.old)) }
    requires made { IsMadeBoot boot.old }
    ensures { MatchResult result (λ _. OpensBoot D.Disk era.now site boot.old boot.new) (λ fault. MissesBoot D.Disk era.now site fault boot.old boot.new) }
{
    match boot.open(era, site) {
        Ok(()) => Ok(()),
        Err(fault) => Err(boot_fault(fault)),
    }
}

// Opens the volumes of a site.
fn open_each_volume<D: Disk>(
    alloc: Global,
    store: &mut Store<D>,
    era: &Era,
    site: u64,
) -> Result<(), SiteFault>
    requires count { length store.old.volumes.items ≡ 17 }
    requires era { MayUseEach D.ledger era.now store.old.volumes.items }
    requires numbers { OfEach (λ place volume. number_of volume ≡ place) store.old.volumes.items }
    ensures { MatchResult result (λ _. OpensVolumes D.Disk era.now site store.old store.new) (λ fault. MissesVolumes D.Disk era.now site fault store.old store.new) }
{
    match open_volumes(alloc, store, era, site) {
        Ok(()) => Ok(()),
        Err(fault) => Err(store_fault(fault)),
    }
}

/// Opens the catalogue, the boot file, and the volumes.
pub(crate) fn open_parts<D: Disk>(
    alloc: Global,
    site: &mut Site<D>,
    era: &Era,
) -> Result<SiteHead, SiteFault>
    requires store_era { MayUseStore D.ledger era.now site.old.store }
    requires boot_era { MayUse era.now (D.ledger (boot_disk site.old.boot)) }
    requires store { IsMadeStore site.old.store }
    requires boot { IsMadeBoot site.old.boot }
    ensures { MatchResult result (λ head. OpensParts D.Disk era.now (head_of head) site.old site.new) (λ fault. MissesParts D.Disk era.now fault site.old site.new) }
{
    let head = open_catalogue(&mut site.store.cat, era)?;
    open_boot(&mut site.boot, era, head.site)?;
    open_each_volume(alloc, &mut site.store, era, head.site)?;
    Ok(head)
}
