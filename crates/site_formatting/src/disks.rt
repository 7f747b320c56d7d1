//! All that is written of a new site before its catalogue's header.
ghost use Rattle.std.specs.Prelude.{◌≡◌, ◌≤◌, ℕ, length, slice_get, IsTrue, IfErr, OnOk};
ghost use Rattle.site_disk.specs.Images.{Leaves};
ghost use Rattle.site_headers.specs.Heads.{IsHead};
ghost use Rattle.site_headers.specs.Views.{head_of};
ghost use Rattle.catalogue_journal.specs.Catalogues.{cat_of};
ghost use Rattle.catalogue_journal.specs.Formats.{MayUnformat};
ghost use Rattle.site_core.specs.Disks.{MayUseAll};
ghost use Rattle.site_formatting.specs.Disks.{EachDisk, Touches};
ghost use Rattle.site_formatting.specs.Faults.{HasCauseOn};
ghost use Rattle.site_core.specs.Made.{IsMadeSite};
ghost use Rattle.site_formatting.specs.Prepared.{IsPrepared};

use crate::faults::store_fault;
use crate::lanes::format_lanes;
use site_core::{Site, SiteFault};
use site_disk::{Disk, Era};
use site_headers::SiteHead;
use site_model::DiskName;
use store_opening::format_store;

/// Writes all disks of a new site but the catalogue's header, which is closed first of all.
pub(crate) fn format_disks<D: Disk>(
    site: &mut Site<D>,
    era: &Era,
    head: &SiteHead,
) -> Result<(), SiteFault>
    requires era { MayUseAll D.Disk era.now site.old }
    requires made { IsMadeSite site.old }
    requires head { IsHead (head_of head.now) }
    ensures prepared { IsTrue D.is_modelled → OnOk result (IsPrepared D.Disk era.now (head_of head.now) site.new) }
    ensures crash { IsTrue D.is_modelled
        → Leaves era.now.number MayUnformat (D.image (cat_of site.old.store.cat)) (D.image (cat_of site.new.store.cat)) }
    ensures touched { EachDisk (Touches D.Disk era.now (head_of head.now)) site.old site.new }
    ensures others { (n : ℕ) → length head.now.spaces.items ≤ n → slice_get site.new.lanes.items n ≡ slice_get site.old.lanes.items n }
    ensures made { IsMadeSite site.new }
    ensures cause { IfErr result (HasCauseOn D.Disk site.old site.new) }
{
    if let Err(fault) = format_store(&mut site.store, era, head) {
        return Err(store_fault(fault));
    }
    if let Err(_) = site.boot.format(era, head.site) {
        return Err(SiteFault::DiskFault(DiskName::Boot));
    }
    if let Err(_) = site.log.format(era, head.site, 1, 1, 0) {
        return Err(SiteFault::DiskFault(DiskName::Log));
    }
    format_lanes(&mut site.lanes, era, head)
}
