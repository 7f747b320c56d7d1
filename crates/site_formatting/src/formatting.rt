//! A site formatted.
ghost use Rattle.std.specs.Prelude.{◌≡◌, ◌+◌, ◌-◌, ◌∷◌, ◌<◌, ◌≤◌, ◌^◌, ℕ, length, slice_get, IsTrue, IfErr, OnOk};
ghost use Rattle.site_disk.specs.Images.{Leaves, OnlyAfter};
ghost use Rattle.site_disk.specs.Bytes.{written};
ghost use Rattle.site_disk.specs.Ledger.{Uses};
ghost use Rattle.site_disk.specs.Seen.{seen};
ghost use Rattle.gated_slots.specs.Header.{StandsClosed};
ghost use Rattle.site_headers.specs.Heads.{IsHead};
ghost use Rattle.site_headers.specs.Headers.{catalogue_tail};
ghost use Rattle.site_headers.specs.Views.{head_of};
ghost use Rattle.catalogue_journal.specs.Catalogues.{cat_of};
ghost use Rattle.catalogue_journal.specs.Formats.{MayPublish};
ghost use Rattle.walks.specs.Follows.{Ends, Goes};
ghost use Rattle.site_model.specs.declared.disk_name.DiskName.{DiskName};
ghost use Rattle.site_worlds.specs.Worlds.{new_site};
ghost use Rattle.site_layouts.specs.Stores.{Held};
ghost use Rattle.site_layouts.specs.Layouts.{HeldWorld, Shows, ShowsSite};
ghost use Rattle.site_core.specs.Disks.{MayUseAll, contents_of, images_of};
ghost use Rattle.site_formatting.specs.Disks.{EachDisk, SpendsOn, with_cat};
ghost use Rattle.site_formatting.specs.Faults.{HasCauseOn};
ghost use Rattle.site_core.specs.Made.{IsMadeSite};
ghost use Rattle.site_formatting.specs.Worlds.{IsBehind, IsUnformatted, formatted_at};

use crate::disks::format_disks;
use site_core::{Site, SiteFault};
use site_disk::{Disk, Era};
use site_headers::SiteHead;
use site_model::DiskName;

/// Formats a site: all disks but the catalogue's header, and in the next era that header.
///
/// It ends in a new era. After a failure the site has to be formatted again.
pub fn format_site<D: Disk>(
    site: &mut Site<D>,
    era: &mut Era,
    head: &SiteHead,
) -> Result<(), SiteFault>
    requires era { MayUseAll D.Disk era.old site.old }
    requires left { era.old.number + 1 < 2 ^ 64 - 1 }
    requires made { IsMadeSite site.old }
    requires head { IsHead (head_of head.now) }

    // From a site that isn't formatted it passes that and the new one alone, and comes to the new one.
    ensures goes { IsTrue D.is_modelled → (at : HeldWorld) → IsUnformatted D.Disk era.old.number site.old at
        → Goes Shows era.old.number (images_of D.Disk site.old) (images_of D.Disk site.new) at (IsBehind (head_of head.now) at) }
    ensures ends { IsTrue D.is_modelled → (at : HeldWorld) → IsUnformatted D.Disk era.old.number site.old at
        → OnOk result (Ends Shows era.new.number (images_of D.Disk site.old) (images_of D.Disk site.new) at (formatted_at (head_of head.now) at)) }
    ensures shows { IsTrue D.is_modelled → OnOk result ((held : Held) (name : DiskName) → held.area ≡ 0
        → ShowsSite name (new_site (head_of head.now)) held (contents_of D.Disk site.new name)) }

    ensures cause { IfErr result (HasCauseOn D.Disk site.old site.new) }

    // The chunks without a space are as they were.
    ensures others { (n : ℕ) → length head.now.spaces.items ≤ n → slice_get site.new.lanes.items n ≡ slice_get site.old.lanes.items n }
    ensures made { IsMadeSite site.new }
    ensures may { MayUseAll D.Disk era.new site.new }
    ensures ledger { EachDisk (SpendsOn D.Disk era.old era.new (head_of head.now)) site.old site.new }
    ensures eras { era.new.number ≤ era.old.number + 2 }
    ensures later { era.old.number ≤ era.new.number }
    ensures key { era.new.key ≡ era.old.key }
{
    format_disks(site, era, head)?;
    era.next();
    publish(site, era, head)?;
    era.next();
    Ok(())
}

// Opens the header of the catalogue.
fn publish<D: Disk>(site: &mut Site<D>, era: &Era, head: &SiteHead) -> Result<(), SiteFault>
    requires era { MayUseAll D.Disk era.now site.old }
    requires made { IsMadeSite site.old }
    requires head { IsHead (head_of head.now) }
    ensures value { site.new ≡ with_cat site.old (cat_of site.new.store.cat) }
    ensures written { IsTrue D.is_modelled → OnOk result (D.bytes (cat_of site.new.store.cat)
        ≡ written 0 (1 ∷ catalogue_tail (head_of head.now)) (D.bytes (cat_of site.old.store.cat))) }
    ensures durable { IsTrue D.is_modelled
        → OnOk result (OnlyAfter era.now.number (D.bytes (cat_of site.new.store.cat)) (D.image (cat_of site.new.store.cat))) }
    ensures crash { IsTrue D.is_modelled → StandsClosed (seen D.Disk (cat_of site.old.store.cat))
        → Leaves era.now.number (MayPublish (catalogue_tail (head_of head.now))) (D.image (cat_of site.old.store.cat)) (D.image (cat_of site.new.store.cat)) }
    ensures ledger { Uses era.now 0 4097 (D.ledger (cat_of site.old.store.cat)) (D.ledger (cat_of site.new.store.cat)) }
    ensures cause { IfErr result (HasCauseOn D.Disk site.old site.new) }
{
    match site.store.cat.publish(era, head) {
        Ok(()) => Ok(()),
        Err(_) => Err(SiteFault::DiskFault(DiskName::Cat)),
    }
}
