//! The store and the boot file of a site opened.
ghost use Rattle.std.specs.Prelude.{◌≡◌, ◌⊎◌, ◌+◌, IsTrue, IfOk, OnOk, IfErr, MatchResult, IsErrOf};
ghost use Rattle.site_disk.specs.Causes.{Rose};
ghost use Rattle.site_headers.specs.Heads.{IsHead};
ghost use Rattle.site_headers.specs.Views.{head_of};
ghost use Rattle.object_store.specs.Stores.{IsOpenStore};
ghost use Rattle.boot_file.specs.Boots.{IsOpen as IsOpenBoot};
ghost use Rattle.site_model.specs.declared.disk_name.DiskName.{DiskName};
ghost use Rattle.site_model.specs.declared.status.Status.{Status};
ghost use Rattle.site_worlds.specs.Fitness.{IsFitSite};
ghost use Rattle.site_layouts.specs.Disks.{IsOpened};
ghost use Rattle.site_layouts.specs.Stages.{HeldSite, ShowsHeld, StandsFor};
ghost use Rattle.site_openings.specs.Openings.{AllowedBy, IsOfDisks, Named, NamesAsWell, RefusedBy};
ghost use Rattle.site_core.specs.Disks.{MayUseAll, contents_of, faults_on};
ghost use Rattle.site_core.specs.Faults.{IsFailure, IsNoDiskFault, status_in};
ghost use Rattle.site_core.specs.Layers.{layers};
ghost use Rattle.site_core.specs.Made.{IsMadeSite};
ghost use Rattle.site_core.specs.Quiet.{OnlyReads, ReadsSame};
ghost use Rattle.store_opening.specs.Standing.{FreeInOrder, IsSettled};
ghost use Rattle.site_opening.specs.Opens.{TellsBoot, store_bytes, store_checks};

use crate::parts::open_parts;
use site_core::{Site, SiteFault};
use site_disk::{Disk, Era};
use site_headers::SiteHead;
use std::alloc::Global;

/// Opens catalogue and spare disk, the boot file, and then the volumes, after a sync of each. Nothing is written.
pub fn open_site<D: Disk>(
    alloc: Global,
    site: &mut Site<D>,
    era: &Era,
) -> Result<SiteHead, SiteFault>
    requires may { MayUseAll D.Disk era.now site.old }
    requires made { IsMadeSite site.old }

    // Where these disks show a fit site it is opened, unless memory runs out or a disk fails, and the values stand for it.
    ensures stands { IsTrue D.is_modelled → (at : HeldSite) → IsFitSite at.site
        → ((name : DiskName) → IsOpened 1 name → ShowsHeld name at (contents_of D.Disk site.old name))
        → MatchResult result (λ head. (head_of head ≡ at.site.head) × StandsFor (layers D.Disk) 1 (era.now.number + 1) site.new at) IsFailure }
    // Whatever they hold: the first check that doesn't let them pass refuses them.
    ensures answers { IsTrue D.is_modelled → MatchResult result
        (λ head. AllowedBy store_checks (contents_of D.Disk site.old) × Named (head_of head) (contents_of D.Disk site.old))
        (λ fault. IsFailure fault ⊎ RefusedBy store_checks (contents_of D.Disk site.old) (status_in fault)) }
    ensures refuses { IsTrue D.is_modelled → (status : Status) → RefusedBy store_checks (contents_of D.Disk site.old) status
        → MatchResult result (λ head. ⊥) (λ fault. IsFailure fault ⊎ NamesAsWell (status_in fault) status) }
    ensures head { IfOk result (λ head. IsHead (head_of head)) }
    ensures told { IsTrue D.is_modelled → IfOk result (λ head. TellsBoot D.Disk (head_of head) site.new) }
    ensures only { IfErr result (λ fault. IsFailure fault ⊎ IsOfDisks (status_in fault)) }
    ensures failed { (name : DiskName) → IsErrOf result (SiteFault.DiskFault name) → Rose (faults_on D.Disk site.old name) (faults_on D.Disk site.new name) }
    ensures opened { OnOk result (IsOpenStore site.new.store × IsOpenBoot site.new.boot) }
    // No object is being sent, each volume holds just the live objects on it, and its free blocks are in ascending order.
    ensures settled { OnOk result (IsSettled site.new.store) }
    ensures order { OnOk result (FreeInOrder site.new.store) }
    ensures made { IsMadeSite site.new }

    // What stays.
    ensures others { site.new ≡ record site.old { store = site.new.store; boot = site.new.boot } }
    ensures reads { OnlyReads D.Disk era.now store_bytes site.old site.new }
    ensures same { OnOk result (ReadsSame D.Disk site.old site.new) }
    ensures refused_same { IfErr result (λ fault. IsNoDiskFault fault → ReadsSame D.Disk site.old site.new) }
{
    open_parts(alloc, site, era)
}
