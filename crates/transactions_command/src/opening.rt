//! A site is opened for a script: its store and its boot file, its log, and then all of its lanes.
ghost use Rattle.std.specs.Prelude.{◌≡◌, ◌⊎◌, ◌+◌, ◌-◌, ◌^◌, ◌<◌, ◌≤◌, length, IsTrue, IsErr, Some, OnOk, IfOk, IfErr, IsErrOf, MatchResult};
ghost use Rattle.logical_log.specs.Rings.{IsOpen as IsOpenLog};
ghost use Rattle.command_grammar.specs.Words.{transactions_form};
ghost use Rattle.site_disk.specs.Causes.{Rose};
ghost use Rattle.site_headers.specs.Heads.{IsHead};
ghost use Rattle.site_headers.specs.Views.{head_of};
ghost use Rattle.site_model.specs.declared.disk_name.DiskName.{DiskName};
ghost use Rattle.site_model.specs.declared.status.Status.{Status};
ghost use Rattle.site_worlds.specs.Fitness.{IsFitSite};
ghost use Rattle.site_layouts.specs.Disks.{IsOpened};
ghost use Rattle.site_layouts.specs.Stages.{HeldSite, ShowsHeld};
ghost use Rattle.site_openings.specs.Openings.{AllowedBy, DisksRefuse, IsOfDisks, IsOpenFor, Named, RefusedBy};
ghost use Rattle.site_core.specs.Disks.{MayUseAll, contents_of, faults_on};
ghost use Rattle.site_core.specs.Faults.{IsFailure, fault_in, status_in};
ghost use Rattle.site_core.specs.Made.{IsMadeSite};
ghost use Rattle.site_core.specs.Opened.{IsOpenSite};
ghost use Rattle.site_core.specs.Quiet.{FaultsLater, IsQuiet, ReadsSame};
ghost use Rattle.site_forms.specs.Starts.{IsKept, IsOfChunk, WritesWithin};
ghost use Rattle.transactions_command.specs.Entering.{Enters, FindsBegun, ShowsUsed, if_unready, site_checks};

use site_core::{Site, SiteFault};
use site_disk::{Disk, Era};
use site_headers::SiteHead;
use site_lane_opening::open_site_lanes;
use site_opening::{if_restoring, open_site, open_site_log};
use std::alloc::Global;
use txn_table::Open;

/// What a script goes by: what formatting fixed of the site, and the transactions that are open at the end of its log.
#[derive(Drop)]
pub struct Begun {
    pub head: SiteHead,
    pub table: Open,
}

// Opens store, boot file and log of a site with no restore under way. Nothing is written.
fn open_log<D: Disk>(alloc: Global, site: &mut Site<D>, era: &Era) -> Result<Begun, SiteFault>
    requires may { MayUseAll D.Disk era.now site.old }
    requires made { IsMadeSite site.old }

    // Where these disks show a fit site it is opened, unless memory runs out or a disk fails, or it is refused as its course says.
    ensures finds { IsTrue D.is_modelled → (at : HeldSite) → IsFitSite at.site
        → ((name : DiskName) → IsOpened 2 name → ShowsHeld name at (contents_of D.Disk site.old name))
        → MatchResult result (λ begun. FindsBegun D.Disk era.now.number (head_of begun.head) begun.table at site.new)
        (λ fault. IsFailure fault ⊎ (if_unready at.site ≡ Some (fault_in fault))) }
    // Whatever they hold: the first check that doesn't let them pass refuses them.
    ensures answers { IsTrue D.is_modelled → MatchResult result
        (λ begun. AllowedBy site_checks (contents_of D.Disk site.old) × Named (head_of begun.head) (contents_of D.Disk site.old))
        (λ fault. IsFailure fault ⊎ RefusedBy site_checks (contents_of D.Disk site.old) (status_in fault)) }
    ensures refuses { IsTrue D.is_modelled → (status : Status) → RefusedBy site_checks (contents_of D.Disk site.old) status → IsErr result }
    ensures head { IfOk result (λ begun. IsHead (head_of begun.head)) }
    ensures answered { IfErr result (λ fault. IsFailure fault ⊎ IsOfDisks (status_in fault)) }
    ensures failed { (name : DiskName) → IsErrOf result (SiteFault.DiskFault name) → Rose (faults_on D.Disk site.old name) (faults_on D.Disk site.new name) }
    ensures opened { OnOk result (IsOpenLog site.new.log) }
    ensures made { IsMadeSite site.new }

    // What stays.
    ensures quiet { IsQuiet D.Disk site.old site.new }
    ensures later { FaultsLater D.Disk site.old site.new }
    ensures may { MayUseAll D.Disk era.now site.new }
    ensures same { OnOk result (ReadsSame D.Disk site.old site.new) }
    ensures kept { IfErr result (λ fault. IsFailure fault ⊎ ReadsSame D.Disk site.old site.new) }
{
    let head = open_site(alloc, site, era)?;
    if_restoring(site)?;
    let table = open_site_log(alloc, site, era, &head)?;
    Ok(Begun { head, table })
}

/// Opens a site with no restore under way in the next eras, its lanes too.
///
/// Up to the second era behind the present one nothing is written.
pub fn open_all<D: Disk>(
    alloc: Global,
    site: &mut Site<D>,
    era: &mut Era,
) -> Result<Begun, SiteFault>
    requires may { MayUseAll D.Disk era.old site.old }
    requires made { IsMadeSite site.old }
    requires number { era.old.number < 2 ^ 64 - 8 }

    // From a fit site that the disks show it comes to values that stand for it, or is refused as its course says, unless it is cut short.
    ensures enters { IsTrue D.is_modelled → (at : HeldSite) → IsFitSite at.site → ShowsUsed D.Disk at site.old
        → Enters D.Disk era.old.number era.new.number at site.old site.new result }
    // Whatever the disks hold: the first check that doesn't let them pass refuses them.
    ensures answers { IsTrue D.is_modelled → MatchResult result
        (λ begun. IsOpenFor transactions_form (contents_of D.Disk site.old))
        (λ fault. IsFailure fault ⊎ DisksRefuse transactions_form (contents_of D.Disk site.old) (status_in fault)) }
    // Where they refuse it nothing is written, but what is put back on other chunks.
    ensures harmless { IsTrue D.is_modelled → (status : Status) → DisksRefuse transactions_form (contents_of D.Disk site.old) status
        → IsErr result × (IsOfChunk status ⊎ IsQuiet D.Disk site.old site.new) }
    ensures kept { IfErr result (λ fault. IsFailure fault ⊎ (IsOfChunk (status_in fault) ⊎ IsKept D.Disk site.old site.new)) }
    ensures head { IfOk result (λ begun. IsHead (head_of begun.head)) }
    ensures answered { IfErr result (λ fault. IsFailure fault ⊎ IsOfDisks (status_in fault)) }
    ensures failed { (name : DiskName) → IsErrOf result (SiteFault.DiskFault name) → Rose (faults_on D.Disk site.old name) (faults_on D.Disk site.new name) }
    ensures opened { IfOk result (λ begun. IsOpenSite (length begun.head.spaces.items) site.new) }
    ensures made { IsMadeSite site.new }
    ensures written { WritesWithin D.Disk transactions_form site.old site.new }
    ensures later { FaultsLater D.Disk site.old site.new }
    ensures may { MayUseAll D.Disk era.new site.new }
    ensures era { era.new.number ≤ era.old.number + 4 }
    ensures era_later { era.old.number ≤ era.new.number }
    ensures key { era.new.key ≡ era.old.key }
{
    era.next();
    let begun = open_log(alloc, site, era)?;
    era.next();
    open_site_lanes(site, era, &begun.head)?;
    Ok(begun)
}
