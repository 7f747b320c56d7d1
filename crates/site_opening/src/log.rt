//! The log of a site opened, behind its store and its boot file.
ghost use Rattle.std.specs.Prelude.{◌≡◌, ◌⊎◌, ◌+◌, IsTrue, None, OnOk, IfErr, MatchResult, IsErrOf};
ghost use Rattle.site_disk.specs.Causes.{Rose};
ghost use Rattle.site_disk.specs.Ledger.{MayUse};
ghost use Rattle.site_headers.specs.Views.{head_of};
ghost use Rattle.logical_log.specs.Rings.{disk_of, IsMade, IsOpen as IsOpenLog};
ghost use Rattle.site_model.specs.declared.disk_name.DiskName.{DiskName};
ghost use Rattle.site_model.specs.declared.disk_name.DiskName.TheVariants.{Log as TheLog};
ghost use Rattle.site_model.specs.declared.status.Status.{Status};
ghost use Rattle.site_layouts.specs.Stages.{HeldSite, ShowsHeld, StandsFor};
ghost use Rattle.site_openings.specs.Openings.{AllowedBy, IsOfDisks, Named, NamesAsWell, RefusedBy};
ghost use Rattle.site_core.specs.Disks.{MayUseAll, contents_of, faults_on};
ghost use Rattle.site_core.specs.Faults.{IsFailure, status_in};
ghost use Rattle.site_core.specs.Layers.{layers};
ghost use Rattle.site_core.specs.Made.{IsMadeSite};
ghost use Rattle.site_core.specs.Quiet.{OnlyReads, ReadsSame};
ghost use Rattle.site_opening.specs.LogSteps.{MissesLog, OpensLog};
ghost use Rattle.site_opening.specs.Opens.{FindsLog, log_bytes, log_checks};

use held_log::read_open;
use logical_log::LogRing;
use site_core::{Site, SiteFault};
use site_disk::{Disk, Era};
use site_headers::SiteHead;
use std::alloc::Global;
use txn_table::Open;

// Opens the log of a site, and reads its records.
fn open_records<D: Disk>(
    alloc: Global,
    log: &mut LogRing<D>,
    era: &Era,
    site: u64,
) -> Result<Open, SiteFault>
    requires era { MayUse era.now (D.ledger (disk_of log.old)) }
    requires made { IsMade log.old }
    ensures { MatchResult result (λ running. OpensLog D.Disk era.now site running log.old log.new) (λ fault. MissesLog D.Disk era.now site fault log.old log.new) }
{
    log.open(era, site)?;
    Ok(read_open(alloc, log, era)?)
}

/// Opens the log, after a sync, and reads the records that it holds: the transactions that are open at its end. Nothing is written.
pub fn open_site_log<D: Disk>(
    alloc: Global,
    site: &mut Site<D>,
    era: &Era,
    head: &SiteHead,
) -> Result<Open, SiteFault>
    requires may { MayUseAll D.Disk era.now site.old }
    requires made { IsMadeSite site.old }

    // Where store and boot file stand for a site that this log is of, it is opened, unless it is lost there, memory runs out or its disk fails.
    ensures stands { IsTrue D.is_modelled → (at : HeldSite) → StandsFor (layers D.Disk) 1 (era.now.number + 1) site.old at → head_of head.now ≡ at.site.head
        → ShowsHeld TheLog at (contents_of D.Disk site.old TheLog)
        → MatchResult result (λ running. FindsLog D.Disk era.now.number running at site.new) (λ fault. IsFailure fault ⊎ ((fault ≡ SiteFault.LogLost) × (at.site.ring ≡ None))) }
    // Whatever the disks hold: the first check that doesn't let them pass refuses them.
    ensures answers { IsTrue D.is_modelled → Named (head_of head.now) (contents_of D.Disk site.old) → MatchResult result
        (λ _. AllowedBy log_checks (contents_of D.Disk site.old))
        (λ fault. IsFailure fault ⊎ RefusedBy log_checks (contents_of D.Disk site.old) (status_in fault)) }
    ensures refuses { IsTrue D.is_modelled → Named (head_of head.now) (contents_of D.Disk site.old) → (status : Status) → RefusedBy log_checks (contents_of D.Disk site.old) status
        → MatchResult result (λ _. ⊥) (λ fault. IsFailure fault ⊎ NamesAsWell (status_in fault) status) }
    ensures only { IfErr result (λ fault. IsFailure fault ⊎ IsOfDisks (status_in fault)) }
    ensures failed { (name : DiskName) → IsErrOf result (SiteFault.DiskFault name) → Rose (faults_on D.Disk site.old name) (faults_on D.Disk site.new name) }
    ensures opened { OnOk result (IsOpenLog site.new.log) }
    ensures made { IsMadeSite site.new }

    // What stays.
    ensures others { site.new ≡ record site.old { log = site.new.log } }
    ensures reads { OnlyReads D.Disk era.now log_bytes site.old site.new }
    ensures same { OnOk result (ReadsSame D.Disk site.old site.new) }
    ensures refused_same { IfErr result (λ fault. (IsFailure fault → ⊥) → ReadsSame D.Disk site.old site.new) }
{
    open_records(alloc, &mut site.log, era, head.site)
}
