//! A restore that is under way.
ghost use Rattle.std.specs.Prelude.{◌≡◌, ℕ, MatchResult};
ghost use Rattle.site_headers.specs.Heads.{Head};
ghost use Rattle.boot_file.specs.Boots.{IsOpen as IsOpenBoot, restore_in};
ghost use Rattle.site_courses.specs.Courses.{if_active};
ghost use Rattle.site_layouts.specs.Stages.{HeldSite, StandsFor};
ghost use Rattle.site_openings.specs.Openings.{Allows, Named, Refuses, no_restore};
ghost use Rattle.site_core.specs.Disks.{contents_of};
ghost use Rattle.site_core.specs.Faults.{fault_of, status_in};
ghost use Rattle.site_core.specs.Layers.{layers};
ghost use Rattle.site_opening.specs.Opens.{TellsBoot, restoring};

use site_core::{Site, SiteFault};
use site_disk::Disk;

/// Refuses a site with a restore under way, as its boot file tells. No disk is touched.
pub fn if_restoring<D: Disk>(site: &Site<D>) -> Result<(), SiteFault>
    requires opened { IsOpenBoot site.now.boot }
    ensures told { result ≡ restoring (restore_in site.now.boot) }
    // Where the values stand for a site, it is that site's restore.
    ensures stands { (from : ℕ) (at : HeldSite) → StandsFor (layers D.Disk) 1 from site.now at → fault_of result ≡ if_active at.site }
    // Whatever the disks hold, if the boot file tells what its disk does.
    ensures answers { (head : Head) → Named head (contents_of D.Disk site.now) → TellsBoot D.Disk head site.now
        → MatchResult result (λ _. Allows no_restore (contents_of D.Disk site.now)) (λ fault. Refuses no_restore (contents_of D.Disk site.now) (status_in fault)) }
{
    match site.boot.restore() {
        Some(restore) => Err(SiteFault::NeedsRestart(restore.number)),
        None => Ok(()),
    }
}
