//! The lanes of all spaces.
ghost use Rattle.std.specs.Prelude.{◌≡◌, ◌⊎◌, ◌+◌, ◌-◌, ◌^◌, ◌<◌, ◌≤◌, [], ◌∷◌, length, IsTrue, None, Some, OnOk, IfErr, MatchResult, IsErrOf};
ghost use Rattle.site_disk.specs.Causes.{Rose};
ghost use Rattle.site_headers.specs.Heads.{IsHead};
ghost use Rattle.site_headers.specs.Views.{head_of};
ghost use Rattle.logical_log.specs.Rings.{IsOpen as IsOpenLog};
ghost use Rattle.site_lanes.specs.Lanes.{SameFrom};
ghost use Rattle.site_model.specs.declared.disk_name.DiskName.{DiskName};
ghost use Rattle.site_model.specs.declared.status.Status.{Status};
ghost use Rattle.site_courses.specs.Courses.{if_any_lost};
ghost use Rattle.site_layouts.specs.Stages.{HeldSite, StandsFor};
ghost use Rattle.site_commands.specs.Commands.{AddsNone};
ghost use Rattle.site_openings.specs.Openings.{AllowedBy, Named, RefusedBy, all_lanes};
ghost use Rattle.site_core.specs.Disks.{MayUseAll, contents_of, images_of, faults_on};
ghost use Rattle.site_core.specs.Faults.{IsFailure, fault_in, status_in};
ghost use Rattle.site_core.specs.Layers.{layers};
ghost use Rattle.site_core.specs.Made.{IsMadeSite};
ghost use Rattle.site_core.specs.Opened.{IsOpenSite};
ghost use Rattle.site_core.specs.Quiet.{FaultsLater};
ghost use Rattle.site_lane_opening.specs.Left.{IsLanesFault, LanesLeft, ShowLanes};

use crate::trying::try_all;
use site_core::{Site, SiteFault};
use site_disk::{Disk, Era};
use site_headers::SiteHead;

/// Syncs the lanes of the site's spaces, and opens them in the next era. It ends in the one behind.
///
/// Of a step that was stopped, what was kept is put back. A lane that is lost doesn't keep the others from that.
pub fn open_site_lanes<D: Disk>(
    site: &mut Site<D>,
    era: &mut Era,
    head: &SiteHead,
) -> Result<(), SiteFault>
    requires may { MayUseAll D.Disk era.old site.old }
    requires made { IsMadeSite site.old }
    requires head { IsHead (head_of head.now) }
    requires left { era.old.number + 1 < 2 ^ 64 - 1 }

    // Where the values stand for a site whose lanes the chunks show, all of them are opened, unless one is lost or a disk fails.
    ensures stands { IsTrue D.is_modelled → (at : HeldSite) → StandsFor (layers D.Disk) 2 era.old.number site.old at → head_of head.now ≡ at.site.head
        → ShowLanes D.Disk None at site.old
        → MatchResult result (λ _. StandsFor (layers D.Disk) 3 era.new.number site.new at × (if_any_lost at.site ≡ None))
        (λ fault. IsFailure fault ⊎ (Some (fault_in fault) ≡ if_any_lost at.site)) }
    // Wherever it stops, no image is new, or the lanes were synced and each chunk shows its lane still.
    ensures leaves { IsTrue D.is_modelled → (at : HeldSite) → StandsFor (layers D.Disk) 2 era.old.number site.old at → head_of head.now ≡ at.site.head
        → ShowLanes D.Disk None at site.old
        → AddsNone (images_of D.Disk site.old) (images_of D.Disk site.new) ⊎ LanesLeft D.Disk None era.old.number at site.old site.new }
    // They were synced but where a disk failed, and it ended in the second era behind where they are open.
    ensures left { IsTrue D.is_modelled → (at : HeldSite) → StandsFor (layers D.Disk) 2 era.old.number site.old at → head_of head.now ≡ at.site.head
        → ShowLanes D.Disk None at site.old
        → MatchResult result (λ _. LanesLeft D.Disk None era.old.number at site.old site.new)
        (λ fault. IsFailure fault ⊎ LanesLeft D.Disk None era.old.number at site.old site.new) }
    ensures done { OnOk result (era.new.number ≡ era.old.number + 2) }

    // Whatever the chunks hold: the lowest lost one is named, else the lowest with a bad mark.
    ensures answers { IsTrue D.is_modelled → Named (head_of head.now) (contents_of D.Disk site.old) → MatchResult result
        (λ _. AllowedBy (all_lanes ∷ []) (contents_of D.Disk site.old))
        (λ fault. IsFailure fault ⊎ RefusedBy (all_lanes ∷ []) (contents_of D.Disk site.old) (status_in fault)) }
    ensures refuses { IsTrue D.is_modelled → Named (head_of head.now) (contents_of D.Disk site.old) → (status : Status)
        → RefusedBy (all_lanes ∷ []) (contents_of D.Disk site.old) status
        → MatchResult result (λ _. ⊥) (λ fault. IsFailure fault ⊎ (status_in fault ≡ status)) }
    ensures only { IfErr result (IsLanesFault None (head_of head.now)) }
    ensures failed { (name : DiskName) → IsErrOf result (SiteFault.DiskFault name) → Rose (faults_on D.Disk site.old name) (faults_on D.Disk site.new name) }
    ensures opened { IsOpenLog site.old.log → OnOk result (IsOpenSite (length head.now.spaces.items) site.new) }
    ensures made { IsMadeSite site.new }

    // What stays.
    ensures others { site.new ≡ record site.old { lanes = site.new.lanes } }
    ensures beyond { SameFrom (length head.now.spaces.items) site.old.lanes.items site.new.lanes.items }
    ensures later { FaultsLater D.Disk site.old site.new }
    ensures may { MayUseAll D.Disk era.new site.new }
    ensures era { era.new.number ≤ era.old.number + 2 }
    ensures era_later { era.old.number ≤ era.new.number }
    ensures key { era.new.key ≡ era.old.key }
{
    try_all(site, era, head)
}
