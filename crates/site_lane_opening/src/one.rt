//! The lane of one space.
ghost use Rattle.std.specs.Prelude.{◌≡◌, ◌⊎◌, ℕ, ◌+◌, ◌-◌, ◌^◌, ◌<◌, ◌≤◌, length, slice_get, IsTrue, Some, None, OnOk, IfErr, MatchResult, IsErrOf};
ghost use Rattle.site_disk.specs.Causes.{Rose};
ghost use Rattle.site_headers.specs.Heads.{IsHead};
ghost use Rattle.site_headers.specs.Views.{head_of};
ghost use Rattle.space_lane.specs.Lanes.{IsOpen, count_of};
ghost use Rattle.site_lanes.specs.Lanes.{OfEach};
ghost use Rattle.site_model.specs.declared.disk_name.DiskName.{DiskName};
ghost use Rattle.site_model.specs.declared.status.Status.{Status};
ghost use Rattle.site_worlds.specs.Lanes.{pages_of_space};
ghost use Rattle.site_courses.specs.Courses.{if_this_lost};
ghost use Rattle.site_layouts.specs.Stages.{HeldSite, StandsFor};
ghost use Rattle.site_commands.specs.Commands.{AddsNone};
ghost use Rattle.site_openings.specs.Openings.{LanesAllow, LanesRefuse};
ghost use Rattle.site_core.specs.Disks.{MayUseAll, contents_of, images_of, faults_on};
ghost use Rattle.site_core.specs.Faults.{IsFailure, fault_in, status_in};
ghost use Rattle.site_core.specs.Layers.{layers};
ghost use Rattle.site_core.specs.Made.{IsMadeSite};
ghost use Rattle.site_core.specs.Quiet.{FaultsLater, ReadsSame};
ghost use Rattle.site_lane_opening.specs.Left.{IsLanesFault, LanesLeft, OneLane, ShowLanes};

use crate::trying::try_one;
use site_core::{Site, SiteFault};
use site_disk::{Disk, Era};
use site_headers::SiteHead;

/// Syncs the lane of one space, and opens it in the next era. It ends in the one behind. The other lanes stay as they are.
pub fn open_site_lane<D: Disk>(
    site: &mut Site<D>,
    era: &mut Era,
    head: &SiteHead,
    space: u16,
) -> Result<(), SiteFault>
    requires may { MayUseAll D.Disk era.old site.old }
    requires made { IsMadeSite site.old }
    requires head { IsHead (head_of head.now) }
    requires space { space < length head.now.spaces.items }
    requires left { era.old.number + 1 < 2 ^ 64 - 1 }

    // Where the values stand for a site whose lane the chunk shows, that is opened, unless it is lost or its disk fails.
    ensures stands { IsTrue D.is_modelled → (at : HeldSite) → StandsFor (layers D.Disk) 2 era.old.number site.old at → head_of head.now ≡ at.site.head
        → ShowLanes D.Disk (Some space) at site.old
        → MatchResult result
        (λ _. StandsFor (layers D.Disk) 2 era.new.number site.new at × OneLane D.Disk era.new.number space at site.new × (if_this_lost space at.site ≡ None))
        (λ fault. IsFailure fault ⊎ (Some (fault_in fault) ≡ if_this_lost space at.site)) }
    // Wherever it stops, no image is new, or the lane was synced and its chunk shows it still.
    ensures leaves { IsTrue D.is_modelled → (at : HeldSite) → StandsFor (layers D.Disk) 2 era.old.number site.old at → head_of head.now ≡ at.site.head
        → ShowLanes D.Disk (Some space) at site.old
        → AddsNone (images_of D.Disk site.old) (images_of D.Disk site.new) ⊎ LanesLeft D.Disk (Some space) era.old.number at site.old site.new }
    // It was synced but where its disk failed, and it ended in the second era behind where it is open.
    ensures left { IsTrue D.is_modelled → (at : HeldSite) → StandsFor (layers D.Disk) 2 era.old.number site.old at → head_of head.now ≡ at.site.head
        → ShowLanes D.Disk (Some space) at site.old
        → MatchResult result (λ _. LanesLeft D.Disk (Some space) era.old.number at site.old site.new)
        (λ fault. IsFailure fault ⊎ LanesLeft D.Disk (Some space) era.old.number at site.old site.new) }
    ensures done { OnOk result (era.new.number ≡ era.old.number + 2) }

    // Whatever the chunk holds.
    ensures answers { IsTrue D.is_modelled → MatchResult result
        (λ _. LanesAllow (Some space) (head_of head.now) (contents_of D.Disk site.old))
        (λ fault. IsFailure fault ⊎ LanesRefuse (Some space) (head_of head.now) (contents_of D.Disk site.old) (status_in fault)) }
    ensures refuses { IsTrue D.is_modelled → (status : Status) → LanesRefuse (Some space) (head_of head.now) (contents_of D.Disk site.old) status
        → MatchResult result (λ _. ⊥) (λ fault. IsFailure fault ⊎ (status_in fault ≡ status)) }
    ensures only { IfErr result (IsLanesFault (Some space) (head_of head.now)) }
    ensures failed { (name : DiskName) → IsErrOf result (SiteFault.DiskFault name) → Rose (faults_on D.Disk site.old name) (faults_on D.Disk site.new name) }
    ensures opened { OnOk result (OfEach (λ place lane. place ≡ space → IsOpen lane) site.new.lanes.items) }
    ensures counted { OnOk result (OfEach (λ place lane. place ≡ space → count_of lane ≡ pages_of_space (head_of head.now).spaces space) site.new.lanes.items) }
    ensures made { IsMadeSite site.new }

    // What stays. At a refusal a crash leaves no more than before, and a read gives the same.
    ensures refused { IfErr result (λ fault. IsFailure fault
        ⊎ (AddsNone (images_of D.Disk site.old) (images_of D.Disk site.new) × ReadsSame D.Disk site.old site.new)) }
    ensures others { site.new ≡ record site.old { lanes = site.new.lanes } }
    ensures other_lanes { (n : ℕ) → (n ≡ space → ⊥) → slice_get site.new.lanes.items n ≡ slice_get site.old.lanes.items n }
    ensures later { FaultsLater D.Disk site.old site.new }
    ensures may { MayUseAll D.Disk era.new site.new }
    ensures era { era.new.number ≤ era.old.number + 2 }
    ensures era_later { era.old.number ≤ era.new.number }
    ensures key { era.new.key ≡ era.old.key }
{
    try_one(site, era, head, space)
}
