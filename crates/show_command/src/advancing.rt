//! The lane of one space is brought to the end of the log.
ghost use Rattle.std.specs.Prelude.{◌≡◌, ◌⊎◌, ◌+◌, ◌-◌, ◌^◌, ◌<◌, ◌≤◌, ℕ, length, map, slice_get, IsTrue, IfErr, IsErrOf, OnOk, MatchResult};
ghost use Rattle.logical_log.specs.Rings.{IsOpen as IsOpenLog};
ghost use Rattle.site_disk.specs.Causes.{Rose};
ghost use Rattle.site_lanes.specs.Advancing.{Advances, IsAdvanced};
ghost use Rattle.site_lanes.specs.Lanes.{ChangesOne, OfEach, RoseAt};
ghost use Rattle.txn_table.specs.Table.{change_of};
ghost use Rattle.space_lane.specs.Lanes.{IsOpen as IsOpenLane, count_of};
ghost use Rattle.site_model.specs.declared.disk_name.DiskName.{DiskName};
ghost use Rattle.site_layouts.specs.Stages.{HeldSite, StandsFor};
ghost use Rattle.site_lane_opening.specs.Left.{OneLane};
ghost use Rattle.site_core.specs.Checkpoints.{IsCheckpointFault};
ghost use Rattle.site_core.specs.Disks.{MayUseAll, faults_on, images_of};
ghost use Rattle.site_core.specs.Faults.{IsFailure};
ghost use Rattle.site_core.specs.Layers.{layers};
ghost use Rattle.site_core.specs.Made.{IsMadeSite};
ghost use Rattle.site_core.specs.Quiet.{FaultsLater};
ghost use Rattle.show_command.specs.Bringing.{GoesAlong, IsBrought, MayBring, RestsBut};

use held_log::read_changes;
use lane_texts::the_pages_of_a_history_are_held;
use site_core::{Site, SiteFault};
use site_disk::{Disk, Era};
use site_lanes::advance_lane;
use std::alloc::Global;
use txn_table::Change;

// Brings the lane of a space to a position. Nothing else of the site is another.
fn advance_space<D: Disk>(
    site: &mut Site<D>,
    era: &Era,
    space: u16,
    to: u64,
    changes: &[Change],
) -> Result<(), SiteFault>
    requires may { MayUseAll D.Disk era.now site.old }
    requires lane { OfEach (λ place lane. place ≡ space → IsOpenLane lane) site.old.lanes.items }
    requires within { space < length site.old.lanes.items }
    requires to { to ≤ 2 ^ 48 }
    ensures others { site.new ≡ record site.old { lanes = site.new.lanes } }
    ensures works { ChangesOne (Advances D.Disk era.now to (map change_of changes.now)) space site.old.lanes.items site.new.lanes.items }
    ensures advanced { OnOk result (ChangesOne (IsAdvanced D.Disk era.now to (map change_of changes.now)) space site.old.lanes.items site.new.lanes.items) }
    ensures failed { IfErr result (λ fault. (fault ≡ SiteFault.DiskFault (DiskName.Chunk space)) × RoseAt D.Disk space site.old.lanes.items site.new.lanes.items) }
{
    advance_lane(&mut site.lanes, era, space, to, changes)?;
    Ok(())
}

/// Brings the lane of a space to the end of the log, by what its files tell.
///
/// It begins a new era where it ended well.
pub fn bring_lane<D: Disk>(
    alloc: Global,
    site: &mut Site<D>,
    era: &mut Era,
    space: u16,
) -> Result<(), SiteFault>
    requires may { MayUseAll D.Disk era.old site.old }
    requires left { era.old.number < 2 ^ 64 - 1 }
    requires log { IsOpenLog site.old.log }
    requires lane { OfEach (λ place lane. place ≡ space → IsOpenLane lane) site.old.lanes.items }
    requires within { space < length site.old.lanes.items }

    // From each fit site with no restore under way, its log there and this lane not lost, that goes to the end alone, whatever the other
    // chunks hold.
    ensures goes { IsTrue D.is_modelled → (at : HeldSite) → StandsFor (layers D.Disk) 2 era.old.number site.old at → OneLane D.Disk era.old.number space at site.old
        → MayBring space at.site → GoesAlong D.Disk era.old.number space at site.old site.new }
    ensures brought { IsTrue D.is_modelled → (at : HeldSite) → StandsFor (layers D.Disk) 2 era.old.number site.old at → OneLane D.Disk era.old.number space at site.old
        → MayBring space at.site → MatchResult result (λ _. IsBrought D.Disk era.new.number space at site.old site.new) IsFailure }
    ensures only { IfErr result IsCheckpointFault }
    ensures failed { (name : DiskName) → IsErrOf result (SiteFault.DiskFault name) → Rose (faults_on D.Disk site.old name) (faults_on D.Disk site.new name) }

    // Nothing is written on other disks.
    ensures others { RestsBut D.Disk space site.old site.new }
    ensures counted { (count : ℕ) → OfEach (λ place lane. place ≡ space → count_of lane ≡ count) site.old.lanes.items
        → OfEach (λ place lane. place ≡ space → count_of lane ≡ count) site.new.lanes.items }
    ensures as_many { length site.new.lanes.items ≡ length site.old.lanes.items }
    ensures made { IsMadeSite site.old → IsMadeSite site.new }
    ensures later { FaultsLater D.Disk site.old site.new }
    ensures may { MayUseAll D.Disk era.new site.new }
    ensures eras { (era.old.number ≤ era.new.number) × (era.new.number ≤ era.old.number + 1) }
    ensures key { era.new.key ≡ era.old.key }
{
    the_pages_of_a_history_are_held();
    let to = site.log.end();
    let held = read_changes(alloc, &mut site.log, era)?;
    advance_space(site, era, space, to, &held.changes)?;
    era.next();
    Ok(())
}
