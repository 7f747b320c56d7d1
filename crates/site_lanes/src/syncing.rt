//! The syncing of lanes.
ghost use Rattle.std.specs.Prelude.{◌≡◌, ◌+◌, ◌<◌, ◌≤◌, length, OnOk, IfErr};
ghost use Rattle.site_lanes.specs.Lanes.{OfFirst, SameFrom, ChangesOne, MayUseEach, IsSyncedBy, Syncs, RoseAt, FailsAt};

use crate::refusals::LanesFault;
use site_disk::{Disk, Era};
use space_lane::Lane;

/// Syncs the lane of one space.
pub fn sync_lane<D: Disk>(lanes: &mut [Lane<D>], era: &Era, space: u16) -> Result<(), LanesFault>
    requires within { space < length lanes.old }
    requires era { MayUseEach D.Disk era.now lanes.old }
    ensures synced { OnOk result (ChangesOne (λ was is. IsSyncedBy D.Disk era.now was is) space lanes.old lanes.new) }
    ensures syncs { ChangesOne (Syncs D.Disk era.now) space lanes.old lanes.new }
    ensures failed { IfErr result (λ fault. (fault ≡ LanesFault.Failed space) × RoseAt D.Disk space lanes.old lanes.new) }
{
    let lane = &mut lanes[usize::from(space)];
    match lane.sync(era) {
        Ok(()) => Ok(()),
        Err(_) => Err(LanesFault::Failed { space }),
    }
}

/// Syncs the first so many lanes, in order. A disk that fails ends it.
pub fn sync_lanes<D: Disk>(lanes: &mut [Lane<D>], era: &Era, count: u16) -> Result<(), LanesFault>
    requires within { count ≤ length lanes.old }
    requires era { MayUseEach D.Disk era.now lanes.old }
    ensures synced { OnOk result (OfFirst count (λ space was is. IsSyncedBy D.Disk era.now was is) lanes.old lanes.new) }
    ensures syncs { OfFirst count (λ space was is. Syncs D.Disk era.now was is) lanes.old lanes.new }
    ensures failed { IfErr result (FailsAt D.Disk count lanes.old lanes.new) }
    ensures beyond { SameFrom count lanes.old lanes.new }
{
    for space in 0..count {
        sync_lane(lanes, era, space)?;
    }
    Ok(())
}
