//! Lanes that are brought forward.
ghost use Rattle.std.specs.Prelude.{◌≡◌, ◌↔◌, ◌+◌, ◌^◌, ◌<◌, ◌≤◌, length, map, true, IsTrue, OnOk, IfErr};
ghost use Rattle.site_disk.specs.Ledger.{MayUse};
ghost use Rattle.space_lane.specs.Lanes.{IsOpen, disk_of, state_of};
ghost use Rattle.txn_table.specs.Table.{change_of};
ghost use Rattle.site_lanes.specs.Advancing.{is_at, IsPlaced, Advances, IsAdvanced, MayHaveAdvanced};
ghost use Rattle.site_lanes.specs.Lanes.{OfEach, OfFirst, SameFrom, ChangesOne, MayUseEach, RoseAt, RoseBy, FailsAt};

use crate::refusals::LanesFault;
use backup_lines::LaneState;
use site_disk::{Disk, Era};
use space_lane::Lane;
use txn_table::Change;

/// Whether a lane that stands somewhere is at a position. One that is on its way through a restore counts as there.
fn is_at(state: &LaneState, to: u64) -> bool
    ensures { result ≡ is_at to state.now }
{
    match *state {
        LaneState::At { upto, part } => upto == to && part == 0,
        LaneState::Blank { .. } | LaneState::Image { .. } | LaneState::Replay { .. } => true,
    }
}

/// Whether each of the first so many lanes that stands somewhere is at a position.
pub fn are_at<D: Disk>(lanes: &[Lane<D>], count: u16, to: u64) -> bool
    requires within { count ≤ length lanes.now }
    requires opened { OfEach (λ space lane. space < count → IsOpen lane) lanes.now }
    ensures { IsTrue result ↔ OfEach (λ space lane. space < count → is_at to (state_of lane) ≡ true) lanes.now }
{
    for space in 0..count {
        if !is_at(lanes[usize::from(space)].state(), to) {
            return false;
        }
    }
    true
}

fn is_placed(state: &LaneState) -> bool
    ensures { IsTrue result ↔ IsPlaced state.now }
{
    matches!(state, LaneState::At { .. })
}

// Brings one lane to a position, where it stands somewhere.
fn advance_one<D: Disk>(
    lane: &mut Lane<D>,
    era: &Era,
    space: u16,
    to: u64,
    changes: &[Change],
) -> Result<(), LanesFault>
    requires era { MayUse era.now (D.ledger (disk_of lane.old)) }
    requires opened { IsOpen lane.old }
    requires to { to ≤ 2 ^ 48 }
    ensures advanced { OnOk result (IsAdvanced D.Disk era.now to (map change_of changes.now) lane.old lane.new) }
    ensures works { Advances D.Disk era.now to (map change_of changes.now) lane.old lane.new }
    ensures failed { IfErr result (RoseBy D.Disk space lane.old lane.new) }
{
    if !is_placed(lane.state()) {
        return Ok(());
    }
    match lane.advance(era, to, changes) {
        Ok(()) => Ok(()),
        Err(_) => Err(LanesFault::Failed { space }),
    }
}

/// Brings the lane of one space to a position, by changes that may be of all spaces, where it stands somewhere. One that is
/// on its way through a restore stays as it is.
pub fn advance_lane<D: Disk>(
    lanes: &mut [Lane<D>],
    era: &Era,
    space: u16,
    to: u64,
    changes: &[Change],
) -> Result<(), LanesFault>
    requires within { space < length lanes.old }
    requires era { MayUseEach D.Disk era.now lanes.old }
    requires opened { OfEach (λ place lane. place ≡ space → IsOpen lane) lanes.old }
    requires to { to ≤ 2 ^ 48 }
    ensures advanced { OnOk result (ChangesOne (IsAdvanced D.Disk era.now to (map change_of changes.now)) space lanes.old lanes.new) }
    ensures works { ChangesOne (Advances D.Disk era.now to (map change_of changes.now)) space lanes.old lanes.new }
    ensures failed { IfErr result (λ fault. (fault ≡ LanesFault.Failed space) × RoseAt D.Disk space lanes.old lanes.new) }
{
    let lane = &mut lanes[usize::from(space)];
    advance_one(lane, era, space, to, changes)
}

/// Brings the first so many lanes to a position, in order. A disk that fails ends it.
pub fn advance_lanes<D: Disk>(
    lanes: &mut [Lane<D>],
    era: &Era,
    count: u16,
    to: u64,
    changes: &[Change],
) -> Result<(), LanesFault>
    requires within { count ≤ length lanes.old }
    requires era { MayUseEach D.Disk era.now lanes.old }
    requires opened { OfEach (λ place lane. place < count → IsOpen lane) lanes.old }
    requires to { to ≤ 2 ^ 48 }
    ensures advanced { OnOk result (OfFirst count (λ space was is. IsAdvanced D.Disk era.now to (map change_of changes.now) was is) lanes.old lanes.new) }
    ensures works { OfFirst count (λ space was is. MayHaveAdvanced D.Disk era.now to (map change_of changes.now) was is) lanes.old lanes.new }
    ensures failed { IfErr result (FailsAt D.Disk count lanes.old lanes.new) }
    ensures beyond { SameFrom count lanes.old lanes.new }
{
    for space in 0..count {
        advance_lane(lanes, era, space, to, changes)?;
    }
    Ok(())
}
