//! The marks of a lane among its images.
ghost use Rattle.std.specs.Prelude.{◌≡◌, ℕ, ◌+◌, ◌<◌, ◌≤◌, IsTrue, IfErr, MatchOption, OnOk};
ghost use Rattle.site_disk.specs.Images.{IsSynced, Leaves, OnlyAfter};
ghost use Rattle.site_disk.specs.Ledger.{MayUse, Uses};
ghost use Rattle.site_disk.specs.Seen.{seen};
ghost use Rattle.backup_lines.specs.declared.lanes.LaneState.{LaneState as StateView};
ghost use Rattle.lane_mark.specs.Layout.{FitsChain, FitsState};
ghost use Rattle.space_lane.specs.Chunks.{SamePages};
ghost use Rattle.space_lane.specs.Lanes.{Agrees, IsMade, IsOpen, Stands, TellsOf, count_of, disk_of, space_of, state_of};
ghost use Rattle.space_lane.specs.Stops.{MaySet};
ghost use Rattle.lane_restore.specs.Images.{step_len};
ghost use Rattle.lane_restore.specs.Jobs.{FailsBy};
ghost use Rattle.lane_restore.specs.Steps.{behind_image, behind_step, begun};

use crate::images::entries_in;
use crate::job::{ImageJob, LaneEnd};
use backup_lines::{Chain, LaneState};
use site_disk::{Disk, Era};
use space_lane::Lane;

/// Behind a whole image: amid the next one, or behind the last.
fn behind_image(restore: u64, chain: &Chain, level: u8, at: u64) -> LaneState
    requires { level < 255 }
    ensures { result ≡ behind_image restore chain.now level at }
{
    if level + 1 < chain.len {
        LaneState::Image {
            restore,
            chain: *chain,
            image: level + 1,
            entries: 0,
        }
    } else {
        LaneState::Replay {
            restore,
            chain: *chain,
            upto: at,
            part: 0,
        }
    }
}

/// Behind a step that merged up to so many entries of an image.
pub(crate) fn behind_step(restore: u64, chain: &Chain, image: &ImageJob, merged: u32) -> LaneState
    requires { image.now.head.level < 255 }
    ensures { (entries : ℕ) → merged ≡ entries + step_len image.now.size entries → result ≡ behind_step restore chain.now image.now entries }
{
    if entries_in(image.size) <= u64::from(merged) {
        return behind_image(restore, chain, image.head.level, image.head.at);
    }
    LaneState::Image {
        restore,
        chain: *chain,
        image: image.head.level,
        entries: merged,
    }
}

/// Syncs the pages, and marks a state.
pub(crate) fn mark<D: Disk>(lane: &mut Lane<D>, era: &Era, state: &LaneState) -> Result<(), LaneEnd>
    requires era { MayUse era.now (D.ledger (disk_of lane.old)) }
    requires opened { IsOpen lane.old }
    requires fits { FitsState state.now }
    ensures made { IsMade lane.new }
    ensures space { space_of lane.new ≡ space_of lane.old }
    ensures opened { OnOk result (IsOpen lane.new) }
    ensures told { OnOk result (TellsOf (count_of lane.old) state.now lane.new) }
    ensures stands { IsTrue D.is_modelled → (site count : ℕ) (before : StateView) → Agrees site count before (D.bytes (disk_of lane.old)) lane.old
        → OnOk result (Stands site count state.now (seen D.Disk (disk_of lane.new)) lane.new) }
    ensures pages { IsTrue D.is_modelled → (site count : ℕ) (before : StateView) → Agrees site count before (D.bytes (disk_of lane.old)) lane.old
        → OnOk result (SamePages (D.bytes (disk_of lane.old)) (D.bytes (disk_of lane.new))) }
    ensures durable { IsTrue D.is_modelled
        → OnOk result (OnlyAfter era.now.number (D.bytes (disk_of lane.new)) (D.image (disk_of lane.new))) }
    ensures crash { IsTrue D.is_modelled → (site count : ℕ) (before : StateView) → Agrees site count before (D.bytes (disk_of lane.old)) lane.old
        → Leaves era.now.number (MaySet state.now (D.bytes (disk_of lane.old))) (D.image (disk_of lane.old)) (D.image (disk_of lane.new)) }
    ensures ledger { Uses era.now 2 13059 (D.ledger (disk_of lane.old)) (D.ledger (disk_of lane.new)) }
    ensures bound { IsTrue D.is_modelled → (site count : ℕ) (before : StateView) → Agrees site count before (D.bytes (disk_of lane.old)) lane.old
        → (D.ledger (disk_of lane.new)).written ≤ (D.ledger (disk_of lane.old)).written + 259 }
    ensures failed { IfErr result (FailsBy (D.ledger (disk_of lane.old)).faults (D.ledger (disk_of lane.new)).faults) }
{
    match lane.set_state(era, state) {
        Ok(()) => Ok(()),
        Err(_) => Err(LaneEnd::ChunkFailed),
    }
}

// Where the work on an emptied lane begins.
fn first_state(state: &LaneState, chain: &Chain) -> Option<LaneState>
    ensures { MatchOption result (begun state.now chain.now ≡ state.now) (λ first. first ≡ begun state.now chain.now) }
{
    match *state {
        LaneState::Blank { restore } => Some(LaneState::Image {
            restore,
            chain: *chain,
            image: 0,
            entries: 0,
        }),
        LaneState::At { .. } | LaneState::Image { .. } | LaneState::Replay { .. } => None,
    }
}

/// Marks an emptied lane as amid the first image, before anything of that is written. Any other stays as it is.
pub(crate) fn mark_begun<D: Disk>(
    lane: &mut Lane<D>,
    era: &Era,
    chain: &Chain,
) -> Result<(), LaneEnd>
    requires era { MayUse era.now (D.ledger (disk_of lane.old)) }
    requires opened { IsOpen lane.old }
    requires chain { FitsChain chain.now }
    ensures made { IsMade lane.new }
    ensures space { space_of lane.new ≡ space_of lane.old }
    ensures opened { OnOk result (IsOpen lane.new) }
    ensures told { OnOk result (TellsOf (count_of lane.old) (begun (state_of lane.old) chain.now) lane.new) }
    ensures stands { IsTrue D.is_modelled → (site count : ℕ) → Stands site count (state_of lane.old) (seen D.Disk (disk_of lane.old)) lane.old
        → OnOk result (Stands site count (begun (state_of lane.old) chain.now) (seen D.Disk (disk_of lane.new)) lane.new) }
    ensures pages { IsTrue D.is_modelled → (site count : ℕ) → Stands site count (state_of lane.old) (seen D.Disk (disk_of lane.old)) lane.old
        → OnOk result (SamePages (D.bytes (disk_of lane.old)) (D.bytes (disk_of lane.new))) }
    ensures durable { IsTrue D.is_modelled → IsSynced (seen D.Disk (disk_of lane.old))
        → OnOk result (OnlyAfter era.now.number (D.bytes (disk_of lane.new)) (D.image (disk_of lane.new))) }
    ensures crash { IsTrue D.is_modelled → (site count : ℕ) → Stands site count (state_of lane.old) (seen D.Disk (disk_of lane.old)) lane.old
        → Leaves era.now.number (MaySet (begun (state_of lane.old) chain.now) (D.bytes (disk_of lane.old)))
        (D.image (disk_of lane.old)) (D.image (disk_of lane.new)) }
    ensures ledger { Uses era.now 2 13059 (D.ledger (disk_of lane.old)) (D.ledger (disk_of lane.new)) }
    ensures bound { IsTrue D.is_modelled → (site count : ℕ) → Stands site count (state_of lane.old) (seen D.Disk (disk_of lane.old)) lane.old
        → (D.ledger (disk_of lane.new)).written ≤ (D.ledger (disk_of lane.old)).written + 259 }
    ensures failed { IfErr result (FailsBy (D.ledger (disk_of lane.old)).faults (D.ledger (disk_of lane.new)).faults) }
{
    match first_state(lane.state(), chain) {
        Some(state) => mark(lane, era, &state),
        None => Ok(()),
    }
}
