//! The log replayed behind the images, and the end of a restore.
ghost use Rattle.std.specs.Prelude.{◌≡◌, ◌↔◌, ◌+◌, ◌*◌, ◌^◌, ◌≤◌, ℕ, false, true, map, None, Some, IsTrue, IfSome};
ghost use Rattle.site_disk.specs.Images.{IsSynced, Leaves, OnlyAfter};
ghost use Rattle.site_disk.specs.Ledger.{MayUse, Uses};
ghost use Rattle.site_disk.specs.Seen.{seen};
ghost use Rattle.log_history.specs.History.{History};
ghost use Rattle.txn_table.specs.Table.{change_of};
ghost use Rattle.backup_lines.specs.declared.lanes.LaneState.{LaneState as StateView};
ghost use Rattle.lane_ways.specs.Pictures.{Stand};
ghost use Rattle.lane_ways.specs.Ways.{lane_pages};
ghost use Rattle.lane_advance.specs.Advances.{Leads, MayAdvance};
ghost use Rattle.space_lane.specs.Chunks.{SamePages};
ghost use Rattle.space_lane.specs.Lanes.{Agrees, IsMade, IsOpen, Stands, TellsOf, count_of, disk_of, space_of, state_of};
ghost use Rattle.space_lane.specs.Steps.{StepsTo};
ghost use Rattle.space_lane.specs.Stops.{MaySet};
ghost use Rattle.lane_restore.specs.Jobs.{EndsReplaying, EndsWell, IsJob, IsReplaying};

use crate::job::{LaneEnd, LaneJob};
use backup_lines::LaneState;
use site_disk::{Disk, Era};

/// One step of the replay, of at most 16 pages. It answers whether the lane stands short of the restore's position still: at that, the
/// work is done.
pub fn step_replay<D: Disk>(job: &mut LaneJob<D>, era: &Era) -> bool
    requires era { MayUse era.now (D.ledger (disk_of job.old.lane)) }
    requires job { IsJob job.old }
    requires opened { IsOpen job.old.lane }
    requires state { IsReplaying job.old.restore job.old.chain (state_of job.old.lane) }
    requires going { job.old.ended ≡ None }

    ensures job { job.new ≡ record job.old { lane = job.new.lane; ended = job.new.ended } }
    ensures made { IsMade job.new.lane }
    ensures space { space_of job.new.lane ≡ space_of job.old.lane }
    ensures count { count_of job.new.lane ≡ count_of job.old.lane }
    ensures answer { IsTrue result ↔ (job.new.ended ≡ None) }
    ensures ended { IfSome job.new.ended (EndsReplaying (D.ledger (disk_of job.old.lane)).faults (D.ledger (disk_of job.new.lane)).faults) }
    ensures opened { EndsWell job.new.ended → IsOpen job.new.lane }

    // It comes to the position, or to another place that isn't before the first one; the changes lead on from there.
    ensures goes { (history : History) (n upto part : ℕ) → state_of job.old.lane ≡ LaneState.Replay job.old.restore job.old.chain upto part
        → Leads history n (space_of job.old.lane) (count_of job.old.lane) job.old.to upto part (map change_of job.old.changes.items)
        → EndsWell job.new.ended → StepsTo history n (space_of job.old.lane) (count_of job.old.lane) job.old.to upto part (map change_of job.old.changes.items)
        (state_of job.old.lane) (state_of job.new.lane) result }
    ensures stands { IsTrue D.is_modelled → (history : History) (n site count upto part : ℕ)
        → state_of job.old.lane ≡ LaneState.Replay job.old.restore job.old.chain upto part
        → Leads history n (space_of job.old.lane) count job.old.to upto part (map change_of job.old.changes.items)
        → Stands site count (state_of job.old.lane) (seen D.Disk (disk_of job.old.lane)) job.old.lane
        → Stand (space_of job.old.lane) 0 (lane_pages history n (space_of job.old.lane) upto part count) (D.bytes (disk_of job.old.lane))
        → EndsWell job.new.ended → Stands site count (state_of job.new.lane) (seen D.Disk (disk_of job.new.lane)) job.new.lane }
    ensures pages { IsTrue D.is_modelled → (history : History) (n site count upto part further more : ℕ)
        → state_of job.old.lane ≡ LaneState.Replay job.old.restore job.old.chain upto part
        → Leads history n (space_of job.old.lane) count job.old.to upto part (map change_of job.old.changes.items)
        → Stands site count (state_of job.old.lane) (seen D.Disk (disk_of job.old.lane)) job.old.lane
        → Stand (space_of job.old.lane) 0 (lane_pages history n (space_of job.old.lane) upto part count) (D.bytes (disk_of job.old.lane))
        → state_of job.new.lane ≡ LaneState.Replay job.old.restore job.old.chain further more
        → EndsWell job.new.ended → Stand (space_of job.old.lane) 0 (lane_pages history n (space_of job.old.lane) further more count) (D.bytes (disk_of job.new.lane)) }
    ensures durable { IsTrue D.is_modelled → IsSynced (seen D.Disk (disk_of job.old.lane))
        → EndsWell job.new.ended → OnlyAfter era.now.number (D.bytes (disk_of job.new.lane)) (D.image (disk_of job.new.lane)) }
    // A place on the way that isn't before the first one, with its pages.
    ensures crash { IsTrue D.is_modelled → (history : History) (n site count upto part : ℕ)
        → state_of job.old.lane ≡ LaneState.Replay job.old.restore job.old.chain upto part
        → Leads history n (space_of job.old.lane) count job.old.to upto part (map change_of job.old.changes.items)
        → Stands site count (state_of job.old.lane) (seen D.Disk (disk_of job.old.lane)) job.old.lane
        → Stand (space_of job.old.lane) 0 (lane_pages history n (space_of job.old.lane) upto part count) (D.bytes (disk_of job.old.lane))
        → Leaves era.now.number (MayAdvance history n (space_of job.old.lane) count (state_of job.old.lane) upto part (D.bytes (disk_of job.old.lane)))
        (D.image (disk_of job.old.lane)) (D.image (disk_of job.new.lane)) }
    ensures ledger { Uses era.now 131076 (308742 + 4096 * count_of job.old.lane) (D.ledger (disk_of job.old.lane)) (D.ledger (disk_of job.new.lane)) }
    ensures bound { IsTrue D.is_modelled → (site count : ℕ) (state : StateView) → Agrees site count state (D.bytes (disk_of job.old.lane)) job.old.lane
        → (D.ledger (disk_of job.new.lane)).written ≤ (D.ledger (disk_of job.old.lane)).written + 40 * 4096 }
{
    let Ok(is_short) = job.lane.advance_one(era, job.to, &job.changes) else {
        job.ended = Some(LaneEnd::ChunkFailed);
        return false;
    };
    if is_short {
        return true;
    }
    job.ended = Some(LaneEnd::Done);
    false
}

/// The lane stands at a position with all commits in effect there, and is no restore's any more.
pub fn finish<D: Disk>(job: &mut LaneJob<D>, era: &Era, position: u64)
    requires era { MayUse era.now (D.ledger (disk_of job.old.lane)) }
    requires opened { IsOpen job.old.lane }
    requires position { position ≤ 2 ^ 48 }
    requires going { EndsWell job.old.ended }

    ensures job { job.new ≡ record job.old { lane = job.new.lane; ended = job.new.ended } }
    ensures made { IsMade job.new.lane }
    ensures space { space_of job.new.lane ≡ space_of job.old.lane }
    ensures some { job.new.ended ≡ None → ⊥ }
    ensures ended { IfSome job.new.ended (EndsReplaying (D.ledger (disk_of job.old.lane)).faults (D.ledger (disk_of job.new.lane)).faults) }
    ensures opened { job.new.ended ≡ Some LaneEnd.Done → IsOpen job.new.lane }
    ensures told { job.new.ended ≡ Some LaneEnd.Done → TellsOf (count_of job.old.lane) (LaneState.At position 0) job.new.lane }
    ensures stands { IsTrue D.is_modelled → job.new.ended ≡ Some LaneEnd.Done → (site count : ℕ) (before : StateView)
        → Agrees site count before (D.bytes (disk_of job.old.lane)) job.old.lane
        → Stands site count (LaneState.At position 0) (seen D.Disk (disk_of job.new.lane)) job.new.lane }
    ensures pages { IsTrue D.is_modelled → job.new.ended ≡ Some LaneEnd.Done → (site count : ℕ) (before : StateView)
        → Agrees site count before (D.bytes (disk_of job.old.lane)) job.old.lane
        → SamePages (D.bytes (disk_of job.old.lane)) (D.bytes (disk_of job.new.lane)) }
    ensures durable { IsTrue D.is_modelled → job.new.ended ≡ Some LaneEnd.Done
        → OnlyAfter era.now.number (D.bytes (disk_of job.new.lane)) (D.image (disk_of job.new.lane)) }
    // The state from before or this one, over the same pages.
    ensures crash { IsTrue D.is_modelled → (site count : ℕ) (before : StateView) → Agrees site count before (D.bytes (disk_of job.old.lane)) job.old.lane
        → Leaves era.now.number (MaySet (LaneState.At position 0) (D.bytes (disk_of job.old.lane)))
        (D.image (disk_of job.old.lane)) (D.image (disk_of job.new.lane)) }
    ensures ledger { Uses era.now 2 13059 (D.ledger (disk_of job.old.lane)) (D.ledger (disk_of job.new.lane)) }
    ensures bound { IsTrue D.is_modelled → (site count : ℕ) (before : StateView) → Agrees site count before (D.bytes (disk_of job.old.lane)) job.old.lane
        → (D.ledger (disk_of job.new.lane)).written ≤ (D.ledger (disk_of job.old.lane)).written + 259 }
{
    let state = LaneState::At {
        upto: position,
        part: 0,
    };
    job.ended = match job.lane.set_state(era, &state) {
        Ok(()) => Some(LaneEnd::Done),
        Err(_) => Some(LaneEnd::ChunkFailed),
    };
}
