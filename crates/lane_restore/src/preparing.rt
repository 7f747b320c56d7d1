//! A lane emptied.
ghost use Rattle.std.specs.Prelude.{◌≡◌, ◌+◌, ◌*◌, None, IsTrue, IfSome};
ghost use Rattle.site_disk.specs.Images.{Leaves, OnlyAfter};
ghost use Rattle.site_disk.specs.Ledger.{MayUse, Uses};
ghost use Rattle.site_disk.specs.Seen.{seen};
ghost use Rattle.space_pages.specs.Pages.{empty_pages};
ghost use Rattle.lane_ways.specs.Pictures.{Stand};
ghost use Rattle.space_lane.specs.Chunks.{IsCount};
ghost use Rattle.space_lane.specs.Lanes.{IsMade, IsOpen, Stands, TellsOf, disk_of, space_of};
ghost use Rattle.space_lane.specs.Stops.{MayFormat};
ghost use Rattle.lane_restore.specs.Jobs.{FailsBy, IsJob};

use crate::job::{LaneEnd, LaneJob};
use backup_lines::LaneState;
use site_disk::{Disk, Era};

/// Empties the lane: so many empty pages, and the state that says so.
///
/// The header is closed first, so a stop leaves the chunk from before, none, or the emptied one.
pub fn prepare<D: Disk>(job: &mut LaneJob<D>, era: &Era, site: u64, pages: u32)
    requires era { MayUse era.now (D.ledger (disk_of job.old.lane)) }
    requires job { IsJob job.old }
    requires made { IsMade job.old.lane }
    requires pages { IsCount pages }
    requires going { job.old.ended ≡ None }

    ensures job { job.new ≡ record job.old { lane = job.new.lane; ended = job.new.ended } }
    ensures made { IsMade job.new.lane }
    ensures space { space_of job.new.lane ≡ space_of job.old.lane }
    ensures ended { IfSome job.new.ended (FailsBy (D.ledger (disk_of job.old.lane)).faults (D.ledger (disk_of job.new.lane)).faults) }
    ensures opened { job.new.ended ≡ None → IsOpen job.new.lane }
    ensures told { job.new.ended ≡ None → TellsOf pages (LaneState.Blank job.old.restore) job.new.lane }
    ensures stands { IsTrue D.is_modelled → job.new.ended ≡ None
        → Stands site pages (LaneState.Blank job.old.restore) (seen D.Disk (disk_of job.new.lane)) job.new.lane }
    ensures pages { IsTrue D.is_modelled → job.new.ended ≡ None
        → Stand (space_of job.old.lane) 0 (empty_pages pages) (D.bytes (disk_of job.new.lane)) }
    ensures durable { IsTrue D.is_modelled → job.new.ended ≡ None
        → OnlyAfter era.now.number (D.bytes (disk_of job.new.lane)) (D.image (disk_of job.new.lane)) }
    // No header, the chunk from before, or the emptied one whole.
    ensures crash { IsTrue D.is_modelled → Leaves era.now.number (MayFormat site (space_of job.old.lane) pages (LaneState.Blank job.old.restore))
        (D.image (disk_of job.old.lane)) (D.image (disk_of job.new.lane)) }
    ensures ledger { Uses era.now 2 (87043 + 4096 * pages) (D.ledger (disk_of job.old.lane)) (D.ledger (disk_of job.new.lane)) }
{
    let state = LaneState::Blank {
        restore: job.restore,
    };
    if job.lane.format(era, site, pages, &state).is_err() {
        job.ended = Some(LaneEnd::ChunkFailed);
    }
}
