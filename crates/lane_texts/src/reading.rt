//! A page of a lane, read.
ghost use Rattle.std.specs.Prelude.{◌≡◌, ◌<◌, ℕ, IsTrue, OnOk, IfErr};
ghost use Rattle.site_disk.specs.Bytes.{Same};
ghost use Rattle.site_disk.specs.Images.{Leaves};
ghost use Rattle.site_disk.specs.Ledger.{MayUse, Uses};
ghost use Rattle.site_disk.specs.Seen.{seen};
ghost use Rattle.backup_lines.specs.declared.lanes.LaneState.{LaneState as StateView};
ghost use Rattle.space_lane.specs.Chunks.{IsPage, page_at};
ghost use Rattle.space_lane.specs.Lanes.{disk_of, space_of, count_of, with_disk, Stands};
ghost use Rattle.lane_texts.specs.Listings.{FailsOn, IsNoFailure, OnlyReads, RefusesPage};

use crate::faults::ListFault;
use site_disk::{Disk, Era};
use space_lane::{Lane, LaneFault};

/// Reads a page, which has to be one.
pub(crate) fn read_page<D: Disk>(
    lane: &mut Lane<D>,
    era: &Era,
    number: u32,
    into: &mut [u8; 4096],
) -> Result<(), ListFault>
    requires era { MayUse era.now (D.ledger (disk_of lane.old)) }
    requires number { number < count_of lane.old }
    ensures value { lane.new ≡ with_disk lane.old (disk_of lane.new) }
    ensures found { IsTrue D.is_modelled → OnOk result (into.new ≡ page_at number (D.bytes (disk_of lane.old))) }
    ensures page { OnOk result (IsPage (space_of lane.old) number into.new) }
    ensures bad { IsTrue D.is_modelled → IfErr result (RefusesPage (space_of lane.old) number (D.bytes (disk_of lane.old))) }
    ensures failed { IfErr result (FailsOn (D.ledger (disk_of lane.old)).faults (D.ledger (disk_of lane.new)).faults) }
    ensures reads { OnOk result (OnlyReads D.Disk (disk_of lane.old) (disk_of lane.new)) }
    ensures refused { IfErr result (λ fault. IsNoFailure fault → OnlyReads D.Disk (disk_of lane.old) (disk_of lane.new)) }
    ensures stands { IsTrue D.is_modelled → (site count : ℕ) (state : StateView)
        → Stands site count state (seen D.Disk (disk_of lane.old)) lane.old
        → OnOk result (Stands site count state (seen D.Disk (disk_of lane.new)) lane.new) }
    ensures crash { Leaves era.now.number Same (D.image (disk_of lane.old)) (D.image (disk_of lane.new)) }
    ensures ledger { Uses era.now 4096 0 (D.ledger (disk_of lane.old)) (D.ledger (disk_of lane.new)) }
{
    match lane.read_page(era, number, into) {
        Ok(()) => Ok(()),
        Err(LaneFault::BadPage { page }) => Err(ListFault::BadPage { page }),
        Err(LaneFault::Failed) => Err(ListFault::Failed),
        Err(LaneFault::ChunkLost | LaneFault::BadMark) => unreachable!(),
    }
}
