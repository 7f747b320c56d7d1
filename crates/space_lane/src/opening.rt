//! What the opening of a lane reads, and what it puts back.
ghost use Rattle.std.specs.Prelude.{◌≡◌, ◌+◌, ◌*◌, ◌^◌, ◌≤◌, length, IsTrue, IfOk, OnOk, IfErr, IsErrOf};
ghost use Rattle.site_disk.specs.Bytes.{Same};
ghost use Rattle.site_disk.specs.Causes.{HasCause};
ghost use Rattle.site_disk.specs.Images.{Leaves, OnlyAfter, IsSynced, Unchanged};
ghost use Rattle.site_disk.specs.Ledger.{MayUse, Uses};
ghost use Rattle.site_disk.specs.Seen.{seen};
ghost use Rattle.twin_mark.specs.Marks.{Knows};
ghost use Rattle.before_images.specs.Saved.{MayPutBack, place_of, restored};
ghost use Rattle.backup_lines.specs.declared.lanes.LaneState.{LaneState as StateView};
ghost use Rattle.lane_ways.specs.Pictures.{images_at, mark_at, pages_at};
ghost use Rattle.lane_mark.specs.Layout.{FitsState};
ghost use Rattle.space_lane.specs.Answers.{FailsOn, IsOpening};
ghost use Rattle.space_lane.specs.Chunks.{HasMark, settled};
ghost use Rattle.space_lane.specs.Stops.{MaySettle};

use crate::faults::LaneFault;
use crate::places::PAGES_AT;
use backup_lines::LaneState;
use before_images::Images;
use lane_mark::decode;
use site_disk::{Disk, Era, Failed};
use twin_mark::{Mark, MarkFault};

/// Reads the state that the mark has.
pub(crate) fn load_state<D: Disk>(
    disk: &mut D,
    era: &Era,
    mark: &mut Mark,
) -> Result<LaneState, LaneFault>
    requires era { MayUse era.now (D.ledger disk.old) }
    requires base { mark.old.base ≡ mark_at }
    ensures base { mark.new.base ≡ mark.old.base }
    ensures fits { IfOk result FitsState }
    ensures found { IsTrue D.is_modelled → IfOk result (λ state. HasMark state (D.bytes disk.old)) }
    ensures bad { IsTrue D.is_modelled → IsErrOf result LaneFault.BadMark
        → (state : StateView) → HasMark state (D.bytes disk.old) → ⊥ }
    ensures not_lost { IsErrOf result LaneFault.ChunkLost → ⊥ }
    ensures only { IfErr result IsOpening }
    ensures knows { IsTrue D.is_modelled → IsSynced (seen D.Disk disk.old) → OnOk result (Knows mark.new (D.bytes disk.new)) }
    ensures bytes { OnOk result (D.bytes disk.new ≡ D.bytes disk.old) }
    ensures images { OnOk result (Unchanged (D.image disk.old) (D.image disk.new)) }
    ensures refused_bytes { IsErrOf result LaneFault.BadMark → D.bytes disk.new ≡ D.bytes disk.old }
    ensures crash { Leaves era.now.number Same (D.image disk.old) (D.image disk.new) }
    ensures ledger { Uses era.now 768 0 (D.ledger disk.old) (D.ledger disk.new) }
    ensures failed { IfErr result (FailsOn (D.ledger disk.old).faults (D.ledger disk.new).faults) }
{
    let mut bytes = [0; 255];
    match mark.load(disk, era, &mut bytes) {
        Ok(()) => match decode(&bytes) {
            Some(state) => Ok(state),
            None => Err(LaneFault::BadMark),
        },
        Err(MarkFault::NoMark) => Err(LaneFault::BadMark),
        Err(MarkFault::Failed) => Err(LaneFault::Failed),
    }
}

// Puts back what is kept for a place.
fn put_back<D: Disk>(
    disk: &mut D,
    era: &Era,
    images: &mut Images,
    pages: u32,
    from: (u64, u32),
) -> Result<(), Failed>
    requires era { MayUse era.now (D.ledger disk.old) }
    requires base { images.old.base ≡ images_at }
    ensures value { images.new ≡ images.old }
    ensures bytes { IsTrue D.is_modelled → place_of pages_at pages ≤ length (D.bytes disk.old)
        → OnOk result (D.bytes disk.new ≡ restored images_at pages_at pages from.0 from.1 (D.bytes disk.old)) }
    ensures settled { IsTrue D.is_modelled → place_of pages_at pages ≤ length (D.bytes disk.old)
        → OnOk result (MayPutBack images_at pages_at pages from.0 from.1 (D.bytes disk.old) (D.bytes disk.new)) }
    ensures durable { IsTrue D.is_modelled → OnlyAfter era.now.number (D.bytes disk.old) (D.image disk.old)
        → OnOk result (OnlyAfter era.now.number (D.bytes disk.new) (D.image disk.new)) }
    ensures crash { IsTrue D.is_modelled → place_of pages_at pages ≤ length (D.bytes disk.old)
        → IsSynced (seen D.Disk disk.old)
        → Leaves era.now.number (MayPutBack images_at pages_at pages from.0 from.1) (D.image disk.old) (D.image disk.new) }
    ensures ledger { Uses era.now 69632 (143360 + 4096 * 2 ^ 32) (D.ledger disk.old) (D.ledger disk.new) }
    ensures bound { IsTrue D.is_modelled → place_of pages_at pages ≤ length (D.bytes disk.old)
        → (D.ledger disk.new).written ≤ (D.ledger disk.old).written + 65536 }
    ensures cause { HasCause (D.ledger disk.old).faults (D.ledger disk.new).faults result }
{
    images.put_back(disk, era, PAGES_AT, pages, from)?;
    Ok(())
}

/// Puts back what is kept for the place of a state, if it has one.
pub(crate) fn settle<D: Disk>(
    disk: &mut D,
    era: &Era,
    images: &mut Images,
    pages: u32,
    state: &LaneState,
) -> Result<(), Failed>
    requires era { MayUse era.now (D.ledger disk.old) }
    requires base { images.old.base ≡ images_at }
    ensures value { images.new ≡ images.old }
    ensures bytes { IsTrue D.is_modelled → place_of pages_at pages ≤ length (D.bytes disk.old)
        → OnOk result (D.bytes disk.new ≡ settled state.now pages (D.bytes disk.old)) }
    ensures settled { IsTrue D.is_modelled → place_of pages_at pages ≤ length (D.bytes disk.old)
        → OnOk result (MaySettle state.now pages (D.bytes disk.old) (D.bytes disk.new)) }
    ensures durable { IsTrue D.is_modelled → OnlyAfter era.now.number (D.bytes disk.old) (D.image disk.old)
        → OnOk result (OnlyAfter era.now.number (D.bytes disk.new) (D.image disk.new)) }
    ensures crash { IsTrue D.is_modelled → place_of pages_at pages ≤ length (D.bytes disk.old)
        → IsSynced (seen D.Disk disk.old)
        → Leaves era.now.number (MaySettle state.now pages) (D.image disk.old) (D.image disk.new) }
    ensures ledger { Uses era.now 69632 (143360 + 4096 * 2 ^ 32) (D.ledger disk.old) (D.ledger disk.new) }
    ensures bound { IsTrue D.is_modelled → place_of pages_at pages ≤ length (D.bytes disk.old)
        → (D.ledger disk.new).written ≤ (D.ledger disk.old).written + 65536 }
    ensures cause { HasCause (D.ledger disk.old).faults (D.ledger disk.new).faults result }
{
    match *state {
        LaneState::At { upto, part } | LaneState::Replay { upto, part, .. } => {
            put_back(disk, era, images, pages, (upto, part))
        }
        LaneState::Blank { .. } | LaneState::Image { .. } => Ok(()),
    }
}
