//! The state in the mark, set.
ghost use Rattle.std.specs.Prelude.{◌≡◌, ◌+◌, ◌≤◌, length, IsTrue, OnOk, OnErr};
ghost use Rattle.site_disk.specs.Causes.{HasCause};
ghost use Rattle.site_disk.specs.Images.{Leaves, OnlyAfter};
ghost use Rattle.site_disk.specs.Ledger.{MayUse, Uses};
ghost use Rattle.site_disk.specs.Seen.{seen};
ghost use Rattle.twin_mark.specs.Marks.{Knows};
ghost use Rattle.lane_ways.specs.Pictures.{images_at, mark_at, pages_at};
ghost use Rattle.lane_mark.specs.Layout.{FitsState, spelling};
ghost use Rattle.space_lane.specs.Stops.{IsSet, MaySet};

use backup_lines::LaneState;
use before_images::Images;
use lane_mark::encode_into;
use site_disk::{Disk, Era, Failed};
use twin_mark::Mark;

/// Syncs the pages, drops what is kept, and stores the state.
///
/// What is kept could be of the very place of this state, so it goes before the state is stored.
pub(crate) fn store_state<D: Disk>(
    disk: &mut D,
    era: &Era,
    images: &mut Images,
    mark: &mut Mark,
    state: &LaneState,
) -> Result<(), Failed>
    requires era { MayUse era.now (D.ledger disk.old) }
    requires images { images.old.base ≡ images_at }
    requires base { mark.old.base ≡ mark_at }
    requires fits { FitsState state.now }
    ensures images { images.new ≡ images.old }
    ensures base { mark.new.base ≡ mark.old.base }
    ensures value { OnErr result (mark.new ≡ mark.old) }
    ensures stored { IsTrue D.is_modelled → Knows mark.old (D.bytes disk.old) → pages_at ≤ length (D.bytes disk.old)
        → OnOk result (IsSet (spelling state.now) (D.bytes disk.old) (D.bytes disk.new)) }
    ensures knows { IsTrue D.is_modelled → Knows mark.old (D.bytes disk.old) → pages_at ≤ length (D.bytes disk.old)
        → OnOk result (Knows mark.new (D.bytes disk.new)) }
    ensures durable { IsTrue D.is_modelled → OnOk result (OnlyAfter era.now.number (D.bytes disk.new) (D.image disk.new)) }
    ensures crash { IsTrue D.is_modelled → Knows mark.old (D.bytes disk.old) → pages_at ≤ length (D.bytes disk.old)
        → Leaves era.now.number (MaySet state.now (D.bytes disk.old)) (D.image disk.old) (D.image disk.new) }
    ensures ledger { Uses era.now 2 13059 (D.ledger disk.old) (D.ledger disk.new) }
    ensures bound { IsTrue D.is_modelled → Knows mark.old (D.bytes disk.old) → pages_at ≤ length (D.bytes disk.old)
        → (D.ledger disk.new).written ≤ (D.ledger disk.old).written + 259 }
    ensures cause { HasCause (D.ledger disk.old).faults (D.ledger disk.new).faults result }
{
    let mut bytes = [0; 255];
    encode_into(state, &mut bytes);
    disk.sync(era)?;
    images.drop_all(disk, era)?;
    mark.store(disk, era, &bytes)
}
