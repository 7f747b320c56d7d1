//! The mark written anew, and the header opened over it.
ghost use Rattle.std.specs.Prelude.{◌≡◌, IsTrue, OnOk};
ghost use Rattle.site_disk.specs.Causes.{HasCause};
ghost use Rattle.site_disk.specs.Images.{Leaves, OnlyAfter};
ghost use Rattle.site_disk.specs.Ledger.{MayUse, Uses};
ghost use Rattle.site_disk.specs.Seen.{seen};
ghost use Rattle.twin_mark.specs.Marks.{Knows};
ghost use Rattle.lane_ways.specs.Pictures.{mark_at};
ghost use Rattle.lane_mark.specs.Layout.{FitsState};
ghost use Rattle.space_lane.specs.Lanes.{IsEmptied};
ghost use Rattle.space_lane.specs.Stops.{MayReopen, Reopens};

use crate::header::write_header;
use backup_lines::LaneState;
use gated_slots::header_open;
use lane_mark::encode_into;
use site_disk::{Disk, Era, Failed};
use twin_mark::Mark;

/// Syncs the pages, writes the mark anew, and opens the header over it.
pub(crate) fn write_state<D: Disk>(
    disk: &mut D,
    era: &Era,
    mark: &mut Mark,
    site: u64,
    space: u16,
    pages: u32,
    state: &LaneState,
) -> Result<(), Failed>
    requires era { MayUse era.now (D.ledger disk.old) }
    requires base { mark.old.base ≡ mark_at }
    requires fits { FitsState state.now }
    ensures base { mark.new.base ≡ mark.old.base }
    ensures reopens { IsTrue D.is_modelled → IsEmptied pages (seen D.Disk disk.old)
        → OnOk result (Reopens site space pages state.now (D.bytes disk.old) (D.bytes disk.new)) }
    ensures knows { IsTrue D.is_modelled → OnOk result (Knows mark.new (D.bytes disk.new)) }
    ensures durable { IsTrue D.is_modelled → OnOk result (OnlyAfter era.now.number (D.bytes disk.new) (D.image disk.new)) }
    ensures crash { IsTrue D.is_modelled → IsEmptied pages (seen D.Disk disk.old)
        → Leaves era.now.number (MayReopen site space pages state.now (D.bytes disk.old)) (D.image disk.old) (D.image disk.new) }
    ensures ledger { Uses era.now 0 9217 (D.ledger disk.old) (D.ledger disk.new) }
    ensures cause { HasCause (D.ledger disk.old).faults (D.ledger disk.new).faults result }
{
    let mut page = [0; 4096];
    write_header(site, space, pages, &mut page);
    let mut bytes = [0; 255];
    encode_into(state, &mut bytes);
    disk.sync(era)?;
    mark.format(disk, era, &bytes)?;
    header_open(disk, era, &page)
}
