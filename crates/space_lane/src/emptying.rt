//! A chunk's header closed, and the chunk emptied behind it.
ghost use Rattle.std.specs.Prelude.{◌≡◌, ◌+◌, ◌*◌, ◌≤◌, [], ◌∷◌, length, IsTrue, OnOk};
ghost use Rattle.site_disk.specs.Bytes.{Torn, written};
ghost use Rattle.site_disk.specs.Causes.{HasCause};
ghost use Rattle.site_disk.specs.Images.{Leaves, OnlyAfter};
ghost use Rattle.site_disk.specs.Ledger.{MayUse, Uses};
ghost use Rattle.site_disk.specs.Seen.{seen};
ghost use Rattle.gated_slots.specs.Header.{IsClosed, StandsClosed};
ghost use Rattle.before_images.specs.Saved.{place_of};
ghost use Rattle.space_pages.specs.Pages.{empty_pages};
ghost use Rattle.lane_ways.specs.Pictures.{Stand, pages_at};
ghost use Rattle.space_lane.specs.Chunks.{KeepsNone};
ghost use Rattle.space_lane.specs.Stops.{MayLose, StaysClosed};

use crate::pages::write_empty_page;
use crate::places::{IMAGES_AT, PAGES_AT, place_of};
use gated_slots::header_close;
use site_disk::{Disk, Era, Failed, close_gate, extend_to};

/// Syncs, and closes the header.
pub(crate) fn lose_chunk<D: Disk>(disk: &mut D, era: &Era) -> Result<(), Failed>
    requires { MayUse era.now (D.ledger disk.old) }
    ensures bytes { IsTrue D.is_modelled → OnOk result (D.bytes disk.new ≡ written 0 (0 ∷ []) (D.bytes disk.old)) }
    ensures closed { IsTrue D.is_modelled → OnOk result (StandsClosed (seen D.Disk disk.new)) }
    ensures durable { IsTrue D.is_modelled → OnOk result (OnlyAfter era.now.number (D.bytes disk.new) (D.image disk.new)) }
    ensures crash { IsTrue D.is_modelled → Leaves era.now.number MayLose (D.image disk.old) (D.image disk.new) }
    ensures ledger { Uses era.now 1 1 (D.ledger disk.old) (D.ledger disk.new) }
    ensures cause { HasCause (D.ledger disk.old).faults (D.ledger disk.new).faults result }
{
    disk.sync(era)?;
    header_close(disk, era)
}

// Writes all pages empty.
fn write_pages<D: Disk>(disk: &mut D, era: &Era, space: u16, pages: u32) -> Result<(), Failed>
    requires era { MayUse era.now (D.ledger disk.old) }
    requires within { IsTrue D.is_modelled → pages_at ≤ length (D.bytes disk.old) }
    ensures pages { IsTrue D.is_modelled → OnOk result (Stand space 0 (empty_pages pages) (D.bytes disk.new)) }
    ensures long { IsTrue D.is_modelled → OnOk result (place_of pages_at pages ≤ length (D.bytes disk.new)) }
    ensures torn { IsTrue D.is_modelled → OnOk result (Torn pages_at (4096 * pages) (D.bytes disk.old) (D.bytes disk.new)) }
    ensures crash { Leaves era.now.number (Torn pages_at (4096 * pages)) (D.image disk.old) (D.image disk.new) }
    ensures ledger { Uses era.now 0 (4096 * pages) (D.ledger disk.old) (D.ledger disk.new) }
    ensures cause { HasCause (D.ledger disk.old).faults (D.ledger disk.new).faults result }
{
    let mut bytes = [0; 4096];
    for page in 0..pages {
        write_empty_page(space, page, &mut bytes);
        disk.write_at(era, place_of(page), &bytes)?;
    }
    Ok(())
}

/// Writes all pages empty, and drops what is kept. A closed header stays closed in every image.
pub(crate) fn empty_chunk<D: Disk>(
    disk: &mut D,
    era: &Era,
    space: u16,
    pages: u32,
) -> Result<(), Failed>
    requires era { MayUse era.now (D.ledger disk.old) }
    ensures pages { IsTrue D.is_modelled → OnOk result (Stand space 0 (empty_pages pages) (D.bytes disk.new)) }
    ensures none { IsTrue D.is_modelled → OnOk result (KeepsNone (D.bytes disk.new)) }
    ensures long { IsTrue D.is_modelled → OnOk result (place_of pages_at pages ≤ length (D.bytes disk.new)) }
    ensures closed { IsTrue D.is_modelled → OnOk result (StaysClosed (D.bytes disk.old) (D.bytes disk.new)) }
    ensures crash { IsTrue D.is_modelled → IsClosed (D.bytes disk.old)
        → Leaves era.now.number StaysClosed (D.image disk.old) (D.image disk.new) }
    ensures ledger { Uses era.now 1 (77825 + 4096 * pages) (D.ledger disk.old) (D.ledger disk.new) }
    ensures cause { HasCause (D.ledger disk.old).faults (D.ledger disk.new).faults result }
{
    extend_to(disk, era, PAGES_AT)?;
    // Nothing stands behind the header, so that it doesn't matter what a stop leaves of the gate.
    close_gate(disk, era, IMAGES_AT)?;
    write_pages(disk, era, space, pages)
}
