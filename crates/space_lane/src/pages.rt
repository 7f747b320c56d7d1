//! The pages of a chunk, one at a time.
ghost use Rattle.std.specs.Prelude.{◌≡◌, ◌+◌, ◌*◌, ◌≤◌, ◌↔◌, ◌∷◌, ◌++◌, length, replicate, IsTrue, OnOk, IfErr, IsErrOf};
ghost use Rattle.site_disk.specs.Bytes.{written, Same, Torn};
ghost use Rattle.site_disk.specs.Causes.{HasCause};
ghost use Rattle.site_disk.specs.Images.{Leaves, Unchanged};
ghost use Rattle.site_disk.specs.Ledger.{MayUse, Uses};
ghost use Rattle.before_images.specs.Saved.{place_of};
ghost use Rattle.log_history.specs.Effects.{empty_page};
ghost use Rattle.space_pages.specs.Layout.{page_bytes};
ghost use Rattle.lane_ways.specs.Pictures.{pages_at};
ghost use Rattle.space_lane.specs.Answers.{FailsOn, IsReading};
ghost use Rattle.space_lane.specs.Chunks.{IsPage, page_at, page_name};

use crate::faults::LaneFault;
use crate::places::place_of;
use byte_fields::{has_bytes, write_bytes, write_zeros_from};
use site_disk::{Disk, Era, Failed, extend_to};

/// What stands behind the stamp of a page.
pub(crate) fn name_of(space: u16, page: u32) -> [u8; 8]
    ensures { result ≡ page_name space page }
{
    let mut name = [0; 8];
    name[0..2].copy_from_slice(&space.to_be_bytes());
    name[4..8].copy_from_slice(&page.to_be_bytes());
    name
}

// Whether these are the bytes of a page.
fn is_page(space: u16, page: u32, bytes: &[u8]) -> bool
    requires { length bytes.now ≡ 4096 }
    ensures { IsTrue result ↔ IsPage space page bytes.now }
{
    has_bytes(bytes, 8, &name_of(space, page))
}

/// Reads a page, which has to be one.
pub(crate) fn read_page<D: Disk>(
    disk: &mut D,
    era: &Era,
    space: u16,
    page: u32,
    into: &mut [u8],
) -> Result<(), LaneFault>
    requires era { MayUse era.now (D.ledger disk.old) }
    requires into { length into.old ≡ 4096 }
    ensures found { IsTrue D.is_modelled → OnOk result (into.new ≡ page_at page (D.bytes disk.old)) }
    ensures page { OnOk result (IsPage space page into.new) }
    ensures bad { IsTrue D.is_modelled → IsErrOf result (LaneFault.BadPage page)
        → IsPage space page (page_at page (D.bytes disk.old)) → ⊥ }
    ensures only { IfErr result (IsReading page) }
    ensures bytes { OnOk result (D.bytes disk.new ≡ D.bytes disk.old) }
    ensures images { OnOk result (Unchanged (D.image disk.old) (D.image disk.new)) }
    ensures refused_bytes { IsErrOf result (LaneFault.BadPage page) → D.bytes disk.new ≡ D.bytes disk.old }
    ensures refused_images { IsErrOf result (LaneFault.BadPage page) → Unchanged (D.image disk.old) (D.image disk.new) }
    ensures crash { Leaves era.now.number Same (D.image disk.old) (D.image disk.new) }
    ensures ledger { Uses era.now 4096 0 (D.ledger disk.old) (D.ledger disk.new) }
    ensures failed { IfErr result (FailsOn (D.ledger disk.old).faults (D.ledger disk.new).faults) }
{
    let found = disk.read_at(era, place_of(page), into)?;
    if found < into.len() {
        return Err(LaneFault::BadPage { page });
    }
    if !is_page(space, page, into) {
        return Err(LaneFault::BadPage { page });
    }
    Ok(())
}

/// Writes a page.
pub(crate) fn put_page<D: Disk>(
    disk: &mut D,
    era: &Era,
    page: u32,
    bytes: &[u8; 4096],
) -> Result<(), Failed>
    requires { MayUse era.now (D.ledger disk.old) }
    ensures bytes { IsTrue D.is_modelled → place_of pages_at page ≤ length (D.bytes disk.old)
        → OnOk result (D.bytes disk.new ≡ written (place_of pages_at page) bytes.now (D.bytes disk.old)) }
    ensures crash { IsTrue D.is_modelled → place_of pages_at page ≤ length (D.bytes disk.old)
        → Leaves era.now.number (Torn (place_of pages_at page) 4096) (D.image disk.old) (D.image disk.new) }
    ensures ledger { Uses era.now 0 (place_of pages_at page + 4096) (D.ledger disk.old) (D.ledger disk.new) }
    ensures bound { IsTrue D.is_modelled → place_of pages_at page ≤ length (D.bytes disk.old)
        → (D.ledger disk.new).written ≤ (D.ledger disk.old).written + 4096 }
    ensures cause { HasCause (D.ledger disk.old).faults (D.ledger disk.new).faults result }
{
    let place = place_of(page);
    extend_to(disk, era, place)?;
    disk.write_at(era, place, bytes)
}

/// The bytes of a page that was never written.
pub(crate) fn write_empty_page(space: u16, page: u32, bytes: &mut [u8; 4096])
    ensures { bytes.new ≡ page_bytes space page empty_page }
{
    write_zeros_from(bytes, 0);
    write_bytes(bytes, 8, &name_of(space, page));
    write_zeros_from(bytes, 16);
}
