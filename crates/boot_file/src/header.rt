//! The header page of the boot file's disk.
ghost use Rattle.std.specs.Prelude.{◌≡◌, ◌↔◌, ◌∷◌, length, drop, IsTrue, IfOk, OnOk};
ghost use Rattle.site_disk.specs.Bytes.{extent, Same};
ghost use Rattle.site_disk.specs.Causes.{HasCause};
ghost use Rattle.site_disk.specs.Images.{Leaves, Unchanged};
ghost use Rattle.site_disk.specs.Ledger.{MayUse, Uses};
ghost use Rattle.site_headers.specs.Headers.{HasHeader};
ghost use Rattle.boot_file.specs.Places.{boot_tail};

use byte_fields::{has_bytes, write_bytes, write_u64, write_zeros_from};
use gated_slots::header_read;
use site_disk::{Disk, Era, Failed};

/// The gate as 1, `OBS`, the kind 3, the version 1, and the number 0.
const FRONT: [u8; 8] = [1, b'O', b'B', b'S', 3, 1, 0, 0];

/// Writes the header of the boot file of the site with this id: the gate as 1, and the other 4,095 bytes of the page.
pub(crate) fn write_boot_header(site: u64, page: &mut [u8; 4096])
    ensures { page.new ≡ 1 ∷ boot_tail site }
{
    write_bytes(page, 0, &FRONT);
    write_u64(page, 8, site);
    write_zeros_from(page, 16);
}

// Whether a page has the bytes behind the gate of another.
fn has_tail(page: &[u8], other: &[u8]) -> bool
    requires page { length page.now ≡ 4096 }
    requires other { length other.now ≡ 4096 }
    ensures { IsTrue result ↔ (extent 1 4095 page.now ≡ drop 1 other.now) }
{
    has_bytes(page, 1, &other[1..])
}

/// Whether the disk has the header of this site's boot file.
pub(crate) fn has_boot_header<D: Disk>(disk: &mut D, era: &Era, site: u64) -> Result<bool, Failed>
    requires { MayUse era.now (D.ledger disk.old) }
    ensures header { IsTrue D.is_modelled → IfOk result (λ has. IsTrue has ↔ HasHeader (boot_tail site) (D.bytes disk.old)) }
    ensures bytes { OnOk result (D.bytes disk.new ≡ D.bytes disk.old) }
    ensures images { OnOk result (Unchanged (D.image disk.old) (D.image disk.new)) }
    ensures crash { Leaves era.now.number Same (D.image disk.old) (D.image disk.new) }
    ensures ledger { Uses era.now 4096 0 (D.ledger disk.old) (D.ledger disk.new) }
    ensures cause { HasCause (D.ledger disk.old).faults (D.ledger disk.new).faults result }
{
    let mut page = [0; 4096];
    if !header_read(disk, era, &mut page)? {
        return Ok(false);
    }
    let mut wanted = [0; 4096];
    write_boot_header(site, &mut wanted);
    Ok(has_tail(&page, &wanted))
}
