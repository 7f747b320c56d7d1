//! The header of a chunk.
ghost use Rattle.std.specs.Prelude.{◌≡◌, ◌≤◌, ◌↔◌, [], ◌∷◌, ◌++◌, codes, length, take, IsTrue, IfOk, OnOk};
ghost use Rattle.std.specs.Int.{w16, w64, to_be_bytes};
ghost use Rattle.site_disk.specs.Bytes.{Same};
ghost use Rattle.site_disk.specs.Causes.{HasCause};
ghost use Rattle.site_disk.specs.Images.{Leaves, OnlyAfter};
ghost use Rattle.site_disk.specs.Ledger.{MayUse, Uses};
ghost use Rattle.site_headers.specs.Headers.{HasHeader};
ghost use Rattle.space_lane.specs.Chunks.{chunk_tail};

use byte_fields::{
    byte_at, has_bytes, write_bytes, write_u16, write_u32, write_u64, write_zeros_from,
};
use gated_slots::header_read;
use site_disk::{Disk, Era, Failed};

/// The byte of a gate that is open.
const OPEN: u8 = 1;

/// The kind of a chunk's header, and its version.
const CHUNK: u8 = 6;

const VERSION: u8 = 1;

// Bytes 0 to 15: the gate, the name, the kind, the version, the space and the site's id.
fn write_front(page: &mut [u8], space: u16, site: u64)
    requires { 16 ≤ length page.old }
    ensures { take 16 page.new ≡ 1 ∷ codes "OBS" ++ 6 ∷ 1 ∷ [] ++ to_be_bytes w16 space ++ to_be_bytes w64 site }
{
    write_bytes(page, 0, &[OPEN, b'O', b'B', b'S', CHUNK, VERSION]);
    write_u16(page, 6, space);
    write_u64(page, 8, site);
}

/// Writes the header of a site's chunk of this space with so many pages: the gate as 1, and the other 4,095 bytes of the page.
pub(crate) fn write_header(site: u64, space: u16, pages: u32, page: &mut [u8; 4096])
    ensures { page.new ≡ 1 ∷ chunk_tail site space pages }
{
    write_front(page, space, site);
    write_u32(page, 16, pages);
    write_zeros_from(page, 20);
}

// Whether a page is that header, whatever byte but 0 its gate has.
fn is_header(site: u64, space: u16, pages: u32, page: &[u8; 4096]) -> bool
    ensures { IsTrue result ↔ HasHeader (chunk_tail site space pages) page.now }
{
    let mut own = [0; 4096];
    write_header(site, space, pages, &mut own);
    let own = &own[..];
    byte_at(page, 0) != 0 && has_bytes(page, 1, &own[1..])
}

/// Syncs, and reads whether the disk begins with that header.
pub(crate) fn has_header<D: Disk>(
    disk: &mut D,
    era: &Era,
    site: u64,
    space: u16,
    pages: u32,
) -> Result<bool, Failed>
    requires { MayUse era.now (D.ledger disk.old) }
    ensures found { IsTrue D.is_modelled
        → IfOk result (λ found. IsTrue found ↔ HasHeader (chunk_tail site space pages) (D.bytes disk.old)) }
    ensures bytes { OnOk result (D.bytes disk.new ≡ D.bytes disk.old) }
    ensures durable { IsTrue D.is_modelled → OnOk result (OnlyAfter era.now.number (D.bytes disk.new) (D.image disk.new)) }
    ensures crash { Leaves era.now.number Same (D.image disk.old) (D.image disk.new) }
    ensures ledger { Uses era.now 4096 0 (D.ledger disk.old) (D.ledger disk.new) }
    ensures cause { HasCause (D.ledger disk.old).faults (D.ledger disk.new).faults result }
{
    disk.sync(era)?;
    let mut page = [0; 4096];
    let found = header_read(disk, era, &mut page)?;
    if !found {
        return Ok(false);
    }
    Ok(is_header(site, space, pages, &page))
}
