//! The front of a header, which all kinds of disks have in common: the gate, `OBS`, the kind, the version, the
//! number of the volume or space, and the site's id.
ghost use Rattle.std.specs.Prelude.{◌≡◌, ◌≤◌, ℕ, [], ◌∷◌, ◌++◌, codes, length, take, Some, IfSome};
ghost use Rattle.std.specs.Int.{w16, w64, to_be_bytes};
ghost use Rattle.site_headers.specs.Kinds.{kind_code};
ghost use Rattle.site_headers.specs.Parts.{HasFront};

use crate::kinds::DiskKind;
use byte_fields::{byte_at, has_bytes, u64_at, write_bytes, write_u16, write_u64};

/// The gate of a header that is written. Any byte but 0 is open.
const OPEN: u8 = 1;

/// The version of the layout.
const VERSION: u8 = 1;

/// Writes the front of an open header, 16 bytes.
pub(crate) fn write_front(page: &mut [u8], kind: DiskKind, number: u16, site: u64)
    requires { 16 ≤ length page.old }
    ensures { take 16 page.new ≡ 1 ∷ codes "OBS" ++ kind_code kind ∷ 1 ∷ [] ++ to_be_bytes w16 number ++ to_be_bytes w64 site }
{
    write_bytes(page, 0, &[OPEN, b'O', b'B', b'S', kind.code(), VERSION]);
    write_u16(page, 6, number);
    write_u64(page, 8, site);
}

/// The site's id, or `None` where the page has no open front of this kind and number.
pub(crate) fn site_of_front(page: &[u8], kind: DiskKind, number: u16) -> Option<u64>
    requires { 16 ≤ length page.now }
    ensures found { IfSome result (HasFront (kind_code kind) number page.now) }
    ensures only { (site : ℕ) → HasFront (kind_code kind) number page.now site → result ≡ Some site }
{
    let is_open = byte_at(page, 0) != 0;
    let is_named = has_bytes(page, 1, &[b'O', b'B', b'S', kind.code(), VERSION]);
    if is_open && is_named && has_bytes(page, 6, &number.to_be_bytes()) {
        Some(u64_at(page, 8))
    } else {
        None
    }
}
