//! The headers that have nothing of their own: the log's and the spare disk's.
ghost use Rattle.std.specs.Prelude.{◌≡◌, ◌↔◌, ◌∷◌, IsTrue};
ghost use Rattle.site_headers.specs.Kinds.{kind_code};
ghost use Rattle.site_headers.specs.Headers.{plain_tail, log_tail, spare_tail, HasHeader};

use crate::front::{site_of_front, write_front};
use crate::kinds::DiskKind;
use byte_fields::{is_zero_from, write_zeros_from};

/// Writes the header of a disk of this kind and site: the gate as 1, and the other 4,095 bytes of the page.
fn write_plain_header(kind: DiskKind, site: u64, page: &mut [u8; 4096])
    ensures { page.new ≡ 1 ∷ plain_tail (kind_code kind) site }
{
    write_front(page, kind, 0, site);
    write_zeros_from(page, 16);
}

/// Whether the page is a valid header of a disk of this kind and site, whatever byte but 0 its gate has.
fn has_plain_header(page: &[u8; 4096], kind: DiskKind, site: u64) -> bool
    ensures { IsTrue result ↔ HasHeader (plain_tail (kind_code kind) site) page.now }
{
    match site_of_front(page, kind, 0) {
        Some(found) => found == site && is_zero_from(page, 16),
        None => false,
    }
}

/// Writes the log's header of the site with this id: the gate as 1, and the other 4,095 bytes of the page.
pub fn write_log_header(site: u64, page: &mut [u8; 4096])
    ensures { page.new ≡ 1 ∷ log_tail site }
{
    write_plain_header(DiskKind::Log, site, page);
}

/// Whether the page is a valid header of this site's log, whatever byte but 0 its gate has.
pub fn is_log_header(page: &[u8; 4096], site: u64) -> bool
    ensures { IsTrue result ↔ HasHeader (log_tail site) page.now }
{
    has_plain_header(page, DiskKind::Log, site)
}

/// Writes the header of the spare disk of the site with this id: the gate as 1, and the other 4,095 bytes of the page.
pub fn write_spare_header(site: u64, page: &mut [u8; 4096])
    ensures { page.new ≡ 1 ∷ spare_tail site }
{
    write_plain_header(DiskKind::Spare, site, page);
}

/// Whether the page is a valid header of this site's spare disk, whatever byte but 0 its gate has.
pub fn is_spare_header(page: &[u8; 4096], site: u64) -> bool
    ensures { IsTrue result ↔ HasHeader (spare_tail site) page.now }
{
    has_plain_header(page, DiskKind::Spare, site)
}
