//! The header of a volume.
ghost use Rattle.std.specs.Prelude.{◌≡◌, ◌∷◌, ℕ, Some, IfSome};
ghost use Rattle.site_headers.specs.Headers.{volume_tail, IsVolumeSize, HasHeader};

use crate::front::{site_of_front, write_front};
use crate::kinds::DiskKind;
use crate::sizes::volume_size_of;
use byte_fields::{write_u32, write_zeros_from};

/// Writes the header of a site's volume with this number and so many blocks: the gate as 1, and the other 4,095 bytes
/// of the page.
pub fn write_volume_header(number: u16, site: u64, blocks: u32, page: &mut [u8; 4096])
    ensures { page.new ≡ 1 ∷ volume_tail number site blocks }
{
    write_front(page, DiskKind::Volume, number, site);
    write_u32(page, 16, blocks);
    write_zeros_from(page, 20);
}

/// The blocks of the site's volume with this number, or `None` exactly where the page is no valid header of it.
///
/// Any gate but 0 is open. A volume has 1 to 1,048,576 blocks.
pub fn read_volume_header(page: &[u8; 4096], number: u16, site: u64) -> Option<u32>
    ensures found { IfSome result (λ blocks. IsVolumeSize blocks × HasHeader (volume_tail number site blocks) page.now) }
    ensures only { (blocks : ℕ) → IsVolumeSize blocks → HasHeader (volume_tail number site blocks) page.now → result ≡ Some blocks }
{
    match site_of_front(page, DiskKind::Volume, number) {
        Some(found) if found == site => volume_size_of(page),
        _ => None,
    }
}
