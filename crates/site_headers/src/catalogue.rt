//! The catalogue's header.
ghost use Rattle.std.specs.Prelude.{◌≡◌, ◌∷◌, IsSomeAnd, IfSome, IfOk};
ghost use Rattle.site_headers.specs.Heads.{Head, IsHead};
ghost use Rattle.site_headers.specs.Headers.{catalogue_tail, HasHeader};
ghost use Rattle.site_headers.specs.Views.{head_of};

use crate::SiteHead;
use crate::front::{site_of_front, write_front};
use crate::kinds::DiskKind;
use crate::sizes::{Sizes, sizes_of, write_sizes};
use crate::spaces::{spaces_from, write_spaces};
use byte_fields::{is_zero_from, write_zeros_from};
use site_disk::OutOfMemory;
use std::alloc::Global;

/// Writes the catalogue's header of this site: the gate as 1, and the other 4,095 bytes of the page.
pub fn write_catalogue_header(head: &SiteHead, page: &mut [u8; 4096])
    requires { IsHead (head_of head.now) }
    ensures { page.new ≡ 1 ∷ catalogue_tail (head_of head.now) }
{
    let count = head.spaces.len();
    write_front(page, DiskKind::Catalogue, 0, head.site);
    write_sizes(
        page,
        Sizes {
            spaces: count as u16,
            blocks: head.blocks,
        },
    );
    write_spaces(page, 32, &head.spaces);
    write_zeros_from(page, 32 + 24 * count);
}

/// What the catalogue's header fixes of the site, or `None` exactly where the page is no valid header of a catalogue.
///
/// Any gate but 0 is open. Fails only where memory runs out.
pub fn read_catalogue_header(
    alloc: Global,
    page: &[u8; 4096],
) -> Result<Option<SiteHead>, OutOfMemory>
    ensures found { IfOk result (λ read. IfSome read (λ head. IsHead (head_of head) × HasHeader (catalogue_tail (head_of head)) page.now)) }
    ensures only { (h : Head) → IsHead h → HasHeader (catalogue_tail h) page.now → IfOk result (λ read. IsSomeAnd read (λ head. head_of head ≡ h)) }
{
    let Some(site) = site_of_front(page, DiskKind::Catalogue, 0) else {
        return Ok(None);
    };
    let Some(sizes) = sizes_of(page) else {
        return Ok(None);
    };
    let count = usize::from(sizes.spaces);
    if !is_zero_from(page, 32 + 24 * count) {
        return Ok(None);
    }
    let Some(spaces) = spaces_from(alloc, page, 32, count)? else {
        return Ok(None);
    };
    Ok(Some(SiteHead {
        site,
        blocks: sizes.blocks,
        spaces,
    }))
}
