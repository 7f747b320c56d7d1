//! The counts in the catalogue's header.
ghost use Rattle.std.specs.Prelude.{◌≡◌, ◌≤◌, ◌++◌, ℕ, length, take, replicate, Some, IfSome};
ghost use Rattle.std.specs.Int.{w16, w32, to_be_bytes};
ghost use Rattle.site_headers.specs.declared.sizes.Sizes.{Sizes};
ghost use Rattle.site_headers.specs.Parts.{HasSizes, HasVolumeSize};

use byte_fields::{has_bytes, is_zero_from, u16_at, u32_at, write_u16, write_u32, write_zeros};

/// The number of spaces, and the blocks of a volume.
#[derive(Clone, Copy)]
pub(crate) struct Sizes {
    pub(crate) spaces: u16,
    pub(crate) blocks: u32,
}

/// Writes bytes 16 to 31.
pub(crate) fn write_sizes(page: &mut [u8], sizes: Sizes)
    requires { 32 ≤ length page.old }
    ensures { take 32 page.new ≡ take 16 page.old ++ to_be_bytes w16 sizes.spaces ++ replicate 6 0 ++ to_be_bytes w32 sizes.blocks ++ replicate 4 0 }
{
    write_u16(page, 16, sizes.spaces);
    write_zeros(page, 18, 6);
    write_u32(page, 24, sizes.blocks);
    write_zeros(page, 28, 4);
}

/// The counts that bytes 16 to 31 spell, or `None` where they spell none within the limits.
pub(crate) fn sizes_of(page: &[u8]) -> Option<Sizes>
    requires { 32 ≤ length page.now }
    ensures found { IfSome result (HasSizes page.now) }
    ensures only { (sizes : Sizes) → HasSizes page.now sizes → result ≡ Some sizes }
{
    let spaces = u16_at(page, 16);
    let blocks = u32_at(page, 24);
    let has_zeros = has_bytes(page, 18, &[0; 6]) && has_bytes(page, 28, &[0; 4]);
    if has_zeros && matches!(spaces, 1..=16) && matches!(blocks, 1..=1_048_576) {
        Some(Sizes { spaces, blocks })
    } else {
        None
    }
}

/// The blocks of a volume that bytes 16 on spell, or `None` where they spell none within the limits.
pub(crate) fn volume_size_of(page: &[u8]) -> Option<u32>
    requires { 20 ≤ length page.now }
    ensures found { IfSome result (HasVolumeSize page.now) }
    ensures only { (blocks : ℕ) → HasVolumeSize page.now blocks → result ≡ Some blocks }
{
    let blocks = u32_at(page, 16);
    if is_zero_from(page, 20) && matches!(blocks, 1..=1_048_576) {
        Some(blocks)
    } else {
        None
    }
}
