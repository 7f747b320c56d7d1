//! The blocks of an image's entries, and how many bytes an image has.
ghost use Rattle.std.specs.Prelude.{◌≡◌, ℕ, ◌↔◌, IsTrue, IfNone, IfSome};
ghost use Rattle.std.specs.Int.{w64};
ghost use Rattle.byte_fields.specs.Fields.{HasNumber, number_at};
ghost use Rattle.level_archive.specs.Image.{IsImageSize, IsPageOf};
ghost use Rattle.level_archive.specs.Reading.{HasEntry, IsFirst, MayStand};

use crate::ImageHead;
use byte_fields::{has_bytes, u32_at, u64_at};

/// The bytes of a block.
const BLOCK_LEN: u64 = 4096;

/// Whether so many bytes are those of an image of a space with so many pages.
pub(crate) fn is_image_size(pages: u32, size: u64) -> bool
    ensures { IsTrue result ↔ IsImageSize pages size }
{
    let most = BLOCK_LEN * (u64::from(pages) + 1);
    size % BLOCK_LEN == 0 && BLOCK_LEN <= size && size <= most
}

/// Whether the block is this head's, and the size that of an image.
pub(crate) fn is_first(head: &ImageHead, pages: u32, size: u64, block: &[u8; 4096]) -> bool
    ensures { IsTrue result ↔ IsFirst head.now pages size block.now }
{
    is_image_size(pages, size) && head.is_spelled_by(block)
}

/// The stamp in a page's block.
pub(crate) fn stamp_of(block: &[u8; 4096]) -> u64
    ensures number { result ≡ number_at w64 0 block.now }
    ensures found { HasNumber w64 0 block.now result }
{
    u64_at(block, 0)
}

/// Whether the block is a page of this space, whatever its number and stamp.
fn is_page_of(block: &[u8; 4096], space: u16) -> bool
    ensures { IsTrue result ↔ IsPageOf space block.now }
{
    has_bytes(block, 8, &space.to_be_bytes()) && has_bytes(block, 10, &[0; 2])
}

/// Whether a page with this number and stamp may stand in the image, where its numbers go on from this one.
fn may_stand(head: &ImageHead, pages: u32, from: u32, number: u32, stamp: u64) -> bool
    ensures { IsTrue result ↔ MayStand head.now pages from number stamp }
{
    from <= number && number < pages && head.base < stamp && stamp <= head.at
}

/// The number of the page in the block, or `None` where that is no entry that may come from this number on.
pub(crate) fn next_number(
    head: &ImageHead,
    pages: u32,
    from: u32,
    block: &[u8; 4096],
) -> Option<u32>
    ensures found { IfSome result (HasEntry head.now pages from block.now) }
    ensures none { IfNone result ((number : ℕ) → HasEntry head.now pages from block.now number → ⊥) }
{
    if !is_page_of(block, head.space) {
        return None;
    }
    let number = u32_at(block, 12);
    let stamp = stamp_of(block);
    if may_stand(head, pages, from, number, stamp) {
        Some(number)
    } else {
        None
    }
}
