//! The head of an image.
ghost use Rattle.std.specs.Prelude.{◌≡◌, ◌↔◌, IsTrue, IfSome, Some};
ghost use Rattle.level_archive.specs.Image.{IsImageHead, front, head_at, head_bytes};

use byte_fields::{has_bytes, is_zero_from, u16_at, u64_at, write_bytes, write_zeros_from};

/// The greatest position.
const MAX_POSITION: u64 = 1 << 48;

/// What an image is of.
#[derive(Clone, Copy, Debug, PartialEq, Eq)]
pub struct ImageHead {
    /// The site's id.
    pub site: u64,
    /// The space's number.
    pub space: u16,
    /// 0, 1 or 2.
    pub level: u8,
    /// The position up to which the pages hold the log's commits.
    pub at: u64,
    /// The position of the archive that this one builds on, 0 for level 0. The pages with a stamp above it are in the image.
    pub base: u64,
}

impl ImageHead {
    ghost use Rattle.level_archive.specs.declared.head.ImageHead.{ImageHead as HeadView};

    /// Writes the head's block: `OBIM`, version 1, 5 the level, 6 the space, 8 the site, 16 the position, 24 the base, big-endian,
    /// and zeros.
    pub fn encode_into(&self, block: &mut [u8; 4096])
        ensures { block.new ≡ head_bytes self.now }
    {
        write_bytes(block, 0, &front_of(self));
        write_zeros_from(block, 32);
    }

    /// Whether the block is this head's.
    pub fn is_spelled_by(&self, block: &[u8; 4096]) -> bool
        ensures { IsTrue result ↔ (block.now ≡ head_bytes self.now) }
    {
        has_bytes(block, 0, &front_of(self)) && is_zero_from(block, 32)
    }

    /// The head whose block this is. `None` where it is no head's.
    pub fn decode(block: &[u8; 4096]) -> Option<ImageHead>
        ensures found { IfSome result (λ head. IsImageHead head × (block.now ≡ head_bytes head)) }
        ensures only { (head : HeadView) → IsImageHead head → block.now ≡ head_bytes head → result ≡ Some head }
    {
        let head = read(block);
        (is_image_head(head) && head.is_spelled_by(block)).then_some(head)
    }
}

/// The named bytes of the head's block.
#[tactic(auto, unfolding(crate::specs::Image::front))]
fn front_of(head: &ImageHead) -> [u8; 32]
    ensures { result ≡ front head.now }
{
    let mut front = [0; 32];
    front[0..4].copy_from_slice(b"OBIM");
    front[4] = 1;
    front[5] = head.level;
    front[6..8].copy_from_slice(&head.space.to_be_bytes());
    front[8..16].copy_from_slice(&head.site.to_be_bytes());
    front[16..24].copy_from_slice(&head.at.to_be_bytes());
    front[24..32].copy_from_slice(&head.base.to_be_bytes());
    front
}

/// The fields that stand in a block.
#[tactic(auto, unfolding(crate::specs::Image::head_at))]
fn read(block: &[u8; 4096]) -> ImageHead
    ensures { result ≡ head_at block.now }
{
    let block = &block[..];
    ImageHead {
        site: u64_at(block, 8),
        space: u16_at(block, 6),
        level: block[5],
        at: u64_at(block, 16),
        base: u64_at(block, 24),
    }
}

/// Whether the fields may stand together.
fn is_image_head(head: ImageHead) -> bool
    ensures { IsTrue result ↔ IsImageHead head }
{
    let is_bounded = head.at <= MAX_POSITION && head.base <= MAX_POSITION;
    head.level <= 2 && is_bounded && (head.level != 0 || head.base == 0)
}
