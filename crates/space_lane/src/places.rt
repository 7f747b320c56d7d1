//! The places on a chunk.
ghost use Rattle.std.specs.Prelude.{◌≡◌, ◌+◌, ◌*◌};
ghost use Rattle.before_images.specs.Saved.{place_of};
ghost use Rattle.lane_ways.specs.Pictures.{pages_at};

/// Where the mark begins.
pub(crate) const MARK_AT: u64 = 4096;

/// Where the before-images begin.
pub(crate) const IMAGES_AT: u64 = 8192;

/// Where the first page stands.
pub(crate) const PAGES_AT: u64 = 77_824;

/// The bytes of a page.
pub(crate) const PAGE_LEN: usize = 4096;

/// Where a page stands.
pub(crate) fn place_of(page: u32) -> u64
    ensures { result ≡ place_of pages_at page }
{
    PAGES_AT + 4096 * u64::from(page)
}
