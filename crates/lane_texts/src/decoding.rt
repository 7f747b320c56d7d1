//! A page from its bytes.
ghost use Rattle.std.specs.Prelude.{◌≡◌, ◌<◌, ◌^◌, ℕ};
ghost use Rattle.log_history.specs.Effects.{Page as PageView};
ghost use Rattle.plain_pages.specs.Page.{page_of};
ghost use Rattle.space_pages.specs.Layout.{page_bytes};
ghost use Rattle.space_lane.specs.Chunks.{IsPage};

use byte_fields::u64_at;
use plain_pages::Page;

/// The page that these bytes spell.
pub fn decode_page(bytes: &[u8; 4096]) -> Page
    ensures found { (space number : ℕ) → IsPage space number bytes.now → bytes.now ≡ page_bytes space number (page_of result) }
    ensures only { (space number : ℕ) (page : PageView) → page.stamp < 2 ^ 64 → bytes.now ≡ page_bytes space number page
        → page_of result ≡ page }
{
    let bytes = &bytes[..];
    let mut payload = [0; 4080];
    payload.copy_from_slice(&bytes[16..]);
    Page {
        stamp: u64_at(bytes, 0),
        payload,
    }
}
