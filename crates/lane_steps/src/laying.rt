//! Changes laid into the bytes of a page.
ghost use Rattle.std.specs.Prelude.{◌≡◌, ◌+◌, ◌≤◌, ◌&&◌, ◌==◌, ℕ, length, map, fold};
ghost use Rattle.site_disk.specs.Bytes.{written};
ghost use Rattle.log_history.specs.Effects.{Page, with_change};
ghost use Rattle.txn_table.specs.Table.{change_of, patch_of};
ghost use Rattle.space_pages.specs.Layout.{page_bytes};
ghost use Rattle.space_pages.specs.Pages.{LiesInPage, LieWithin, changed};

use txn_table::Change;

/// Where the payload begins in the bytes of a page.
const PAYLOAD_AT: usize = 16;

/// The length of a page, in bytes.
pub(crate) const PAGE_LEN: usize = 4096;

/// Writes bytes over others, from a place on.
fn put(into: &mut [u8], at: usize, bytes: &[u8])
    requires { at + length bytes.now ≤ length into.old }
    ensures { into.new ≡ written at bytes.now into.old }
{
    into[at..at + bytes.len()].copy_from_slice(bytes);
}

/// Lays a change into the bytes of its page: its bytes at their offset in the payload, and the position of its Commit as the
/// stamp. One that would reach behind the payload is left out.
fn lay(page: &mut [u8; PAGE_LEN], change: &Change)
    ensures laid { (space number : ℕ) (was : Page) → page.old ≡ page_bytes space number was → LiesInPage (patch_of change.now)
        → page.new ≡ page_bytes space number (changed (change_of change.now) was) }
    ensures left_out { (LiesInPage (patch_of change.now) → ⊥) → page.new ≡ page.old }
{
    let bytes = change.bytes.as_bytes();
    let from = PAYLOAD_AT + usize::from(change.offset);
    if from + bytes.len() > PAGE_LEN {
        return;
    }
    put(page, 0, &change.commit.to_be_bytes());
    put(page, from, bytes);
}

/// Whether a change is of this page.
fn is_of(change: &Change, space: u16, number: u32) -> bool
    ensures { result ≡ (((change_of change.now).patch.space == space) && ((change_of change.now).patch.page == number)) }
{
    change.space == space && change.page == number
}

/// Lays a change into the bytes of a page, where it is of that page.
fn lay_own(page: &mut [u8; PAGE_LEN], space: u16, number: u32, change: &Change)
    ensures { (was : Page) → page.old ≡ page_bytes space number was → LiesInPage (patch_of change.now)
        → page.new ≡ page_bytes space number (with_change space number was (change_of change.now)) }
{
    if is_of(change, space, number) {
        lay(page, change);
    }
}

/// Lays those of the changes that are of a page into its bytes, in order.
pub(crate) fn lay_all(page: &mut [u8; PAGE_LEN], space: u16, number: u32, changes: &[Change])
    ensures { (was : Page) → page.old ≡ page_bytes space number was → LieWithin (map change_of changes.now)
        → page.new ≡ page_bytes space number (fold (with_change space number) was (map change_of changes.now)) }
{
    for change in changes {
        lay_own(page, space, number, change);
    }
}
