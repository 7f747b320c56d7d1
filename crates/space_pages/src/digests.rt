//! The digest of pages.
ghost use Rattle.std.specs.Prelude.{◌≡◌, ◌+◌, ◌<◌, ◌^◌, ℕ, List, [], ◌++◌, length};
ghost use Rattle.log_history.specs.Effects.{empty_page};
ghost use Rattle.plain_pages.specs.Page.{page_of};
ghost use Rattle.sha2.specs.Hashers.{Holds256};
ghost use Rattle.space_pages.specs.Layout.{digest_from, page_bytes};
ghost use Rattle.space_pages.specs.Slots.{page_in, pages_in};

use crate::slots::Slot;
use plain_pages::Page;
use sha2::{Digest, Sha256};

/// The bytes of a page before its payload.
#[tactic(auto, unfolding(crate::specs::Layout::page_bytes))]
fn header(space: u16, number: u32, stamp: u64) -> [u8; 16]
    ensures { result ≡ page_bytes space number (record { stamp = stamp; payload = [] }) }
{
    let mut header = [0; 16];
    header[..8].copy_from_slice(&stamp.to_be_bytes());
    header[8..10].copy_from_slice(&space.to_be_bytes());
    header[12..].copy_from_slice(&number.to_be_bytes());
    header
}

/// Adds the bytes of a page.
fn hash_page(hasher: &mut Sha256, space: u16, number: u32, page: &Page)
    ensures { (message : List ℕ) → Holds256 hasher.old message
        → Holds256 hasher.new (message ++ page_bytes space number (page_of page.now)) }
{
    hasher.update(&header(space, number, page.stamp));
    hasher.update(&page.payload);
}

/// The page of a place, or the other one where there is none.
fn page_or<'a>(slot: &'a Slot, empty: &'a Page) -> &'a Page
    requires { page_of empty.now ≡ empty_page }
    ensures { page_of result.now ≡ page_in slot.now }
{
    match slot {
        Some(page) => page,
        None => empty,
    }
}

/// The SHA-256 of the bytes of pages, the first of which has this number.
pub(crate) fn digest(slots: &[Slot], space: u16, first: u32) -> [u8; 32]
    requires { first + length slots.now < 2 ^ 32 }
    ensures { result ≡ digest_from space first (pages_in slots.now) }
{
    let empty = Page::empty();
    let mut hasher = Sha256::new();
    for (i, slot) in slots.iter().enumerate() {
        hash_page(&mut hasher, space, first + i as u32, page_or(slot, &empty));
    }
    hasher.finalize()
}
