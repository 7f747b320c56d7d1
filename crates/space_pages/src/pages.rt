//! The pages of a space.
ghost use Rattle.std.specs.Prelude.{◌≡◌, ◌+◌, ◌<◌, ◌^◌, ◌↔◌, length, map, Some, slice_get, option_copied, IsTrue, IsOk, IfOk, IfSome, OnOk, OnErr, MatchOption};
ghost use Rattle.log_history.specs.Effects.{empty_page};
ghost use Rattle.plain_pages.specs.Page.{page_of};
ghost use Rattle.txn_table.specs.Table.{change_of};
ghost use Rattle.space_pages.specs.Layout.{digest_from};
ghost use Rattle.space_pages.specs.Pages.{LieWithin, BroughtInPart, empty_pages, forward, pages_view, used};

use crate::digests;
use crate::slots::{self, Slot};
use plain_pages::Page;
use std::alloc::{AllocError, Global};
use std::marker::Model;
use txn_table::Change;

/// Pages of a space from a number on, as changes brought them forward. Each has a place of 16 bytes, and 4,088 bytes of
/// memory once it was written.
#[derive(Drop)]
pub struct Pages {
    alloc: Global,
    space: u16,
    first: u32,
    slots: Vec<Slot>,
}

impl Model for Pages {
    ghost use Rattle.std.specs.Prelude.{◌+◌, ◌<◌, ◌^◌, length};
    ghost use Rattle.space_pages.specs.Layout.{digest_from};
    ghost use Rattle.space_pages.specs.Pages.{PagesView};
    ghost use Rattle.space_pages.specs.Slots.{pages_in};

    ghost Value = { PagesView };

    ghost view = { λ p. record { space = p.space; first = p.first; pages = pages_in p.slots.items } };

    ghost invariant = { λ p. p.first + length p.slots.items < 2 ^ 32 };
}

impl Pages {
    /// So many pages of a space, from a number on, that were never written.
    pub fn new(alloc: Global, space: u16, first: u32, count: u32) -> Result<Pages, AllocError>
        requires { first + count < 2 ^ 32 }
        ensures pages { IfOk result (λ made. made ≡ pages_view space first (empty_pages count)) }
        ensures no_memory { count ≡ 0 → IsOk result }
    {
        let slots = slots::empty_slots(alloc, count)?;
        Ok(Pages {
            alloc,
            space,
            first,
            slots,
        })
    }

    /// Brings the pages forward by changes, in order. Those of other spaces and pages are passed over. A page takes memory
    /// with its first change; after an `Err` the changes before that one are in.
    pub fn apply(&mut self, changes: &[Change]) -> Result<(), AllocError>
        requires { LieWithin (map change_of changes.now) }
        ensures forward { OnOk result (self.new ≡ forward self.old (map change_of changes.now)) }
        ensures in_part { OnErr result (BroughtInPart self.old (map change_of changes.now) self.new) }
    {
        slots::lay_all(&mut self.slots, self.alloc, self.space, self.first, changes)
    }

    /// How many pages these are.
    pub fn len(&self) -> u32
        ensures { result ≡ length self.now.pages }
    {
        self.slots.len() as u32
    }

    /// Whether these are no pages.
    pub fn is_empty(&self) -> bool
        ensures { IsTrue result ↔ (length self.now.pages ≡ 0) }
    {
        self.slots.is_empty()
    }

    /// The page at an index, from 0 on. `None` where it is as one that was never written.
    pub fn page(&self, index: u32) -> Option<&Page>
        requires { index < length self.now.pages }
        ensures { MatchOption (option_copied result) (slice_get self.now.pages index ≡ Some empty_page)
            (λ page. slice_get self.now.pages index ≡ Some (page_of page)) }
    {
        slots::page(&self.slots[index as usize])
    }

    /// The stamp of the page at an index, from 0 on.
    pub fn stamp(&self, index: u32) -> u64
        requires { index < length self.now.pages }
        ensures { IfSome (slice_get self.now.pages index) (λ page. result ≡ page.stamp) }
    {
        slots::stamp(&self.slots[index as usize])
    }

    /// How many of the pages were written: their stamp is above 0.
    pub fn used(&self) -> u32
        ensures { result ≡ used self.now.pages }
    {
        slots::used(&self.slots)
    }

    /// The SHA-256 of the 4,096 bytes of each page, one after another.
    pub fn digest(&self) -> [u8; 32]
        ensures { result ≡ digest_from self.now.space self.now.first self.now.pages }
    {
        digests::digest(&self.slots, self.space, self.first)
    }
}
