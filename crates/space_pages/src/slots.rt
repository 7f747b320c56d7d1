//! The places of pages: each has its page once a change was laid into it.
ghost use Rattle.std.specs.Prelude.{◌≡◌, ◌+◌, ◌<◌, ◌≤◌, ◌^◌, ◌⊎◌, [], ◌∷◌, length, map, IsOk, IfOk, OnOk, OnErr, MatchOption, option_copied};
ghost use Rattle.log_history.specs.Effects.{empty_page};
ghost use Rattle.plain_pages.specs.Page.{page_of};
ghost use Rattle.txn_table.specs.Table.{change_of, patch_of};
ghost use Rattle.space_pages.specs.Pages.{BroughtInPart, LieWithin, LiesInPage, brought, changed, empty_pages, pages_view, used};
ghost use Rattle.space_pages.specs.Slots.{page_in, pages_in, IsPlace};

use plain_pages::Page;
use std::alloc::{AllocError, Global};
use txn_table::Change;

/// The place of a page.
pub(crate) type Slot = Option<Box<Page>>;

/// The index of a page among so many from a number on.
fn place(first: u32, count: usize, page: u32) -> Option<usize>
    ensures { MatchOption result ((page < first) ⊎ (first + count ≤ page)) (IsPlace first count page) }
{
    if page < first {
        return None;
    }
    let index = (page - first) as usize;
    (index < count).then_some(index)
}

/// Lays a change into the page of a place, which is made where there is none.
fn lay_in(slot: &mut Slot, alloc: Global, change: &Change) -> Result<(), AllocError>
    requires { LiesInPage (patch_of change.now) }
    ensures ok { OnOk result (page_in slot.new ≡ changed (change_of change.now) (page_in slot.old)) }
    ensures err { OnErr result (page_in slot.new ≡ page_in slot.old) }
{
    let mut page = match slot.take() {
        Some(page) => page,
        None => Box::new(alloc, Page::empty())?,
    };
    page.lay(change.commit, change.offset, change.bytes.as_bytes());
    *slot = Some(page);
    Ok(())
}

/// Lays a change into its page, if that stands here.
pub(crate) fn lay(
    slots: &mut Vec<Slot>,
    alloc: Global,
    space: u16,
    first: u32,
    change: &Change,
) -> Result<(), AllocError>
    requires { LiesInPage (patch_of change.now) }
    ensures ok { OnOk result (pages_in slots.new.items
        ≡ brought space first (change_of change.now ∷ []) (pages_in slots.old.items)) }
    ensures err { OnErr result (pages_in slots.new.items ≡ pages_in slots.old.items) }
    ensures count { length slots.new.items ≡ length slots.old.items }
{
    if change.space != space {
        return Ok(());
    }
    let Some(index) = place(first, slots.len(), change.page) else {
        return Ok(());
    };
    lay_in(&mut slots[index], alloc, change)
}

/// Lays changes into their pages, in order.
pub(crate) fn lay_all(
    slots: &mut Vec<Slot>,
    alloc: Global,
    space: u16,
    first: u32,
    changes: &[Change],
) -> Result<(), AllocError>
    requires { LieWithin (map change_of changes.now) }
    ensures ok { OnOk result (pages_in slots.new.items
        ≡ brought space first (map change_of changes.now) (pages_in slots.old.items)) }
    ensures err { OnErr result (BroughtInPart (pages_view space first (pages_in slots.old.items))
        (map change_of changes.now) (pages_view space first (pages_in slots.new.items))) }
    ensures count { length slots.new.items ≡ length slots.old.items }
{
    for change in changes {
        lay(slots, alloc, space, first, change)?;
    }
    Ok(())
}

/// Places of so many pages that were never written.
pub(crate) fn empty_slots(alloc: Global, count: u32) -> Result<Vec<Slot>, AllocError>
    ensures pages { IfOk result (λ slots. pages_in slots.items ≡ empty_pages count) }
    ensures none { count ≡ 0 → IsOk result }
{
    let mut slots = Vec::with_capacity(alloc, count as usize)?;
    for _index in 0..count {
        slots.push(None)?;
    }
    Ok(slots)
}

/// The page of a place, where there is one.
pub(crate) fn page(slot: &Slot) -> Option<&Page>
    ensures { MatchOption (option_copied result) (page_in slot.now ≡ empty_page)
        (λ page. page_in slot.now ≡ page_of page) }
{
    match slot {
        Some(page) => Some(&**page),
        None => None,
    }
}

/// The stamp of the page of a place.
#[tactic(auto, unfolding(log_history::specs::Effects::empty_page))]
pub(crate) fn stamp(slot: &Slot) -> u64
    ensures { result ≡ (page_in slot.now).stamp }
{
    match slot {
        Some(page) => page.stamp,
        None => 0,
    }
}

/// How many of the pages were written.
pub(crate) fn used(slots: &[Slot]) -> u32
    requires { length slots.now < 2 ^ 32 }
    ensures { result ≡ used (pages_in slots.now) }
{
    let mut count = 0;
    for slot in slots {
        if stamp(slot) > 0 {
            count += 1;
        }
    }
    count
}
