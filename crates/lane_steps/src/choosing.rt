//! What a step takes of the changes that are left.
ghost use Rattle.std.specs.Prelude.{◌≡◌, ◌⊎◌, ◌+◌, ◌<◌, ◌≤◌, ◌++◌, [], ◌∷◌, length, map, take, true, false, IsTrue, MatchOption};
ghost use Rattle.txn_table.specs.Table.{change_of};
ghost use Rattle.before_images.specs.Saved.{are_below, are_distinct, is_among};
ghost use Rattle.space_pages.specs.Pages.{LieWithin};
ghost use Rattle.lane_steps.specs.Choices.{Chooses, is_own, own};
ghost use Rattle.lane_steps.specs.Moves.{Lays};

use txn_table::Change;

/// The most pages that a step touches.
pub const STEP_PAGES: usize = 16;

/// What a step takes.
#[derive(Clone, Copy, Debug, PartialEq, Eq)]
pub struct Chosen {
    /// How many changes at the front of the list.
    pub changes: usize,
    /// How many pages these have.
    pub pages: usize,
}

/// Whether a change is of a page that the space has.
pub fn is_own(change: &Change, space: u16, count: u32) -> bool
    ensures { result ≡ is_own space count (change_of change.now) }
{
    change.space == space && change.page < count
}

/// Whether a page is among these.
fn is_among(pages: &[u32], page: u32) -> bool
    ensures { result ≡ is_among page pages.now }
{
    for other in pages {
        if page == *other {
            return true;
        }
    }
    false
}

/// How many pages a step has with this one more; `None` where there is no room for it.
fn with_page(pages: &mut [u32; 16], used: usize, page: u32) -> Option<usize>
    requires { used ≤ 16 }
    ensures { MatchOption result
        ((is_among page (take used pages.old) ≡ false) × (used ≡ 16) × (pages.new ≡ pages.old))
        (λ more. (more ≤ 16) × (((is_among page (take used pages.old) ≡ true) × (take more pages.new ≡ take used pages.old))
        ⊎ ((is_among page (take used pages.old) ≡ false) × (used < 16) × (take more pages.new ≡ take used pages.old ++ page ∷ [])))) }
{
    if is_among(&pages[..used], page) {
        return Some(used);
    }
    if used == STEP_PAGES {
        return None;
    }
    pages[used] = page;
    Some(used + 1)
}

/// What a step takes of changes, in order.
fn choose_front(changes: &[Change], space: u16, count: u32, pages: &mut [u32; 16]) -> Chosen
    ensures chooses { Chooses space count (map change_of changes.now) result.changes (take result.pages pages.new) }
    ensures within { result.changes ≤ length changes.now }
    ensures few { result.pages ≤ 16 }
{
    let mut used = 0;
    for (i, change) in changes.iter().enumerate() {
        if is_own(change, space, count) {
            match with_page(pages, used, change.page) {
                Some(more) => used = more,
                None => {
                    return Chosen {
                        changes: i,
                        pages: used,
                    };
                }
            }
        }
    }
    Chosen {
        changes: changes.len(),
        pages: used,
    }
}

/// Chooses what a step takes of changes, in order: each of the space's own that lies in one of at most 16 pages. Those pages
/// are written at the front of `pages`, each once, in the order of their first changes. Changes of other spaces, and of pages
/// that the space doesn't have, are passed over.
pub fn choose(changes: &[Change], space: u16, count: u32, pages: &mut [u32; 16]) -> Chosen
    ensures chooses { Chooses space count (map change_of changes.now) result.changes (take result.pages pages.new) }
    ensures within { result.changes ≤ length changes.now }
    ensures few { result.pages ≤ 16 }
    // So a step may be made with these pages and changes.
    ensures distinct { are_distinct (take result.pages pages.new) ≡ true }
    ensures below { are_below count (take result.pages pages.new) ≡ true }
    ensures lays { LieWithin (map change_of changes.now)
        → Lays space count (take result.pages pages.new) (take result.changes (map change_of changes.now)) }
    // No page is touched only where none of them is the space's own.
    ensures none { take result.pages pages.new ≡ [] → own space count (map change_of changes.now) ≡ [] }
{
    choose_front(changes, space, count, pages)
}
