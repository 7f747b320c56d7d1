//! Pages of a chunk, read, brought further and written.
ghost use Rattle.std.specs.Prelude.{◌≡◌, ◌+◌, ◌*◌, ◌≤◌, ℕ, List, length, map, fold, true, IsTrue, OnOk};
ghost use Rattle.site_disk.specs.Bytes.{Torn, extent, written};
ghost use Rattle.site_disk.specs.Causes.{HasCause};
ghost use Rattle.site_disk.specs.Images.{Leaves};
ghost use Rattle.site_disk.specs.Ledger.{MayUse, Uses};
ghost use Rattle.log_history.specs.Effects.{Page, with_change};
ghost use Rattle.txn_table.specs.Table.{change_of};
ghost use Rattle.before_images.specs.Saved.{Lie, Within, are_below, are_distinct, place_of};
ghost use Rattle.space_pages.specs.Layout.{page_bytes};
ghost use Rattle.space_pages.specs.Pages.{LieWithin, brought};
ghost use Rattle.lane_ways.specs.Pictures.{Stand, pages_at};
ghost use Rattle.lane_steps.specs.Moves.{Lays};

use crate::laying::{PAGE_LEN, lay_all};
use site_disk::{Disk, Era, Failed};
use txn_table::Change;

/// Where the pages of a chunk begin.
pub(crate) const PAGES_AT: u64 = 77_824;

/// Where a page stands.
pub(crate) fn place_of(page: u32) -> u64
    ensures { result ≡ place_of pages_at page }
{
    PAGES_AT + PAGE_LEN as u64 * u64::from(page)
}

/// Brings a page further by those of the changes that are of it.
fn bring_page<D: Disk>(
    disk: &mut D,
    era: &Era,
    space: u16,
    number: u32,
    changes: &[Change],
) -> Result<(), Failed>
    requires era { MayUse era.now (D.ledger disk.old) }
    requires reaches { IsTrue D.is_modelled → place_of pages_at number + 4096 ≤ length (D.bytes disk.old) }
    ensures brought { IsTrue D.is_modelled → LieWithin (map change_of changes.now) → (page : Page)
        → extent (place_of pages_at number) 4096 (D.bytes disk.old) ≡ page_bytes space number page
        → OnOk result (extent (place_of pages_at number) 4096 (D.bytes disk.new)
        ≡ page_bytes space number (fold (with_change space number) page (map change_of changes.now))) }
    ensures others { IsTrue D.is_modelled → OnOk result (Torn (place_of pages_at number) 4096 (D.bytes disk.old) (D.bytes disk.new)) }
    ensures crash { Leaves era.now.number (Torn (place_of pages_at number) 4096) (D.image disk.old) (D.image disk.new) }
    ensures ledger { Uses era.now 4096 4096 (D.ledger disk.old) (D.ledger disk.new) }
    ensures cause { HasCause (D.ledger disk.old).faults (D.ledger disk.new).faults result }
{
    let mut page = [0; PAGE_LEN];
    let place = place_of(number);
    disk.read_at(era, place, &mut page)?;
    lay_all(&mut page, space, number, changes);
    disk.write_at(era, place, &page)
}

/// Brings pages further by changes, each page once.
pub(crate) fn write_pages<D: Disk>(
    disk: &mut D,
    era: &Era,
    space: u16,
    pages: &[u32],
    changes: &[Change],
) -> Result<(), Failed>
    requires era { MayUse era.now (D.ledger disk.old) }
    requires reaches { IsTrue D.is_modelled → Lie pages_at pages.now (D.bytes disk.old) }
    requires distinct { IsTrue (are_distinct pages.now) }
    ensures brought { IsTrue D.is_modelled → (all : List Page) → Lays space (length all) pages.now (map change_of changes.now)
        → Stand space 0 all (D.bytes disk.old) → OnOk result (Stand space 0 (brought space 0 (map change_of changes.now) all) (D.bytes disk.new)) }
    ensures within { IsTrue D.is_modelled → (limit : ℕ) → are_below limit pages.now ≡ true
        → OnOk result (Within pages_at limit pages.now (D.bytes disk.old) (D.bytes disk.new)) }
    ensures crash { (limit : ℕ) → are_below limit pages.now ≡ true
        → Leaves era.now.number (Within pages_at limit pages.now) (D.image disk.old) (D.image disk.new) }
    ensures ledger { Uses era.now (4096 * length pages.now) (4096 * length pages.now) (D.ledger disk.old) (D.ledger disk.new) }
    ensures cause { HasCause (D.ledger disk.old).faults (D.ledger disk.new).faults result }
{
    for page in pages {
        bring_page(disk, era, space, *page, changes)?;
    }
    Ok(())
}
