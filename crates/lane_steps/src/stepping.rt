//! A step: before-images, pages, and then the mark.
ghost use Rattle.std.specs.Prelude.{◌≡◌, ◌+◌, ◌*◌, ◌≤◌, ℕ, List, length, map, true, IsTrue, OnOk, OnErr};
ghost use Rattle.site_disk.specs.Causes.{HasCause};
ghost use Rattle.site_disk.specs.Images.{IsSynced, Leaves, OnlyAfter};
ghost use Rattle.site_disk.specs.Ledger.{MayUse, Uses};
ghost use Rattle.site_disk.specs.Seen.{seen};
ghost use Rattle.log_history.specs.Effects.{Page};
ghost use Rattle.txn_table.specs.Table.{change_of};
ghost use Rattle.twin_mark.specs.Marks.{Knows};
ghost use Rattle.before_images.specs.Saved.{are_below, are_distinct, place_of};
ghost use Rattle.lane_ways.specs.Pictures.{Picture, images_at, mark_at, pages_at};
ghost use Rattle.lane_steps.specs.Moves.{CanMove, Moves, Rests, WritesOnly, moved, placed, standing};

use crate::writing::{PAGES_AT, place_of, write_pages};
use before_images::Images;
use site_disk::{Disk, Era, Failed, extend_to};
use twin_mark::Mark;
use txn_table::Change;

/// Brings pages of a chunk further by changes, and its mark to the place behind them.
///
/// `count` is how many pages the space has, `from` the place before the step, `pages` those that are written, each once, and
/// `content` the record of the mark for the place behind the step. The pages are saved for the place before the step,
/// written and synced, and then the mark is stored: 2 reads of each page, 2 writes of it, and at most 4,355 bytes more where
/// the disk reaches the end of the pages.
pub fn step<D: Disk>(
    disk: &mut D,
    era: &Era,
    images: &mut Images,
    mark: &mut Mark,
    space: u16,
    count: u32,
    from: (u64, u32),
    pages: &[u32],
    changes: &[Change],
    content: &[u8; 255],
) -> Result<(), Failed>
    requires era { MayUse era.now (D.ledger disk.old) }
    requires images { images.old.base ≡ images_at }
    requires mark { mark.old.base ≡ mark_at }
    requires some { 1 ≤ length pages.now }
    requires few { length pages.now ≤ 16 }
    requires distinct { IsTrue (are_distinct pages.now) }
    requires below { IsTrue (are_below count pages.now) }

    ensures images { images.new ≡ images.old }
    ensures base { mark.new.base ≡ mark.old.base }
    ensures value { OnErr result (mark.new ≡ mark.old) }

    ensures rests { IsTrue D.is_modelled → (header was : List ℕ) (there : List Page) (upto part : ℕ) → length there ≡ count
        → CanMove space count pages.now (map change_of changes.now) from.0 from.1 upto part
        → Rests (standing header was space from.0 from.1 there) mark.old (seen D.Disk disk.old)
        → OnOk result (Rests (moved (standing header was space from.0 from.1 there) content.now upto part (map change_of changes.now))
        mark.new (seen D.Disk disk.new)) }
    ensures durable { IsTrue D.is_modelled → OnOk result (OnlyAfter era.now.number (D.bytes disk.new) (D.image disk.new)) }
    ensures crash { IsTrue D.is_modelled → (header was : List ℕ) (there : List Page) (upto part : ℕ) → length there ≡ count
        → CanMove space count pages.now (map change_of changes.now) from.0 from.1 upto part
        → Rests (standing header was space from.0 from.1 there) mark.old (seen D.Disk disk.old)
        → let first = standing header was space from.0 from.1 there in
        Leaves era.now.number (Moves first (moved first content.now upto part (map change_of changes.now))) (D.image disk.old) (D.image disk.new) }

    // Whatever the chunk shows: nothing is written but the mark, what is kept, and pages that the space has.
    ensures others { IsTrue D.is_modelled → place_of pages_at count ≤ length (D.bytes disk.old) → Knows mark.old (D.bytes disk.old)
        → IsSynced (seen D.Disk disk.old) → Leaves era.now.number (WritesOnly count) (D.image disk.old) (D.image disk.new) }
    ensures knows { IsTrue D.is_modelled → place_of pages_at count ≤ length (D.bytes disk.old) → Knows mark.old (D.bytes disk.old)
        → OnOk result ((Knows mark.new (D.bytes disk.new)) × (length (D.bytes disk.old) ≤ length (D.bytes disk.new))) }

    ensures ledger { Uses era.now (8192 * length pages.now + 2) (8192 * length pages.now + 164611 + 4096 * count)
        (D.ledger disk.old) (D.ledger disk.new) }
    ensures bound { IsTrue D.is_modelled → place_of pages_at count ≤ length (D.bytes disk.old) → Knows mark.old (D.bytes disk.old)
        → (D.ledger disk.new).written ≤ (D.ledger disk.old).written + 8192 * length pages.now + 4355 }
    ensures cause { HasCause (D.ledger disk.old).faults (D.ledger disk.new).faults result }
{
    extend_to(disk, era, place_of(count))?;
    images.save(disk, era, PAGES_AT, from, pages)?;
    write_pages(disk, era, space, pages, changes)?;
    disk.sync(era)?;
    mark.store(disk, era, content)
}

/// Brings the mark of a chunk to another place with the same pages: what is kept is dropped, and then the mark is stored.
///
/// `content` is the record of the mark for that place. Without the dropping, pages that are kept for that very place would be
/// put back there.
pub fn move_place<D: Disk>(
    disk: &mut D,
    era: &Era,
    images: &mut Images,
    mark: &mut Mark,
    content: &[u8; 255],
) -> Result<(), Failed>
    requires era { MayUse era.now (D.ledger disk.old) }
    requires images { images.old.base ≡ images_at }
    requires mark { mark.old.base ≡ mark_at }

    ensures images { images.new ≡ images.old }
    ensures base { mark.new.base ≡ mark.old.base }
    ensures value { OnErr result (mark.new ≡ mark.old) }

    ensures rests { IsTrue D.is_modelled → (first : Picture) (upto part : ℕ) → Rests first mark.old (seen D.Disk disk.old)
        → OnOk result (Rests (placed first content.now upto part) mark.new (seen D.Disk disk.new)) }
    ensures durable { IsTrue D.is_modelled → OnOk result (OnlyAfter era.now.number (D.bytes disk.new) (D.image disk.new)) }
    ensures crash { IsTrue D.is_modelled → (first : Picture) (upto part : ℕ) → Rests first mark.old (seen D.Disk disk.old)
        → Leaves era.now.number (Moves first (placed first content.now upto part)) (D.image disk.old) (D.image disk.new) }

    // Whatever the chunk shows: nothing is written but the mark and what is kept.
    ensures others { IsTrue D.is_modelled → pages_at ≤ length (D.bytes disk.old) → Knows mark.old (D.bytes disk.old)
        → IsSynced (seen D.Disk disk.old) → Leaves era.now.number (WritesOnly 0) (D.image disk.old) (D.image disk.new) }
    ensures knows { IsTrue D.is_modelled → pages_at ≤ length (D.bytes disk.old) → Knows mark.old (D.bytes disk.old)
        → OnOk result ((Knows mark.new (D.bytes disk.new)) × (length (D.bytes disk.old) ≤ length (D.bytes disk.new))) }

    ensures ledger { Uses era.now 2 13059 (D.ledger disk.old) (D.ledger disk.new) }
    ensures bound { IsTrue D.is_modelled → images_at ≤ length (D.bytes disk.old) → Knows mark.old (D.bytes disk.old)
        → (D.ledger disk.new).written ≤ (D.ledger disk.old).written + 259 }
    ensures cause { HasCause (D.ledger disk.old).faults (D.ledger disk.new).faults result }
{
    images.drop_all(disk, era)?;
    mark.store(disk, era, content)
}
