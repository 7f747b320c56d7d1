//! One step of a lane along its way.
ghost use Rattle.std.specs.Prelude.{◌≡◌, ◌+◌, ◌*◌, ◌≤◌, ◌^◌, ℕ, List, length, map, IsTrue, OnOk, IfOk};
ghost use Rattle.site_disk.specs.Causes.{HasCause};
ghost use Rattle.site_disk.specs.Images.{Leaves, OnlyAfter};
ghost use Rattle.site_disk.specs.Ledger.{MayUse, Uses};
ghost use Rattle.site_disk.specs.Seen.{seen};
ghost use Rattle.log_history.specs.History.{History};
ghost use Rattle.txn_table.specs.Table.{change_of};
ghost use Rattle.twin_mark.specs.Marks.{Knows};
ghost use Rattle.before_images.specs.Saved.{place_of};
ghost use Rattle.lane_ways.specs.Pictures.{images_at, mark_at, pages_at};
ghost use Rattle.lane_mark.specs.Layout.{FitsState};
ghost use Rattle.lane_steps.specs.Moves.{Rests};
ghost use Rattle.lane_advance.specs.Places.{picture_at};
ghost use Rattle.lane_advance.specs.Advances.{GoesTo, Leads, MayAdvance};

use crate::advancing::{advance_one, finish};
use crate::progress::begin;
use backup_lines::LaneState;
use before_images::Images;
use site_disk::{Disk, Era, Failed};
use twin_mark::Mark;
use txn_table::Change;

/// The first step of what `advance` does, of at most 16 pages; where nothing is left to lay, its last move, which takes the mark to
/// the position. It answers where the mark stands then.
///
/// What is handed over is what `advance` takes. Where the mark stands at the position already, nothing is done.
pub fn advance_step<D: Disk>(
    disk: &mut D,
    era: &Era,
    images: &mut Images,
    mark: &mut Mark,
    space: u16,
    count: u32,
    state: &LaneState,
    from: (u64, u32),
    to: u64,
    changes: &[Change],
) -> Result<(u64, u32), Failed>
    requires era { MayUse era.now (D.ledger disk.old) }
    requires images { images.old.base ≡ images_at }
    requires mark { mark.old.base ≡ mark_at }
    requires fits { FitsState state.now }
    requires to { to ≤ 2 ^ 48 }

    ensures images { images.new ≡ images.old }
    ensures base { mark.new.base ≡ mark.old.base }

    // It comes to the position, or to another place on the way that isn't before the first one; the changes lead on from there.
    ensures goes { (history : History) (n : ℕ) → Leads history n space count to from.0 from.1 (map change_of changes.now)
        → IfOk result (λ place. GoesTo history n space count to from.0 from.1 (map change_of changes.now) place.0 place.1) }
    ensures rests { IsTrue D.is_modelled → (history : History) (n : ℕ) (first : List ℕ)
        → Leads history n space count to from.0 from.1 (map change_of changes.now)
        → Rests (picture_at history n space count state.now from.0 from.1 first) mark.old (seen D.Disk disk.old)
        → IfOk result (λ place. Rests (picture_at history n space count state.now place.0 place.1 first) mark.new (seen D.Disk disk.new)) }
    ensures crash { IsTrue D.is_modelled → (history : History) (n : ℕ) (first : List ℕ)
        → Leads history n space count to from.0 from.1 (map change_of changes.now)
        → Rests (picture_at history n space count state.now from.0 from.1 first) mark.old (seen D.Disk disk.old)
        → Leaves era.now.number (MayAdvance history n space count state.now from.0 from.1 first) (D.image disk.old) (D.image disk.new) }
    ensures durable { IsTrue D.is_modelled → OnlyAfter era.now.number (D.bytes disk.old) (D.image disk.old)
        → OnOk result (OnlyAfter era.now.number (D.bytes disk.new) (D.image disk.new)) }
    ensures nothing { from.0 ≡ to → from.1 ≡ 0 → (disk.new ≡ disk.old) × (mark.new ≡ mark.old) × IfOk result (λ place. place ≡ from) }
    ensures within { IfOk result (λ place. place.0 ≤ to) }

    ensures ledger { Uses era.now 131076 (308742 + 4096 * count) (D.ledger disk.old) (D.ledger disk.new) }
    // Where the disk reaches the end of the pages.
    ensures bound { IsTrue D.is_modelled → place_of pages_at count ≤ length (D.bytes disk.old) → Knows mark.old (D.bytes disk.old)
        → (D.ledger disk.new).written ≤ (D.ledger disk.old).written + 135686 }
    ensures cause { HasCause (D.ledger disk.old).faults (D.ledger disk.new).faults result }
{
    if from.0 == to && from.1 == 0 {
        return Ok(from);
    }
    let mut progress = begin(changes, space, count, from.0, from.1);
    let is_step = advance_one(
        disk,
        era,
        images,
        mark,
        space,
        count,
        state,
        to,
        changes,
        &mut progress,
    )?;
    if is_step {
        return Ok((progress.upto, progress.part));
    }
    finish(
        disk,
        era,
        images,
        mark,
        state,
        (progress.upto, progress.part),
        to,
    )?;
    Ok((to, 0))
}
