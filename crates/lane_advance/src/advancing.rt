//! The steps of a lane along its way, one after another.
ghost use Rattle.std.specs.Prelude.{◌≡◌, ◌+◌, ◌-◌, ◌*◌, ◌<◌, ◌≤◌, ◌^◌, ℕ, List, [], length, map, drop, true, false, IsTrue, OnOk, IfOk};
ghost use Rattle.site_disk.specs.Causes.{HasCause};
ghost use Rattle.site_disk.specs.Images.{IsSynced, Leaves, OnlyAfter};
ghost use Rattle.site_disk.specs.Ledger.{MayUse, Uses};
ghost use Rattle.site_disk.specs.Seen.{seen};
ghost use Rattle.log_history.specs.History.{History};
ghost use Rattle.log_history.specs.Effects.{Page};
ghost use Rattle.txn_table.specs.Table.{change_of};
ghost use Rattle.twin_mark.specs.Marks.{Knows};
ghost use Rattle.before_images.specs.Saved.{place_of};
ghost use Rattle.lane_ways.specs.Pictures.{images_at, mark_at, pages_at};
ghost use Rattle.lane_mark.specs.Layout.{FitsState};
ghost use Rattle.lane_steps.specs.Choices.{own};
ghost use Rattle.lane_steps.specs.Moves.{Moves, Rests};
ghost use Rattle.lane_advance.specs.Places.{picture_at, picture_of, with_place};
ghost use Rattle.lane_advance.specs.Advances.{IsUnderWay, Leads, MayAdvance};

use crate::places::with_place;
use crate::progress::{Progress, begin, behind};
use backup_lines::LaneState;
use before_images::Images;
use lane_mark::encode_into;
use lane_steps::{choose, move_place, step};
use site_disk::{Disk, Era, Failed};
use twin_mark::Mark;
use txn_table::Change;

/// One step, with the mark stored behind it; `false` where none of the changes that are left is the space's own, and nothing
/// is done.
pub(crate) fn advance_one<D: Disk>(
    disk: &mut D,
    era: &Era,
    images: &mut Images,
    mark: &mut Mark,
    space: u16,
    count: u32,
    state: &LaneState,
    to: u64,
    changes: &[Change],
    progress: &mut Progress,
) -> Result<bool, Failed>
    requires era { MayUse era.now (D.ledger disk.old) }
    requires images { images.old.base ≡ images_at }
    requires mark { mark.old.base ≡ mark_at }
    requires fits { FitsState state.now }
    requires to { to ≤ 2 ^ 48 }
    requires within { progress.old.taken ≤ length changes.now }

    ensures images { images.new ≡ images.old }
    ensures base { mark.new.base ≡ mark.old.base }
    ensures within { progress.new.taken ≤ length changes.now }
    ensures no_less { progress.old.taken ≤ progress.new.taken }
    ensures more { IfOk result (λ goes. goes ≡ true → progress.old.taken < progress.new.taken) }
    ensures short { IfOk result (λ goes. goes ≡ true → progress.new.upto ≤ to) }
    ensures none { IfOk result (λ goes. goes ≡ false → own space count (drop progress.new.taken (map change_of changes.now)) ≡ []) }
    ensures under_way { (history : History) (n upto part : ℕ) → Leads history n space count to upto part (map change_of changes.now)
        → IsUnderWay history n space count upto part (map change_of changes.now) progress.old
        → OnOk result (IsUnderWay history n space count upto part (map change_of changes.now) progress.new) }
    ensures other { (history : History) (n upto part : ℕ) → Leads history n space count to upto part (map change_of changes.now)
        → IsUnderWay history n space count upto part (map change_of changes.now) progress.old
        → IfOk result (λ goes. goes ≡ true → progress.new.upto ≡ progress.old.upto → progress.new.part ≡ progress.old.part → ⊥) }
    ensures rests { IsTrue D.is_modelled → (history : History) (n upto part : ℕ) (first : List ℕ)
        → Leads history n space count to upto part (map change_of changes.now)
        → IsUnderWay history n space count upto part (map change_of changes.now) progress.old
        → Rests (picture_at history n space count state.now progress.old.upto progress.old.part first) mark.old (seen D.Disk disk.old)
        → OnOk result (Rests (picture_at history n space count state.now progress.new.upto progress.new.part first) mark.new (seen D.Disk disk.new)) }
    ensures crash { IsTrue D.is_modelled → (history : History) (n upto part : ℕ) (first : List ℕ)
        → Leads history n space count to upto part (map change_of changes.now)
        → IsUnderWay history n space count upto part (map change_of changes.now) progress.old
        → Rests (picture_at history n space count state.now progress.old.upto progress.old.part first) mark.old (seen D.Disk disk.old)
        → Leaves era.now.number (MayAdvance history n space count state.now upto part first) (D.image disk.old) (D.image disk.new) }
    ensures durable { IsTrue D.is_modelled → OnlyAfter era.now.number (D.bytes disk.old) (D.image disk.old)
        → OnOk result (OnlyAfter era.now.number (D.bytes disk.new) (D.image disk.new)) }
    ensures knows { IsTrue D.is_modelled → place_of pages_at count ≤ length (D.bytes disk.old) → Knows mark.old (D.bytes disk.old)
        → OnOk result ((Knows mark.new (D.bytes disk.new)) × (length (D.bytes disk.old) ≤ length (D.bytes disk.new))) }
    ensures ledger { Uses era.now 131074 (295683 + 4096 * count) (D.ledger disk.old) (D.ledger disk.new) }
    ensures bound { IsTrue D.is_modelled → place_of pages_at count ≤ length (D.bytes disk.old) → Knows mark.old (D.bytes disk.old)
        → (D.ledger disk.new).written ≤ (D.ledger disk.old).written + 135427 }
    ensures cause { HasCause (D.ledger disk.old).faults (D.ledger disk.new).faults result }
{
    let left = &changes[progress.taken..];
    let mut pages = [0; 16];
    let chosen = choose(left, space, count, &mut pages);
    if chosen.pages == 0 {
        return Ok(false);
    }
    let next = behind(progress, left, chosen.changes, space, count, to);
    let mut record = [0; 255];
    encode_into(&with_place(state, next.upto, next.part), &mut record);
    let from = (progress.upto, progress.part);
    let pages = &pages[..chosen.pages];
    let (taken, _) = left.split_at(chosen.changes);
    step(
        disk, era, images, mark, space, count, from, pages, taken, &record,
    )?;
    *progress = next;
    Ok(true)
}

/// The last move: from a place at which all is laid to the position that the way leads to, with the same pages.
pub(crate) fn finish<D: Disk>(
    disk: &mut D,
    era: &Era,
    images: &mut Images,
    mark: &mut Mark,
    state: &LaneState,
    from: (u64, u32),
    to: u64,
) -> Result<(), Failed>
    requires era { MayUse era.now (D.ledger disk.old) }
    requires images { images.old.base ≡ images_at }
    requires mark { mark.old.base ≡ mark_at }
    requires fits { FitsState state.now }
    requires to { to ≤ 2 ^ 48 }

    ensures images { images.new ≡ images.old }
    ensures base { mark.new.base ≡ mark.old.base }
    ensures rests { IsTrue D.is_modelled → (space : ℕ) (pages : List Page) (first : List ℕ)
        → Rests (picture_of space (with_place state.now from.0 from.1) from.0 from.1 pages first) mark.old (seen D.Disk disk.old)
        → OnOk result (Rests (picture_of space (with_place state.now to 0) to 0 pages first) mark.new (seen D.Disk disk.new)) }
    ensures crash { IsTrue D.is_modelled → (space : ℕ) (pages : List Page) (first : List ℕ)
        → Rests (picture_of space (with_place state.now from.0 from.1) from.0 from.1 pages first) mark.old (seen D.Disk disk.old)
        → Leaves era.now.number (Moves (picture_of space (with_place state.now from.0 from.1) from.0 from.1 pages first)
        (picture_of space (with_place state.now to 0) to 0 pages first)) (D.image disk.old) (D.image disk.new) }
    ensures durable { IsTrue D.is_modelled → OnlyAfter era.now.number (D.bytes disk.old) (D.image disk.old)
        → OnOk result (OnlyAfter era.now.number (D.bytes disk.new) (D.image disk.new)) }
    ensures ledger { Uses era.now 2 13059 (D.ledger disk.old) (D.ledger disk.new) }
    ensures bound { IsTrue D.is_modelled → images_at ≤ length (D.bytes disk.old) → Knows mark.old (D.bytes disk.old)
        → (D.ledger disk.new).written ≤ (D.ledger disk.old).written + 259 }
    ensures cause { HasCause (D.ledger disk.old).faults (D.ledger disk.new).faults result }
{
    if from.0 == to && from.1 == 0 {
        return Ok(());
    }
    let mut record = [0; 255];
    encode_into(&with_place(state, to, 0), &mut record);
    move_place(disk, era, images, mark, &record)
}

/// Brings the pages of a chunk forward by changes, until its mark stands at a position.
///
/// `count` is how many pages the space has, `state` the state that the mark has, but for the place, and `from` that place. The
/// changes may be of all spaces, and may begin before the place. Where the mark stands at the position already, nothing is
/// done.
pub fn advance<D: Disk>(
    disk: &mut D,
    era: &Era,
    images: &mut Images,
    mark: &mut Mark,
    space: u16,
    count: u32,
    state: &LaneState,
    from: (u64, u32),
    to: u64,
    changes: &[Change],
) -> Result<(), Failed>
    requires era { MayUse era.now (D.ledger disk.old) }
    requires images { images.old.base ≡ images_at }
    requires mark { mark.old.base ≡ mark_at }
    requires fits { FitsState state.now }
    requires to { to ≤ 2 ^ 48 }

    ensures images { images.new ≡ images.old }
    ensures base { mark.new.base ≡ mark.old.base }

    ensures rests { IsTrue D.is_modelled → (history : History) (n : ℕ) (first : List ℕ)
        → Leads history n space count to from.0 from.1 (map change_of changes.now)
        → Rests (picture_at history n space count state.now from.0 from.1 first) mark.old (seen D.Disk disk.old)
        → OnOk result (Rests (picture_at history n space count state.now to 0 first) mark.new (seen D.Disk disk.new)) }
    // A place on the way that isn't before the first one, with its pages.
    ensures crash { IsTrue D.is_modelled → (history : History) (n : ℕ) (first : List ℕ)
        → Leads history n space count to from.0 from.1 (map change_of changes.now)
        → Rests (picture_at history n space count state.now from.0 from.1 first) mark.old (seen D.Disk disk.old)
        → Leaves era.now.number (MayAdvance history n space count state.now from.0 from.1 first) (D.image disk.old) (D.image disk.new) }
    ensures durable { IsTrue D.is_modelled → OnlyAfter era.now.number (D.bytes disk.old) (D.image disk.old)
        → OnOk result (OnlyAfter era.now.number (D.bytes disk.new) (D.image disk.new)) }
    ensures nothing { from.0 ≡ to → from.1 ≡ 0 → (disk.new ≡ disk.old) × (mark.new ≡ mark.old) }

    ensures ledger { Uses era.now (131074 * (length changes.now + 2)) ((295683 + 4096 * count) * (length changes.now + 2))
        (D.ledger disk.old) (D.ledger disk.new) }
    // Where the disk reaches the end of the pages.
    ensures bound { IsTrue D.is_modelled → place_of pages_at count ≤ length (D.bytes disk.old) → Knows mark.old (D.bytes disk.old)
        → (D.ledger disk.new).written ≤ (D.ledger disk.old).written + 135427 * (length changes.now + 1) + 259 }
    ensures cause { HasCause (D.ledger disk.old).faults (D.ledger disk.new).faults result }
{
    if from.0 == to && from.1 == 0 {
        return Ok(());
    }
    let mut progress = begin(changes, space, count, from.0, from.1);
    loop {
        if !advance_one(
            disk,
            era,
            images,
            mark,
            space,
            count,
            state,
            to,
            changes,
            &mut progress,
        )? {
            break;
        }
    }
    finish(
        disk,
        era,
        images,
        mark,
        state,
        (progress.upto, progress.part),
        to,
    )
}
