//! A lane brought forward along its way.
ghost use Rattle.std.specs.Prelude.{◌≡◌, ◌+◌, ◌*◌, ◌≤◌, ◌^◌, ℕ, false, length, map, None, Some, IsTrue, IfOk, OnOk};
ghost use Rattle.site_disk.specs.Causes.{HasCause};
ghost use Rattle.site_disk.specs.Images.{IsSynced, Leaves, OnlyAfter};
ghost use Rattle.site_disk.specs.Ledger.{MayUse, Uses};
ghost use Rattle.site_disk.specs.Seen.{seen};
ghost use Rattle.log_history.specs.History.{History};
ghost use Rattle.txn_table.specs.Table.{change_of};
ghost use Rattle.backup_lines.specs.declared.lanes.LaneState.{LaneState as StateView};
ghost use Rattle.lane_ways.specs.Pictures.{Stand};
ghost use Rattle.lane_ways.specs.Ways.{lane_pages};
ghost use Rattle.lane_advance.specs.Advances.{Leads, MayAdvance};
ghost use Rattle.lane_advance.specs.Places.{place_in, with_place};
ghost use Rattle.space_lane.specs.Steps.{StepsTo};

use crate::lane::Lane;
use lane_advance::{advance, advance_step, place_in, with_place};
use site_disk::{Disk, Era, Failed};
use txn_table::Change;

// Whether a place isn't the position.
fn is_short(place: (u64, u32), to: u64) -> bool
    ensures there { result ≡ false → (place.0 ≡ to) × (place.1 ≡ 0) }
    ensures short { (place.0 ≡ to) × (place.1 ≡ 0) → result ≡ false }
{
    place.0 != to || place.1 != 0
}

impl<D: Disk> Lane<D> {
    ghost use Rattle.space_lane.specs.Lanes.{disk_of, space_of, count_of, state_of, IsMade, IsOpen, Agrees, Stands};

    /// Brings the pages forward by changes, until the lane stands at a position.
    ///
    /// The changes may be of all spaces, and may begin before the lane's place. A lane that was emptied or merges images stays
    /// as it is, and so does one that stands at the position already.
    pub fn advance(&mut self, era: &Era, to: u64, changes: &[Change]) -> Result<(), Failed>
        requires era { MayUse era.now (D.ledger (disk_of self.old)) }
        requires opened { IsOpen self.old }
        requires to { to ≤ 2 ^ 48 }

        ensures made { IsMade self.new }
        ensures space { space_of self.new ≡ space_of self.old }
        ensures count { count_of self.new ≡ count_of self.old }
        ensures opened { OnOk result (IsOpen self.new) }
        ensures state { OnOk result (state_of self.new ≡ with_place (state_of self.old) to 0) }

        ensures stands { IsTrue D.is_modelled → (history : History) (n site count upto part : ℕ) (state : StateView)
            → place_in state ≡ Some (record { upto = upto; part = part })
            → Leads history n (space_of self.old) count to upto part (map change_of changes.now)
            → Stands site count state (seen D.Disk (disk_of self.old)) self.old
            → Stand (space_of self.old) 0 (lane_pages history n (space_of self.old) upto part count) (D.bytes (disk_of self.old))
            → OnOk result (Stands site count (with_place state to 0) (seen D.Disk (disk_of self.new)) self.new) }
        ensures pages { IsTrue D.is_modelled → (history : History) (n site count upto part : ℕ) (state : StateView)
            → place_in state ≡ Some (record { upto = upto; part = part })
            → Leads history n (space_of self.old) count to upto part (map change_of changes.now)
            → Stands site count state (seen D.Disk (disk_of self.old)) self.old
            → Stand (space_of self.old) 0 (lane_pages history n (space_of self.old) upto part count) (D.bytes (disk_of self.old))
            → OnOk result (Stand (space_of self.old) 0 (lane_pages history n (space_of self.old) to 0 count) (D.bytes (disk_of self.new))) }
        // A place on the way that isn't before the first one, with its pages.
        ensures crash { IsTrue D.is_modelled → (history : History) (n site count upto part : ℕ) (state : StateView)
            → place_in state ≡ Some (record { upto = upto; part = part })
            → Leads history n (space_of self.old) count to upto part (map change_of changes.now)
            → Stands site count state (seen D.Disk (disk_of self.old)) self.old
            → Stand (space_of self.old) 0 (lane_pages history n (space_of self.old) upto part count) (D.bytes (disk_of self.old))
            → Leaves era.now.number (MayAdvance history n (space_of self.old) count state upto part (D.bytes (disk_of self.old)))
            (D.image (disk_of self.old)) (D.image (disk_of self.new)) }
        ensures durable { IsTrue D.is_modelled → IsSynced (seen D.Disk (disk_of self.old))
            → OnOk result (OnlyAfter era.now.number (D.bytes (disk_of self.new)) (D.image (disk_of self.new))) }
        ensures nothing { place_in (state_of self.old) ≡ Some (record { upto = to; part = 0 }) → disk_of self.new ≡ disk_of self.old }
        ensures nowhere { place_in (state_of self.old) ≡ None → self.new ≡ self.old }

        ensures ledger { Uses era.now (131074 * (length changes.now + 2)) ((295683 + 4096 * count_of self.old) * (length changes.now + 2))
            (D.ledger (disk_of self.old)) (D.ledger (disk_of self.new)) }
        ensures bound { IsTrue D.is_modelled → (site count : ℕ) (state : StateView)
            → Agrees site count state (D.bytes (disk_of self.old)) self.old
            → (D.ledger (disk_of self.new)).written ≤ (D.ledger (disk_of self.old)).written + 135427 * (length changes.now + 1) + 259 }
        ensures cause { HasCause (D.ledger (disk_of self.old)).faults (D.ledger (disk_of self.new)).faults result }
    {
        let Some(from) = place_in(&self.state) else {
            return Ok(());
        };
        advance(
            &mut self.disk,
            era,
            &mut self.images,
            &mut self.mark,
            self.space,
            self.pages,
            &self.state,
            from,
            to,
            changes,
        )?;
        self.state = with_place(&self.state, to, 0);
        Ok(())
    }

    /// One step of what `advance` does, of at most 16 pages, or its last move, which takes the mark to the position. It answers whether the
    /// lane stands short of the position still.
    ///
    /// A lane that was emptied or merges images stays as it is, and so does one that stands at the position already.
    pub fn advance_one(&mut self, era: &Era, to: u64, changes: &[Change]) -> Result<bool, Failed>
        requires era { MayUse era.now (D.ledger (disk_of self.old)) }
        requires opened { IsOpen self.old }
        requires to { to ≤ 2 ^ 48 }

        ensures made { IsMade self.new }
        ensures space { space_of self.new ≡ space_of self.old }
        ensures count { count_of self.new ≡ count_of self.old }
        ensures opened { OnOk result (IsOpen self.new) }

        // It comes to the position, or to another place that isn't before the first one; the changes lead on from there.
        ensures goes { (history : History) (n upto part : ℕ) → place_in (state_of self.old) ≡ Some (record { upto = upto; part = part })
            → Leads history n (space_of self.old) (count_of self.old) to upto part (map change_of changes.now)
            → IfOk result (λ more. StepsTo history n (space_of self.old) (count_of self.old) to upto part (map change_of changes.now)
            (state_of self.old) (state_of self.new) more) }
        ensures stands { IsTrue D.is_modelled → (history : History) (n site count upto part : ℕ) (state : StateView)
            → place_in state ≡ Some (record { upto = upto; part = part })
            → Leads history n (space_of self.old) count to upto part (map change_of changes.now)
            → Stands site count state (seen D.Disk (disk_of self.old)) self.old
            → Stand (space_of self.old) 0 (lane_pages history n (space_of self.old) upto part count) (D.bytes (disk_of self.old))
            → OnOk result (Stands site count (state_of self.new) (seen D.Disk (disk_of self.new)) self.new) }
        ensures pages { IsTrue D.is_modelled → (history : History) (n site count upto part further more : ℕ) (state : StateView)
            → place_in state ≡ Some (record { upto = upto; part = part })
            → Leads history n (space_of self.old) count to upto part (map change_of changes.now)
            → Stands site count state (seen D.Disk (disk_of self.old)) self.old
            → Stand (space_of self.old) 0 (lane_pages history n (space_of self.old) upto part count) (D.bytes (disk_of self.old))
            → place_in (state_of self.new) ≡ Some (record { upto = further; part = more })
            → OnOk result (Stand (space_of self.old) 0 (lane_pages history n (space_of self.old) further more count) (D.bytes (disk_of self.new))) }
        ensures crash { IsTrue D.is_modelled → (history : History) (n site count upto part : ℕ) (state : StateView)
            → place_in state ≡ Some (record { upto = upto; part = part })
            → Leads history n (space_of self.old) count to upto part (map change_of changes.now)
            → Stands site count state (seen D.Disk (disk_of self.old)) self.old
            → Stand (space_of self.old) 0 (lane_pages history n (space_of self.old) upto part count) (D.bytes (disk_of self.old))
            → Leaves era.now.number (MayAdvance history n (space_of self.old) count state upto part (D.bytes (disk_of self.old)))
            (D.image (disk_of self.old)) (D.image (disk_of self.new)) }
        ensures durable { IsTrue D.is_modelled → IsSynced (seen D.Disk (disk_of self.old))
            → OnOk result (OnlyAfter era.now.number (D.bytes (disk_of self.new)) (D.image (disk_of self.new))) }
        ensures nowhere { place_in (state_of self.old) ≡ None → self.new ≡ self.old }

        ensures ledger { Uses era.now 131076 (308742 + 4096 * count_of self.old) (D.ledger (disk_of self.old)) (D.ledger (disk_of self.new)) }
        ensures bound { IsTrue D.is_modelled → (site count : ℕ) (state : StateView)
            → Agrees site count state (D.bytes (disk_of self.old)) self.old
            → (D.ledger (disk_of self.new)).written ≤ (D.ledger (disk_of self.old)).written + 135686 }
        ensures cause { HasCause (D.ledger (disk_of self.old)).faults (D.ledger (disk_of self.new)).faults result }
    {
        let Some(from) = place_in(&self.state) else {
            return Ok(false);
        };
        let place = advance_step(
            &mut self.disk,
            era,
            &mut self.images,
            &mut self.mark,
            self.space,
            self.pages,
            &self.state,
            from,
            to,
            changes,
        )?;
        let more = is_short(place, to);
        self.state = with_place(&self.state, place.0, place.1);
        Ok(more)
    }
}
