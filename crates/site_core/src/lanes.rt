//! The lanes of a site, brought to the end of the log.
ghost use Rattle.std.specs.Prelude.{◌≡◌, ◌+◌, ◌-◌, ◌<◌, ◌≤◌, ◌^◌, ◌∷◌, [], ℕ, length, map, IsTrue, OnOk, IfErr, IsErrOf};
ghost use Rattle.site_disk.specs.Causes.{Rose};
ghost use Rattle.txn_table.specs.Table.{change_of};
ghost use Rattle.walks.specs.Courses.{Does, make};
ghost use Rattle.site_lanes.specs.Advancing.{IsAdvanced};
ghost use Rattle.site_lanes.specs.Lanes.{FailsAt, OfFirst, SameFrom};
ghost use Rattle.site_model.specs.declared.disk_name.DiskName.{DiskName as DiskNameView};
ghost use Rattle.site_worlds.specs.Moves.{move_lanes};
ghost use Rattle.site_layouts.specs.Stages.{HeldSite, StandsFor, site_stage};
ghost use Rattle.site_lane_laws.specs.PhaseLaws.{goals_of};
ghost use Rattle.site_core.specs.Calls.{CallFrom};
ghost use Rattle.site_core.specs.Disks.{MayUseAll, faults_on};
ghost use Rattle.site_core.specs.Faults.{fault_of};
ghost use Rattle.site_core.specs.Going.{GoTo, FailsOnLane, HaveMoved, reading_layers};
ghost use Rattle.site_core.specs.Made.{IsMadeSite};
ghost use Rattle.site_core.specs.Opened.{IsOpenSite};

use crate::{Site, SiteFault};
use site_disk::{Disk, Era};
use site_lanes::{LanesFault, advance_lanes};
use txn_table::Change;

impl<D: Disk> Site<D> {
    ghost use Rattle.site_core.specs.Layers.{layers};

    // Brings the lanes of the first so many chunks to a position. Nothing else of the site is another.
    fn advance_all(
        &mut self,
        era: &Era,
        spaces: u16,
        to: u64,
        changes: &[Change],
    ) -> Result<(), LanesFault>
        requires may { MayUseAll D.Disk era.now self.old }
        requires opened { IsOpenSite spaces self.old }
        requires to { to ≤ 2 ^ 48 }
        ensures moved { HaveMoved D.Disk era.now spaces to (map change_of changes.now) self.old self.new }
        ensures advanced { OnOk result (OfFirst spaces (λ n was is. IsAdvanced D.Disk era.now to (map change_of changes.now) was is) self.old.lanes.items self.new.lanes.items) }
        ensures failed { IfErr result (FailsAt D.Disk spaces self.old.lanes.items self.new.lanes.items) }
    {
        advance_lanes(&mut self.lanes, era, spaces, to, changes)
    }

    /// Brings the lanes of the first so many chunks, one a space, to the end of the log, by changes that may be of all spaces.
    ///
    /// It begins a new era where it ended well.
    pub fn bring_lanes(
        &mut self,
        era: &mut Era,
        spaces: u16,
        to: u64,
        changes: &[Change],
    ) -> Result<(), SiteFault>
        requires left { era.old.number < 2 ^ 64 - 1 }
        requires may { MayUseAll D.Disk era.old self.old }
        requires opened { IsOpenSite spaces self.old }
        requires to { to ≤ 2 ^ 48 }

        // From each fit site whose lanes can go to the end by these changes, they do that alone; also where the log was read in this era.
        ensures goes { IsTrue D.is_modelled → CallFrom (site_stage (layers D.Disk)) (GoTo spaces to (map change_of changes.now)) 3
            era.old.number era.new.number self.old self.new (λ site. make (move_lanes (goals_of site) ∷ [])) (fault_of result) }
        ensures goes_on { IsTrue D.is_modelled → (opened : ℕ) (at : HeldSite) → 3 ≤ opened → StandsFor (reading_layers D.Disk) opened era.old.number self.old at
            → GoTo spaces to (map change_of changes.now) at.site
            → Does (site_stage (layers D.Disk)) opened era.old.number era.new.number self.old self.new at (make (move_lanes (goals_of at.site) ∷ [])) (fault_of result) }
        ensures cause { IfErr result (FailsOnLane D.Disk spaces self.old.lanes.items self.new.lanes.items) }
        ensures failed { (name : DiskNameView) → IsErrOf result (SiteFault.DiskFault name) → Rose (faults_on D.Disk self.old name) (faults_on D.Disk self.new name) }

        // Nothing but the values of these lanes is another.
        ensures others { self.new ≡ record self.old { lanes = self.new.lanes } }
        ensures beyond { SameFrom spaces self.old.lanes.items self.new.lanes.items }
        ensures opened { OnOk result (IsOpenSite spaces self.new) }
        ensures made { IsMadeSite self.old → IsMadeSite self.new }
        ensures later { (name : DiskNameView) → faults_on D.Disk self.old name ≤ faults_on D.Disk self.new name }
        ensures may { MayUseAll D.Disk era.new self.new }
        ensures key { era.new.key ≡ era.old.key }
        ensures eras { (era.old.number ≤ era.new.number) × (era.new.number ≤ era.old.number + 1) }
    {
        self.advance_all(era, spaces, to, changes)?;
        era.next();
        Ok(())
    }
}
