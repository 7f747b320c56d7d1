//! All lanes at the end of the log, by what its files tell.
ghost use Rattle.std.specs.Prelude.{◌≡◌, ◌+◌, ◌-◌, ◌^◌, ◌<◌, ◌≤◌, ◌∷◌, [], length, IsTrue, IfErr, IsErrOf, OnOk};
ghost use Rattle.log_files.specs.Files.{LogFiles};
ghost use Rattle.site_disk.specs.Causes.{Rose};
ghost use Rattle.walks.specs.Courses.{make};
ghost use Rattle.site_courses.specs.Courses.{lanes_to_end};
ghost use Rattle.site_lanes.specs.Lanes.{SameFrom};
ghost use Rattle.site_lane_laws.specs.PhaseLaws.{goals_of};
ghost use Rattle.site_layouts.specs.Stages.{site_stage};
ghost use Rattle.site_model.specs.declared.disk_name.DiskName.{DiskName as DiskNameView};
ghost use Rattle.site_worlds.specs.Moves.{move_lanes};
ghost use Rattle.site_core.specs.Calls.{CallFrom};
ghost use Rattle.site_core.specs.Checkpoints.{IsCheckpointFault, MayGo};
ghost use Rattle.site_core.specs.Disks.{MayUseAll, faults_on};
ghost use Rattle.site_core.specs.Faults.{fault_of};
ghost use Rattle.site_core.specs.Made.{IsMadeSite};
ghost use Rattle.site_core.specs.Opened.{IsOpenSite};

use crate::{Site, SiteFault};
use held_log::read_changes;
use site_disk::{Disk, Era};
use site_headers::SiteHead;
use site_lanes::are_at;
use std::alloc::Global;

impl<D: Disk> Site<D> {
    ghost use Rattle.logical_log.specs.Rings.{TellsOf};
    ghost use Rattle.site_core.specs.Layers.{layers};

    // Brings the lanes of so many spaces to the end of the log, by what its files tell.
    fn bring_to_end(&mut self, alloc: Global, era: &mut Era, spaces: u16) -> Result<(), SiteFault>
        requires may { MayUseAll D.Disk era.old self.old }
        requires number { era.old.number < 2 ^ 64 - 1 }
        requires opened { IsOpenSite spaces self.old }

        ensures call { IsTrue D.is_modelled → CallFrom (site_stage (layers D.Disk)) (MayGo spaces) 3
            era.old.number era.new.number self.old self.new (λ site. make (move_lanes (goals_of site) ∷ [])) (fault_of result) }
        ensures only { IfErr result IsCheckpointFault }
        ensures failed { (name : DiskNameView) → IsErrOf result (SiteFault.DiskFault name) → Rose (faults_on D.Disk self.old name) (faults_on D.Disk self.new name) }

        ensures told { (files : LogFiles) → TellsOf files self.old.log → TellsOf files self.new.log }
        ensures opened { OnOk result (IsOpenSite spaces self.new) }
        ensures made { IsMadeSite self.old → IsMadeSite self.new }
        ensures store { self.new.store ≡ self.old.store }
        ensures boot { self.new.boot ≡ self.old.boot }
        ensures beyond { SameFrom spaces self.old.lanes.items self.new.lanes.items }
        ensures later { (name : DiskNameView) → faults_on D.Disk self.old name ≤ faults_on D.Disk self.new name }
        ensures may { MayUseAll D.Disk era.new self.new }
        ensures eras { (era.old.number ≤ era.new.number) × (era.new.number ≤ era.old.number + 1) }
        ensures key { era.new.key ≡ era.old.key }
    {
        let to = self.log.end();
        let held = read_changes(alloc, &mut self.log, era)?;
        self.bring_lanes(era, spaces, to, &held.changes)
    }

    /// Brings all lanes that stand somewhere to the end of the log. Where they are there nothing is read or written.
    ///
    /// It begins a new era where lanes were brought there.
    pub fn checkpoint(
        &mut self,
        alloc: Global,
        era: &mut Era,
        head: &SiteHead,
    ) -> Result<(), SiteFault>
        requires may { MayUseAll D.Disk era.old self.old }
        requires number { era.old.number < 2 ^ 64 - 1 }
        requires opened { IsOpenSite (length head.now.spaces.items) self.old }

        // From each fit site with so many lanes, none of them lost, its log there and no restore under way, all lanes go to the end.
        ensures call { IsTrue D.is_modelled → CallFrom (site_stage (layers D.Disk)) (MayGo (length head.now.spaces.items)) 3
            era.old.number era.new.number self.old self.new (λ site. make (lanes_to_end site)) (fault_of result) }
        ensures only { IfErr result IsCheckpointFault }
        ensures failed { (name : DiskNameView) → IsErrOf result (SiteFault.DiskFault name) → Rose (faults_on D.Disk self.old name) (faults_on D.Disk self.new name) }

        // The log tells of the same files; the store, the boot file and the lanes beyond the spaces are the same values.
        ensures told { (files : LogFiles) → TellsOf files self.old.log → TellsOf files self.new.log }
        ensures opened { OnOk result (IsOpenSite (length head.now.spaces.items) self.new) }
        ensures made { IsMadeSite self.old → IsMadeSite self.new }
        ensures store { self.new.store ≡ self.old.store }
        ensures boot { self.new.boot ≡ self.old.boot }
        ensures beyond { SameFrom (length head.now.spaces.items) self.old.lanes.items self.new.lanes.items }
        ensures later { (name : DiskNameView) → faults_on D.Disk self.old name ≤ faults_on D.Disk self.new name }
        ensures may { MayUseAll D.Disk era.new self.new }
        ensures eras { (era.old.number ≤ era.new.number) × (era.new.number ≤ era.old.number + 1) }
        ensures key { era.new.key ≡ era.old.key }
    {
        let spaces = head.spaces.len() as u16;
        if are_at(&self.lanes, spaces, self.log.end()) {
            return Ok(());
        }
        self.bring_to_end(alloc, era, spaces)
    }
}
