//! How records come into the log: room is made for them where the current file can't take them.
ghost use Rattle.std.specs.Prelude.{◌≡◌, ◌+◌, ◌*◌, ◌-◌, ◌<◌, ◌≤◌, ◌^◌, List, ℕ, true, false, length, IsTrue, IfErr, IsErrOf, OnOk};
ghost use Rattle.std.specs.List.{AllByRecursion};
ghost use Rattle.log_history.specs.History.{History};
ghost use Rattle.log_record.specs.Entry.{history_of};
ghost use Rattle.log_record.specs.Layout.{IsRecord};
ghost use Rattle.site_disk.specs.Ledger.{MayUse, Spends};
ghost use Rattle.log_files.specs.Files.{LogFiles, appended, end_of, is_reset, with_next, with_place};
ghost use Rattle.log_files.specs.Rooms.{HasNext, HasRoom};
ghost use Rattle.walks.specs.Courses.{make};
ghost use Rattle.site_courses.specs.Appending.{append_course, fits, wants_next};
ghost use Rattle.log_files.specs.declared.room.LogFull.{LogFull as FullView};
ghost use Rattle.site_disk.specs.Causes.{Rose};
ghost use Rattle.site_layouts.specs.Stages.{site_stage};
ghost use Rattle.site_model.specs.declared.disk_name.DiskName.{DiskName as DiskNameView};
ghost use Rattle.site_core.specs.Batches.{IsAppendFault, MayAppend};
ghost use Rattle.site_core.specs.Checkpoints.{IsCheckpointFault, TakesBehindDrop};
ghost use Rattle.site_core.specs.Made.{IsMadeSite};
ghost use Rattle.site_lanes.specs.Lanes.{SameFrom};
ghost use Rattle.site_core.specs.Disks.{MayUseAll, faults_on};
ghost use Rattle.site_core.specs.Opened.{IsOpenSite};
ghost use Rattle.site_core.specs.Appending.{MayMake, TakesBatch, batch_moves, next_batch_moves, next_moves};
ghost use Rattle.site_core.specs.Calls.{CallFrom};
ghost use Rattle.site_core.specs.Faults.{FailsOnLog, fault_of};

use crate::{Site, SiteFault};
use log_files::Room;
use log_record::Record;
use site_disk::{Disk, Era};
use site_headers::SiteHead;
use site_model::DiskName;
use std::alloc::Global;

impl<D: Disk> Site<D> {
    ghost use Rattle.logical_log.specs.Rings.{IsMade, IsOpen, TellsOf, disk_of};
    ghost use Rattle.site_core.specs.Layers.{layers};

    /// Appends a batch of records that the current file takes. Each image of the log's disk has the whole batch or nothing of it.
    ///
    /// It begins a new era where it ended well.
    pub fn put_batch(&mut self, era: &mut Era, batch: &[Record]) -> Result<(), SiteFault>
        requires era { MayUse era.old (D.ledger (disk_of self.old.log)) }
        requires left { era.old.number < 2 ^ 64 - 1 }
        requires opened { IsOpen self.old.log }
        requires some { 1 ≤ length batch.now }
        requires records { AllByRecursion IsRecord (history_of batch.now) }
        requires plain { AllByRecursion (λ entry. is_reset entry ≡ false) (history_of batch.now) }
        requires room { (files : LogFiles) → TellsOf files self.old.log → HasRoom (length batch.now) files }

        // From each fit site from which the batch may be appended it does that alone.
        ensures appends { IsTrue D.is_modelled → CallFrom (site_stage (layers D.Disk)) (MayMake (batch_moves (history_of batch.now))) 2
            era.old.number era.new.number self.old self.new (λ site. make (batch_moves (history_of batch.now) site)) (fault_of result) }
        ensures cause { IfErr result (FailsOnLog (D.ledger (disk_of self.old.log)).faults (D.ledger (disk_of self.new.log)).faults) }

        // Nothing but the log's value is another, and what that tells of has the batch behind it.
        ensures others { self.new ≡ record self.old { log = self.new.log } }
        ensures made { IsMade self.new.log }
        ensures opened { OnOk result (IsOpen self.new.log) }
        ensures told { (files : LogFiles) → TellsOf files self.old.log → OnOk result (TellsOf (appended files (history_of batch.now)) self.new.log) }
        ensures ledger { Spends era.old era.new 0 (272385 + 128 * length batch.now) (D.ledger (disk_of self.old.log)) (D.ledger (disk_of self.new.log)) }
        ensures eras { era.new.number ≤ era.old.number + 1 }
    {
        self.log.append(era, batch)?;
        era.next();
        Ok(())
    }

    /// Makes the next file the current one, and drops the oldest file where eight are held.
    ///
    /// That no lane needs the dropped file is for the caller to see to. It begins a new era where it ended well.
    pub fn open_next_file(&mut self, era: &mut Era) -> Result<(), SiteFault>
        requires era { MayUse era.old (D.ledger (disk_of self.old.log)) }
        requires left { era.old.number < 2 ^ 64 - 1 }
        requires opened { IsOpen self.old.log }
        requires next { (files : LogFiles) → TellsOf files self.old.log → HasNext files }

        // From each fit site from which these moves may be made it makes them alone.
        ensures opens { IsTrue D.is_modelled → CallFrom (site_stage (layers D.Disk)) (MayMake next_moves) 2
            era.old.number era.new.number self.old self.new (λ site. make (next_moves site)) (fault_of result) }
        ensures cause { IfErr result (FailsOnLog (D.ledger (disk_of self.old.log)).faults (D.ledger (disk_of self.new.log)).faults) }

        // Nothing but the log's value is another, and the files that it tells of have the next one.
        ensures others { self.new ≡ record self.old { log = self.new.log } }
        ensures made { IsMade self.new.log }
        ensures opened { OnOk result (IsOpen self.new.log) }
        ensures told { (files : LogFiles) → TellsOf files self.old.log → OnOk result (TellsOf (with_next (with_place files)) self.new.log) }
        ensures ledger { Spends era.old era.new 2 249348 (D.ledger (disk_of self.old.log)) (D.ledger (disk_of self.new.log)) }
        ensures eras { era.new.number ≤ era.old.number + 1 }
    {
        match self.log.open_next(era) {
            Ok(()) => {
                era.next();
                Ok(())
            }
            Err(_) => Err(SiteFault::DiskFault(DiskName::Log)),
        }
    }

    // Makes the next file the current one, and appends a batch to it.
    pub(crate) fn put_in_next(&mut self, era: &mut Era, batch: &[Record]) -> Result<(), SiteFault>
        requires era { MayUse era.old (D.ledger (disk_of self.old.log)) }
        requires left { era.old.number + 1 < 2 ^ 64 - 1 }
        requires opened { IsOpen self.old.log }
        requires some { 1 ≤ length batch.now }
        requires few { length batch.now ≤ 256 }
        requires records { AllByRecursion IsRecord (history_of batch.now) }
        requires plain { AllByRecursion (λ entry. is_reset entry ≡ false) (history_of batch.now) }
        requires next { (files : LogFiles) → TellsOf files self.old.log → HasNext files }
        requires positions { (files : LogFiles) → TellsOf files self.old.log → end_of files + length batch.now ≤ 2 ^ 48 }

        // From each fit site from which these moves may be made one after another it makes them alone.
        ensures appends { IsTrue D.is_modelled → CallFrom (site_stage (layers D.Disk)) (MayMake (next_batch_moves (history_of batch.now))) 2
            era.old.number era.new.number self.old self.new (λ site. make (next_batch_moves (history_of batch.now) site)) (fault_of result) }
        ensures cause { IfErr result (FailsOnLog (D.ledger (disk_of self.old.log)).faults (D.ledger (disk_of self.new.log)).faults) }

        ensures others { self.new ≡ record self.old { log = self.new.log } }
        ensures made { IsMade self.new.log }
        ensures opened { OnOk result (IsOpen self.new.log) }
        ensures told { (files : LogFiles) → TellsOf files self.old.log
            → OnOk result (TellsOf (appended (with_next (with_place files)) (history_of batch.now)) self.new.log) }
        ensures ledger { Spends era.old era.new 2 (521733 + 128 * length batch.now) (D.ledger (disk_of self.old.log)) (D.ledger (disk_of self.new.log)) }
        ensures eras { era.new.number ≤ era.old.number + 2 }
    {
        self.open_next_file(era)?;
        self.put_batch(era, batch)
    }

    // Appends a batch for which the log's answer was `Fits`.
    pub(crate) fn append_fitting(
        &mut self,
        era: &mut Era,
        batch: &[Record],
    ) -> Result<(), SiteFault>
        requires era { MayUse era.old (D.ledger (disk_of self.old.log)) }
        requires left { era.old.number < 2 ^ 64 - 1 }
        requires opened { IsOpen self.old.log }
        requires some { 1 ≤ length batch.now }
        requires records { AllByRecursion IsRecord (history_of batch.now) }
        requires plain { AllByRecursion (λ entry. is_reset entry ≡ false) (history_of batch.now) }
        requires room { (files : LogFiles) → TellsOf files self.old.log → HasRoom (length batch.now) files }

        ensures appends { IsTrue D.is_modelled → CallFrom (site_stage (layers D.Disk)) (TakesBatch fits (history_of batch.now)) 2
            era.old.number era.new.number self.old self.new (append_course (history_of batch.now)) (fault_of result) }
        ensures cause { IfErr result (FailsOnLog (D.ledger (disk_of self.old.log)).faults (D.ledger (disk_of self.new.log)).faults) }

        ensures others { self.new ≡ record self.old { log = self.new.log } }
        ensures made { IsMade self.new.log }
        ensures opened { OnOk result (IsOpen self.new.log) }
        ensures told { (files : LogFiles) → TellsOf files self.old.log → OnOk result (TellsOf (appended files (history_of batch.now)) self.new.log) }
        ensures ledger { Spends era.old era.new 0 (272385 + 128 * length batch.now) (D.ledger (disk_of self.old.log)) (D.ledger (disk_of self.new.log)) }
        ensures eras { era.new.number ≤ era.old.number + 1 }
    {
        self.put_batch(era, batch)
    }

    // Appends a batch for which the log's answer was `Next`, with no file to be dropped.
    pub(crate) fn append_to_next(
        &mut self,
        era: &mut Era,
        batch: &[Record],
    ) -> Result<(), SiteFault>
        requires era { MayUse era.old (D.ledger (disk_of self.old.log)) }
        requires left { era.old.number + 1 < 2 ^ 64 - 1 }
        requires opened { IsOpen self.old.log }
        requires some { 1 ≤ length batch.now }
        requires few { length batch.now ≤ 256 }
        requires records { AllByRecursion IsRecord (history_of batch.now) }
        requires plain { AllByRecursion (λ entry. is_reset entry ≡ false) (history_of batch.now) }
        requires next { (files : LogFiles) → TellsOf files self.old.log → HasNext files }
        requires positions { (files : LogFiles) → TellsOf files self.old.log → end_of files + length batch.now ≤ 2 ^ 48 }

        ensures appends { IsTrue D.is_modelled → CallFrom (site_stage (layers D.Disk)) (TakesBatch wants_next (history_of batch.now)) 2
            era.old.number era.new.number self.old self.new (append_course (history_of batch.now)) (fault_of result) }
        ensures cause { IfErr result (FailsOnLog (D.ledger (disk_of self.old.log)).faults (D.ledger (disk_of self.new.log)).faults) }

        ensures others { self.new ≡ record self.old { log = self.new.log } }
        ensures made { IsMade self.new.log }
        ensures opened { OnOk result (IsOpen self.new.log) }
        ensures told { (files : LogFiles) → TellsOf files self.old.log
            → OnOk result (TellsOf (appended (with_next (with_place files)) (history_of batch.now)) self.new.log) }
        ensures ledger { Spends era.old era.new 2 (521733 + 128 * length batch.now) (D.ledger (disk_of self.old.log)) (D.ledger (disk_of self.new.log)) }
        ensures eras { era.new.number ≤ era.old.number + 2 }
    {
        self.put_in_next(era, batch)
    }

    // Appends a batch behind the drop of the oldest file: all lanes are brought to the end of the log before.
    fn append_behind_drop(
        &mut self,
        alloc: Global,
        era: &mut Era,
        head: &SiteHead,
        batch: &[Record],
    ) -> Result<(), SiteFault>
        requires may { MayUseAll D.Disk era.old self.old }
        requires number { era.old.number < 2 ^ 64 - 8 }
        requires opened { IsOpenSite (length head.now.spaces.items) self.old }
        requires some { 1 ≤ length batch.now }
        requires few { length batch.now ≤ 32 }
        requires records { AllByRecursion IsRecord (history_of batch.now) }
        requires plain { AllByRecursion (λ entry. is_reset entry ≡ false) (history_of batch.now) }
        requires next { (files : LogFiles) → TellsOf files self.old.log → HasNext files }
        requires positions { (files : LogFiles) → TellsOf files self.old.log → end_of files + length batch.now ≤ 2 ^ 48 }

        ensures call { IsTrue D.is_modelled → CallFrom (site_stage (layers D.Disk)) (TakesBehindDrop (length head.now.spaces.items) (history_of batch.now)) 3
            era.old.number era.new.number self.old self.new (append_course (history_of batch.now)) (fault_of result) }
        ensures only { IfErr result IsCheckpointFault }
        ensures failed { (name : DiskNameView) → IsErrOf result (SiteFault.DiskFault name) → Rose (faults_on D.Disk self.old name) (faults_on D.Disk self.new name) }

        ensures opened { OnOk result (IsOpenSite (length head.now.spaces.items) self.new) }
        ensures made { IsMadeSite self.old → IsMadeSite self.new }
        ensures store { self.new.store ≡ self.old.store }
        ensures boot { self.new.boot ≡ self.old.boot }
        ensures beyond { SameFrom (length head.now.spaces.items) self.old.lanes.items self.new.lanes.items }
        ensures later { (name : DiskNameView) → faults_on D.Disk self.old name ≤ faults_on D.Disk self.new name }
        ensures may { MayUseAll D.Disk era.new self.new }
        ensures eras { (era.old.number ≤ era.new.number) × (era.new.number ≤ era.old.number + 3) }
        ensures key { era.new.key ≡ era.old.key }
    {
        self.checkpoint(alloc, era, head)?;
        self.put_in_next(era, batch)
    }

    /// Appends a batch of 1 to 32 records. Where the current file can't take them the next one is opened; where all places are
    /// held the oldest file is dropped for it, and before that all lanes are brought to the end of the log.
    ///
    /// `low` is the position of the oldest Begin that is open before the batch, and its transaction.
    pub fn append(
        &mut self,
        alloc: Global,
        era: &mut Era,
        head: &SiteHead,
        low: Option<(u64, u32)>,
        batch: &[Record],
    ) -> Result<(), SiteFault>
        requires may { MayUseAll D.Disk era.old self.old }
        requires number { era.old.number < 2 ^ 64 - 8 }
        requires opened { IsOpenSite (length head.now.spaces.items) self.old }
        requires some { 1 ≤ length batch.now }
        requires few { length batch.now ≤ 32 }
        requires records { AllByRecursion IsRecord (history_of batch.now) }
        requires plain { AllByRecursion (λ entry. is_reset entry ≡ false) (history_of batch.now) }

        // From each fit site for which the values stand, with so many spaces, and into whose log the batch may come, it does its course.
        ensures call { IsTrue D.is_modelled → CallFrom (site_stage (layers D.Disk)) (MayAppend (length head.now.spaces.items) (history_of batch.now) low) 3
            era.old.number era.new.number self.old self.new (append_course (history_of batch.now)) (fault_of result) }
        // The store, the boot file and the lanes beyond the spaces are the same values.
        ensures store { self.new.store ≡ self.old.store }
        ensures boot { self.new.boot ≡ self.old.boot }
        ensures beyond { SameFrom (length head.now.spaces.items) self.old.lanes.items self.new.lanes.items }
        ensures made { IsMadeSite self.old → IsMadeSite self.new }
        ensures opened { OnOk result (IsOpenSite (length head.now.spaces.items) self.new) }
        // Where the log is full nothing is done.
        ensures full { (why : FullView) → IsErrOf result (SiteFault.LogFull why) → (self.new ≡ self.old) × (era.new ≡ era.old) }
        ensures only { IfErr result IsAppendFault }
        ensures failed { (name : DiskNameView) → IsErrOf result (SiteFault.DiskFault name) → Rose (faults_on D.Disk self.old name) (faults_on D.Disk self.new name) }
        ensures later { (name : DiskNameView) → faults_on D.Disk self.old name ≤ faults_on D.Disk self.new name }
        ensures era { era.new.number ≤ era.old.number + 3 }
        ensures era_later { era.old.number ≤ era.new.number }
        ensures key { era.new.key ≡ era.old.key }
        ensures may { MayUseAll D.Disk era.new self.new }
    {
        match self.log.room(batch.len() as u32, low) {
            Room::Fits => self.append_fitting(era, batch),
            Room::Next { drops: None } => self.append_to_next(era, batch),
            Room::Next { drops: Some(_) } => self.append_behind_drop(alloc, era, head, batch),
            Room::Full(why) => Err(SiteFault::LogFull(why)),
        }
    }
}
