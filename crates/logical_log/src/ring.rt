//! The ring of log files.
ghost use Rattle.std.specs.Prelude.{◌≡◌, ◌⊎◌, ◌+◌, ◌-◌, ◌*◌, ◌%◌, ◌<◌, ◌≤◌, ◌^◌, ◌∷◌, [], ◌↔◌, ◌==◌, ℕ, List, true, false, length, map, IsTrue, IfOk, IfErr, OnOk, OnErr, IsErrOf, IfSome, IsNone, Option, Some, vec_len, vec_capacity};
ghost use Rattle.std.specs.List.{AllByRecursion, flat_map};
ghost use Rattle.log_history.specs.History.{History, reset};
ghost use Rattle.log_record.specs.Layout.{IsRecord, spelling};
ghost use Rattle.log_record.specs.Entry.{history_of};
ghost use Rattle.site_disk.specs.Bytes.{Same};
ghost use Rattle.site_disk.specs.Causes.{HasCause, Rose};
ghost use Rattle.site_disk.specs.Images.{Leaves, OnlyAfter, Unchanged};
ghost use Rattle.site_disk.specs.Ledger.{MayUse, Uses};
ghost use Rattle.site_disk.specs.Seen.{seen};
ghost use Rattle.log_files.specs.Files.{LogFiles, AreFiles, end_of, last_time_in, records_of, spans_of, closed_id, is_reset, new_files, appended, closed, with_next, with_backed, with_place, without_oldest, AreSaved, with_empty, passed_to_head};
ghost use Rattle.log_files.specs.Ring.{HoldsRing, MayPass};
ghost use Rattle.log_files.specs.declared.faults.LogFault.{LogFault as LogFaultView};
ghost use Rattle.log_files.specs.Rooms.{HasRoom, HasNext, room_of};
ghost use Rattle.log_files.specs.Views.{spans_in};
ghost use Rattle.log_files.specs.Answers.{IsFailure, FailsOn};
ghost use Rattle.log_scan.specs.Refusals.{IsDecided, IsNotLost, Refuses};
ghost use Rattle.logical_log.specs.Formats.{MayFormat};

use crate::batch::spelled;
use crate::formatting::write_empty;
use crate::places::place_in;
use crate::writing::{append_bytes, store_record};
use backup_lines::FileSpan;
use gated_slots::{Slots, header_open};
use log_files::{HeldFiles, LogFault, MARK_AT, Room, slots_of};
use log_record::Record;
use log_scan::{read_file, read_ring};
use site_disk::{Disk, Era, Failed};
use site_headers::write_log_header;
use std::alloc::Global;
use twin_mark::Mark;

/// The log over its disk.
#[derive(Drop)]
pub struct LogRing<D> {
    pub(crate) disk: D,
    pub(crate) alloc: Global,
    pub(crate) mark: Mark,
    pub(crate) slots: Slots,
    pub(crate) held: HeldFiles,
}

impl<D: Disk> LogRing<D> {
    ghost use Rattle.logical_log.specs.Rings.{disk_of, with_disk, IsMade, TellsOf, IsOpen, Stands, IsAsItWas};

    /// The log over its disk. It is closed.
    pub fn new(alloc: Global, disk: D) -> LogRing<D>
        ensures disk { disk_of result ≡ disk }
        ensures made { IsMade result }
    {
        LogRing {
            disk,
            alloc,
            mark: Mark::new(MARK_AT),
            slots: slots_of(1),
            held: HeldFiles::new(alloc, 1, 1, 0),
        }
    }

    /// Its disk.
    pub fn into_disk(self) -> D
        ensures { result ≡ disk_of self }
    {
        self.disk
    }

    /// Syncs the disk. The value and what a read gives stay.
    pub fn sync(&mut self, era: &Era) -> Result<(), Failed>
        requires { MayUse era.now (D.ledger (disk_of self.old)) }
        ensures value { self.new ≡ with_disk self.old (disk_of self.new) }
        ensures made { IsMade self.old → IsMade self.new }
        ensures opened { IsOpen self.old → OnOk result (IsOpen self.new) }
        ensures told { (files : LogFiles) → TellsOf files self.old → OnOk result (TellsOf files self.new) }
        ensures bytes { OnOk result (D.bytes (disk_of self.new) ≡ D.bytes (disk_of self.old)) }
        ensures stands { IsTrue D.is_modelled → (site : ℕ) (files : LogFiles) → Stands site files (seen D.Disk (disk_of self.old)) self.old
            → OnOk result (Stands site files (seen D.Disk (disk_of self.new)) self.new) }
        ensures synced { OnOk result ((D.ledger (disk_of self.new)).synced ≡ era.now.number) }
        ensures durable { IsTrue D.is_modelled
            → OnOk result (OnlyAfter era.now.number (D.bytes (disk_of self.new)) (D.image (disk_of self.new))) }
        ensures crash { Leaves era.now.number Same (D.image (disk_of self.old)) (D.image (disk_of self.new)) }
        ensures ledger { Uses era.now 0 0 (D.ledger (disk_of self.old)) (D.ledger (disk_of self.new)) }
        ensures cause { HasCause (D.ledger (disk_of self.old)).faults (D.ledger (disk_of self.new)).faults result }
    {
        self.disk.sync(era)
    }

    /// Writes the log of a site anew: one empty file, which is open, behind the history up to `first - 1`, whose last Commit
    /// or Reset has this time. Those before it count as backed up.
    ///
    /// The header is closed first, then the file's gates and the mark are written, and the header is opened last.
    pub fn format(
        &mut self,
        era: &Era,
        site: u64,
        file: u64,
        first: u64,
        time: u64,
    ) -> Result<(), Failed>
        requires era { MayUse era.now (D.ledger (disk_of self.old)) }
        requires made { IsMade self.old }
        requires some { 1 ≤ file }
        requires within { file ≤ first }
        requires first { first ≤ 2 ^ 48 }
        requires time { time ≤ 2 ^ 48 }

        ensures made { IsMade self.new }
        ensures opened { OnOk result (IsOpen self.new) }
        ensures told { OnOk result (TellsOf (new_files file first time) self.new) }
        ensures stands { IsTrue D.is_modelled → OnOk result (Stands site (new_files file first time) (seen D.Disk (disk_of self.new)) self.new) }
        ensures durable { IsTrue D.is_modelled
            → OnOk result (OnlyAfter era.now.number (D.bytes (disk_of self.new)) (D.image (disk_of self.new))) }
        // No log, the one from before, or the new one whole.
        ensures crash { IsTrue D.is_modelled → Leaves era.now.number (MayFormat site (new_files file first time))
            (D.image (disk_of self.old)) (D.image (disk_of self.new)) }
        ensures ledger { Uses era.now 1 248834 (D.ledger (disk_of self.old)) (D.ledger (disk_of self.new)) }
        ensures cause { HasCause (D.ledger (disk_of self.old)).faults (D.ledger (disk_of self.new)).faults result }
    {
        let mut page = [0; 4096];
        write_log_header(site, &mut page);
        let held = HeldFiles::new(self.alloc, file, first, time);
        let mut slots = slots_of(file);
        write_empty(&mut self.disk, era, &mut slots, &mut self.mark, &held)?;
        header_open(&mut self.disk, era, &page)?;
        self.slots = slots;
        self.held = held;
        Ok(())
    }

    /// Reads the log of a site, after a sync: its header, then the mark and the gates of the files held, then their slots used
    /// in order of file, each once and those of a file in one read.
    ///
    /// `LogLost`: the header isn't a valid one of the site. `BadRecord`: the mark isn't in the grammar, with what the gates
    /// say of the files that it names, or this slot is the first one that isn't.
    pub fn open(&mut self, era: &Era, site: u64) -> Result<(), LogFault>
        requires era { MayUse era.now (D.ledger (disk_of self.old)) }
        requires made { IsMade self.old }

        ensures made { IsMade self.new }
        ensures opened { OnOk result (IsOpen self.new) }
        ensures stands { IsTrue D.is_modelled → OnOk result ((files : LogFiles) × Stands site files (seen D.Disk (disk_of self.new)) self.new) }
        ensures durable { IsTrue D.is_modelled
            → OnOk result (OnlyAfter era.now.number (D.bytes (disk_of self.new)) (D.image (disk_of self.new))) }

        // Opened where the disk holds files, and then with these; refused where its bytes refuse, and then by that fault.
        ensures holds { IsTrue D.is_modelled → (files : LogFiles) → HoldsRing site files (D.bytes (disk_of self.old))
            → OnOk result (Stands site files (seen D.Disk (disk_of self.new)) self.new) × IfErr result IsFailure }
        ensures refuses { IsTrue D.is_modelled → (fault : LogFaultView) → Refuses site (D.bytes (disk_of self.old)) fault
            → OnOk result ⊥ × IfErr result (λ other. IsFailure other ⊎ (other ≡ fault)) }
        ensures refused { IsTrue D.is_modelled → IfErr result (λ fault. IsFailure fault ⊎ Refuses site (D.bytes (disk_of self.old)) fault) }
        ensures failed { IfErr result (FailsOn (D.ledger (disk_of self.old)).faults (D.ledger (disk_of self.new)).faults) }

        // Nothing is written, and without Ok the value stays as it was.
        ensures value { OnErr result (self.new ≡ with_disk self.old (disk_of self.new)) }
        ensures bytes { OnOk result (D.bytes (disk_of self.new) ≡ D.bytes (disk_of self.old)) }
        ensures kept { IfErr result (λ fault. IsDecided fault → D.bytes (disk_of self.new) ≡ D.bytes (disk_of self.old)) }
        ensures crash { Leaves era.now.number Same (D.image (disk_of self.old)) (D.image (disk_of self.new)) }
        ensures ledger { Uses era.now 269056 0 (D.ledger (disk_of self.old)) (D.ledger (disk_of self.new)) }
    {
        let found = read_ring(self.alloc, &mut self.disk, era, site)?;
        self.mark = found.mark;
        self.slots = found.slots;
        self.held = found.held;
        Ok(())
    }

    /// The records of a file, read now and in one read. None where no such file is held.
    pub fn records(&mut self, era: &Era, file: u64) -> Result<Vec<Record>, LogFault>
        requires era { MayUse era.now (D.ledger (disk_of self.old)) }
        requires opened { IsOpen self.old }

        ensures opened { OnOk result (IsOpen self.new) }
        ensures told { (files : LogFiles) → TellsOf files self.old → TellsOf files self.new }
        ensures counted { (files : LogFiles) → TellsOf files self.old → IfOk result (λ records. length records.items ≡ length (records_of files file)) }
        ensures records { IsTrue D.is_modelled → (site : ℕ) (files : LogFiles) → Stands site files (seen D.Disk (disk_of self.old)) self.old
            → IfOk result (λ records. history_of records.items ≡ records_of files file) }
        ensures stands { IsTrue D.is_modelled → (site : ℕ) (files : LogFiles) → Stands site files (seen D.Disk (disk_of self.old)) self.old
            → OnOk result (Stands site files (seen D.Disk (disk_of self.new)) self.new) }
        // A slot that isn't in the grammar now, which never comes where the log stands on a disk that tells its bytes.
        ensures not_lost { IfErr result IsNotLost }
        ensures sound { IsTrue D.is_modelled → (site : ℕ) (files : LogFiles) → Stands site files (seen D.Disk (disk_of self.old)) self.old
            → IfErr result IsFailure }
        ensures failed { IfErr result (FailsOn (D.ledger (disk_of self.old)).faults (D.ledger (disk_of self.new)).faults) }

        // Nothing is written, and the value stays.
        ensures value { self.new ≡ with_disk self.old (disk_of self.new) }
        ensures bytes { OnOk result (D.bytes (disk_of self.new) ≡ D.bytes (disk_of self.old)) }
        ensures kept { IfErr result (λ fault. IsDecided fault → D.bytes (disk_of self.new) ≡ D.bytes (disk_of self.old)) }
        ensures images { OnOk result (Unchanged (D.image (disk_of self.old)) (D.image (disk_of self.new))) }
        ensures crash { Leaves era.now.number Same (D.image (disk_of self.old)) (D.image (disk_of self.new)) }
        ensures ledger { Uses era.now 32768 0 (D.ledger (disk_of self.old)) (D.ledger (disk_of self.new)) }
    {
        match place_in(&self.held, file) {
            Some((first, count)) => {
                read_file(self.alloc, &mut self.disk, era, file, first, count)
            }
            None => Ok(Vec::new(self.alloc)),
        }
    }

    /// End, the last position.
    pub fn end(&self) -> u64
        requires { IsOpen self.now }
        ensures { (files : LogFiles) → TellsOf files self.now → result ≡ end_of files }
    {
        self.held.end()
    }

    /// The time of the last Commit or Reset, 0 where there is none.
    pub fn last_time(&self) -> u64
        requires { IsOpen self.now }
        ensures { (files : LogFiles) → TellsOf files self.now → result ≡ last_time_in files }
    {
        self.held.time
    }

    /// The id of the last file that is backed up.
    pub fn backed_up_to(&self) -> u64
        requires { IsOpen self.now }
        ensures { (files : LogFiles) → TellsOf files self.now → result ≡ files.backed }
    {
        self.held.mark.backed_up_to
    }

    /// The first file that isn't backed up, where it is closed.
    pub fn next_to_back_up(&self) -> Option<u64>
        requires { IsOpen self.now }
        ensures file { (files : LogFiles) → TellsOf files self.now → IfSome result (λ file. (file ≡ files.backed + 1) × (file ≤ closed_id files)) }
        ensures none { (files : LogFiles) → TellsOf files self.now → IsNone result → closed_id files ≤ files.backed }
        // What `mark_backed_up` asks for.
        ensures next { (files : LogFiles) (file : ℕ) → TellsOf files self.now → result ≡ Some file → file ≡ files.backed + 1 }
        ensures closed { (files : LogFiles) (file : ℕ) → TellsOf files self.now → result ≡ Some file → file ≤ closed_id files }
    {
        let backed = self.backed_up_to();
        if backed >= self.closed_up_to() {
            return None;
        }
        Some(backed + 1)
    }

    /// Whether all records held are backed up and the current file takes no more: it is closed or empty.
    pub fn is_saved(&self) -> bool
        requires { IsOpen self.now }
        ensures whether { (files : LogFiles) → TellsOf files self.now → IsTrue result ↔ AreSaved files }
        // What `reset` asks for.
        ensures saved { (files : LogFiles) → TellsOf files self.now → IsTrue result → AreSaved files }
    {
        let mark = &self.held.mark;
        if self.held.used() == 0 {
            return mark.current - 1 <= mark.backed_up_to;
        }
        mark.is_closed && mark.backed_up_to == mark.current
    }

    /// The id of the last file that is closed.
    pub fn closed_up_to(&self) -> u64
        requires { IsOpen self.now }
        ensures { (files : LogFiles) → TellsOf files self.now → result ≡ closed_id files }
    {
        let current = self.held.mark.current;
        if self.held.mark.is_closed {
            current
        } else {
            current - 1
        }
    }

    /// The files held that have records, in order.
    pub fn files(&self) -> &[FileSpan]
        requires { IsOpen self.now }
        ensures { (files : LogFiles) → TellsOf files self.now → spans_in result.now ≡ spans_of files }
    {
        &self.held.spans
    }

    /// What a batch of so many records finds, where the oldest open Begin is at `low` and of that transaction.
    pub fn room(&self, slots: u32, low: Option<(u64, u32)>) -> Room
        requires opened { IsOpen self.now }
        requires some { 1 ≤ slots }
        requires few { slots ≤ 256 }
        ensures room { (files : LogFiles) → TellsOf files self.now → result ≡ room_of files slots low }
        // What the calls ask for that come then.
        ensures fits { (files : LogFiles) → TellsOf files self.now → result ≡ Room.Fits → HasRoom slots files }
        ensures next { (files : LogFiles) (drops : Option ℕ) → TellsOf files self.now → result ≡ Room.Next drops → HasNext files }
    {
        self.held.room(slots, low)
    }

    // Appends a batch to the current file: its bytes, then what the value tells.
    fn put_bytes(&mut self, era: &Era, batch: &[Record], bytes: &[u8]) -> Result<(), Failed>
        requires era { MayUse era.now (D.ledger (disk_of self.old)) }
        requires opened { IsOpen self.old }
        requires reserved { vec_len self.old.held.spans < vec_capacity self.old.held.spans }
        requires some { 1 ≤ length batch.now }
        requires records { AllByRecursion IsRecord (history_of batch.now) }
        requires bytes { bytes.now ≡ flat_map spelling (history_of batch.now) }
        requires room { self.old.slots.used + length batch.now ≤ 256 }
        requires positions { self.old.held.next + length batch.now ≤ 2 ^ 48 + 1 }
        requires fits { (files : LogFiles) → TellsOf files self.old → AreFiles (appended files (history_of batch.now)) }
        ensures made { IsMade self.new }
        ensures told { (files : LogFiles) → TellsOf files self.old → OnOk result (TellsOf (appended files (history_of batch.now)) self.new) }
        ensures stands { IsTrue D.is_modelled → (site : ℕ) (files : LogFiles) → Stands site files (seen D.Disk (disk_of self.old)) self.old
            → OnOk result (Stands site (appended files (history_of batch.now)) (seen D.Disk (disk_of self.new)) self.new) }
        ensures durable { IsTrue D.is_modelled
            → OnOk result (OnlyAfter era.now.number (D.bytes (disk_of self.new)) (D.image (disk_of self.new))) }
        ensures crash { IsTrue D.is_modelled → (site : ℕ) (files : LogFiles) → Stands site files (seen D.Disk (disk_of self.old)) self.old
            → Leaves era.now.number (MayPass site files (appended files (history_of batch.now) ∷ [])) (D.image (disk_of self.old)) (D.image (disk_of self.new)) }
        ensures ledger { Uses era.now 0 (272385 + 128 * length batch.now) (D.ledger (disk_of self.old)) (D.ledger (disk_of self.new)) }
        ensures bound { IsTrue D.is_modelled → (site : ℕ) (files : LogFiles) → Stands site files (seen D.Disk (disk_of self.old)) self.old
            → (D.ledger (disk_of self.new)).written ≤ (D.ledger (disk_of self.old)).written + 128 * length batch.now + 1 }
        ensures cause { HasCause (D.ledger (disk_of self.old)).faults (D.ledger (disk_of self.new)).faults result }
    {
        append_bytes(&mut self.slots, &mut self.disk, era, bytes)?;
        self.held.append(batch);
        Ok(())
    }

    // Appends a batch that the current file may hold, and answers the last position.
    fn put(&mut self, era: &Era, batch: &[Record]) -> Result<u64, LogFault>
        requires era { MayUse era.now (D.ledger (disk_of self.old)) }
        requires opened { IsOpen self.old }
        requires some { 1 ≤ length batch.now }
        requires records { AllByRecursion IsRecord (history_of batch.now) }
        requires room { self.old.slots.used + length batch.now ≤ 256 }
        requires positions { self.old.held.next + length batch.now ≤ 2 ^ 48 + 1 }
        requires fits { (files : LogFiles) → TellsOf files self.old → AreFiles (appended files (history_of batch.now)) }

        ensures made { IsMade self.new }
        ensures opened { OnOk result (IsOpen self.new) }
        // The history of the value is the old one and the batch.
        ensures told { (files : LogFiles) → TellsOf files self.old → OnOk result (TellsOf (appended files (history_of batch.now)) self.new) }
        ensures end { (files : LogFiles) → TellsOf files self.old → IfOk result (λ end. end ≡ end_of (appended files (history_of batch.now))) }
        ensures stands { IsTrue D.is_modelled → (site : ℕ) (files : LogFiles) → Stands site files (seen D.Disk (disk_of self.old)) self.old
            → OnOk result (Stands site (appended files (history_of batch.now)) (seen D.Disk (disk_of self.new)) self.new) }
        ensures durable { IsTrue D.is_modelled
            → OnOk result (OnlyAfter era.now.number (D.bytes (disk_of self.new)) (D.image (disk_of self.new))) }

        ensures only { IfErr result IsFailure }
        // Want of memory changes nothing.
        ensures starved { IsErrOf result LogFault.OutOfMemory → IsAsItWas self.old self.new }
        ensures failed { IfErr result (FailsOn (D.ledger (disk_of self.old)).faults (D.ledger (disk_of self.new)).faults) }

        ensures crash { IsTrue D.is_modelled → (site : ℕ) (files : LogFiles) → Stands site files (seen D.Disk (disk_of self.old)) self.old
            → Leaves era.now.number (MayPass site files (appended files (history_of batch.now) ∷ [])) (D.image (disk_of self.old)) (D.image (disk_of self.new)) }
        ensures ledger { Uses era.now 0 (272385 + 128 * length batch.now) (D.ledger (disk_of self.old)) (D.ledger (disk_of self.new)) }
        ensures bound { IsTrue D.is_modelled → (site : ℕ) (files : LogFiles) → Stands site files (seen D.Disk (disk_of self.old)) self.old
            → (D.ledger (disk_of self.new)).written ≤ (D.ledger (disk_of self.old)).written + 128 * length batch.now + 1 }
    {
        let bytes = spelled(self.alloc, batch)?;
        self.held.reserve()?;
        self.put_bytes(era, batch, &bytes)?;
        Ok(self.held.end())
    }

    /// Appends a batch of records to the current file, and answers the last position. Each image of the disk has the whole
    /// batch or nothing of it, and after Ok it has the batch.
    ///
    /// Two writes and two syncs. Want of memory shows before anything is written. After `Failed` the log is opened again.
    pub fn append(&mut self, era: &Era, batch: &[Record]) -> Result<u64, LogFault>
        requires era { MayUse era.now (D.ledger (disk_of self.old)) }
        requires opened { IsOpen self.old }
        requires some { 1 ≤ length batch.now }
        requires records { AllByRecursion IsRecord (history_of batch.now) }
        requires plain { AllByRecursion (λ entry. is_reset entry ≡ false) (history_of batch.now) }
        requires room { (files : LogFiles) → TellsOf files self.old → HasRoom (length batch.now) files }

        ensures made { IsMade self.new }
        ensures opened { OnOk result (IsOpen self.new) }
        // The history of the value is the old one and the batch.
        ensures told { (files : LogFiles) → TellsOf files self.old → OnOk result (TellsOf (appended files (history_of batch.now)) self.new) }
        ensures end { (files : LogFiles) → TellsOf files self.old → IfOk result (λ end. end ≡ end_of (appended files (history_of batch.now))) }
        ensures stands { IsTrue D.is_modelled → (site : ℕ) (files : LogFiles) → Stands site files (seen D.Disk (disk_of self.old)) self.old
            → OnOk result (Stands site (appended files (history_of batch.now)) (seen D.Disk (disk_of self.new)) self.new) }
        ensures durable { IsTrue D.is_modelled
            → OnOk result (OnlyAfter era.now.number (D.bytes (disk_of self.new)) (D.image (disk_of self.new))) }

        ensures only { IfErr result IsFailure }
        // Want of memory changes nothing.
        ensures starved { IsErrOf result LogFault.OutOfMemory → IsAsItWas self.old self.new }
        ensures failed { IfErr result (FailsOn (D.ledger (disk_of self.old)).faults (D.ledger (disk_of self.new)).faults) }

        ensures crash { IsTrue D.is_modelled → (site : ℕ) (files : LogFiles) → Stands site files (seen D.Disk (disk_of self.old)) self.old
            → Leaves era.now.number (MayPass site files (appended files (history_of batch.now) ∷ [])) (D.image (disk_of self.old)) (D.image (disk_of self.new)) }
        ensures ledger { Uses era.now 0 (272385 + 128 * length batch.now) (D.ledger (disk_of self.old)) (D.ledger (disk_of self.new)) }
        ensures bound { IsTrue D.is_modelled → (site : ℕ) (files : LogFiles) → Stands site files (seen D.Disk (disk_of self.old)) self.old
            → (D.ledger (disk_of self.new)).written ≤ (D.ledger (disk_of self.old)).written + 128 * length batch.now + 1 }
    {
        self.put(era, batch)
    }

    // Moves the mark past the oldest file. All places are held.
    fn drop_oldest(&mut self, era: &Era) -> Result<(), Failed>
        requires era { MayUse era.now (D.ledger (disk_of self.old)) }
        requires opened { IsOpen self.old }
        requires full { self.old.held.mark.current ≡ self.old.held.mark.oldest + 7 }
        requires backed { self.old.held.mark.oldest ≤ self.old.held.mark.backed_up_to }
        ensures made { IsMade self.new }
        ensures told { (files : LogFiles) → TellsOf files self.old → TellsOf (without_oldest files) self.new }
        ensures stands { IsTrue D.is_modelled → (site : ℕ) (files : LogFiles) → Stands site files (seen D.Disk (disk_of self.old)) self.old
            → OnOk result (Stands site (without_oldest files) (seen D.Disk (disk_of self.new)) self.new) }
        ensures durable { IsTrue D.is_modelled
            → OnOk result (OnlyAfter era.now.number (D.bytes (disk_of self.new)) (D.image (disk_of self.new))) }
        ensures crash { IsTrue D.is_modelled → (site : ℕ) (files : LogFiles) → Stands site files (seen D.Disk (disk_of self.old)) self.old
            → Leaves era.now.number (MayPass site files (without_oldest files ∷ [])) (D.image (disk_of self.old)) (D.image (disk_of self.new)) }
        ensures ledger { Uses era.now 1 4866 (D.ledger (disk_of self.old)) (D.ledger (disk_of self.new)) }
        ensures cause { HasCause (D.ledger (disk_of self.old)).faults (D.ledger (disk_of self.new)).faults result }
    {
        self.held.drop_oldest();
        store_record(&mut self.disk, era, &mut self.mark, &self.held)
    }

    // Closes the gates of the next file's place, which is free, and makes it the current one.
    fn name_next(&mut self, era: &Era) -> Result<(), Failed>
        requires era { MayUse era.now (D.ledger (disk_of self.old)) }
        requires opened { IsOpen self.old }
        requires position { self.old.held.next ≤ 2 ^ 48 }
        requires some { self.old.held.first < self.old.held.next }
        requires place { self.old.held.mark.current ≤ self.old.held.mark.oldest + 6 }
        ensures made { IsMade self.new }
        ensures told { (files : LogFiles) → TellsOf files self.old → OnOk result (TellsOf (with_next files) self.new) }
        ensures stands { IsTrue D.is_modelled → (site : ℕ) (files : LogFiles) → Stands site files (seen D.Disk (disk_of self.old)) self.old
            → OnOk result (Stands site (with_next files) (seen D.Disk (disk_of self.new)) self.new) }
        ensures durable { IsTrue D.is_modelled
            → OnOk result (OnlyAfter era.now.number (D.bytes (disk_of self.new)) (D.image (disk_of self.new))) }
        ensures crash { IsTrue D.is_modelled → (site : ℕ) (files : LogFiles) → Stands site files (seen D.Disk (disk_of self.old)) self.old
            → Leaves era.now.number (MayPass site files (with_next files ∷ [])) (D.image (disk_of self.old)) (D.image (disk_of self.new)) }
        ensures ledger { Uses era.now 1 244482 (D.ledger (disk_of self.old)) (D.ledger (disk_of self.new)) }
        ensures cause { HasCause (D.ledger (disk_of self.old)).faults (D.ledger (disk_of self.new)).faults result }
    {
        self.held.open_next();
        self.slots = slots_of(self.held.mark.current);
        self.slots.clear(&mut self.disk, era)?;
        store_record(&mut self.disk, era, &mut self.mark, &self.held)
    }

    /// Makes the next file the current one, and drops the oldest file where all places are held.
    ///
    /// The mark is moved past the dropped file, then the gates of the next file are closed, and then the mark names it. That
    /// no lane and no open transaction needs the dropped file, or that a restore is under way, is for the caller to see to.
    pub fn open_next(&mut self, era: &Era) -> Result<(), Failed>
        requires era { MayUse era.now (D.ledger (disk_of self.old)) }
        requires opened { IsOpen self.old }
        requires next { (files : LogFiles) → TellsOf files self.old → HasNext files }

        ensures made { IsMade self.new }
        ensures opened { OnOk result (IsOpen self.new) }
        ensures told { (files : LogFiles) → TellsOf files self.old → OnOk result (TellsOf (with_next (with_place files)) self.new) }
        ensures stands { IsTrue D.is_modelled → (site : ℕ) (files : LogFiles) → Stands site files (seen D.Disk (disk_of self.old)) self.old
            → OnOk result (Stands site (with_next (with_place files)) (seen D.Disk (disk_of self.new)) self.new) }
        ensures durable { IsTrue D.is_modelled
            → OnOk result (OnlyAfter era.now.number (D.bytes (disk_of self.new)) (D.image (disk_of self.new))) }
        ensures cause { HasCause (D.ledger (disk_of self.old)).faults (D.ledger (disk_of self.new)).faults result }

        // With the dropped file, without it, or with the next one too.
        ensures crash { IsTrue D.is_modelled → (site : ℕ) (files : LogFiles) → Stands site files (seen D.Disk (disk_of self.old)) self.old
            → Leaves era.now.number (MayPass site files (with_place files ∷ with_next (with_place files) ∷ []))
            (D.image (disk_of self.old)) (D.image (disk_of self.new)) }
        ensures ledger { Uses era.now 2 249348 (D.ledger (disk_of self.old)) (D.ledger (disk_of self.new)) }
    {
        if !self.held.is_full() {
            return self.name_next(era);
        }
        self.drop_oldest(era)?;
        self.name_next(era)
    }

    /// Closes the current file. False exactly where it is empty or closed already.
    pub fn close_current(&mut self, era: &Era) -> Result<bool, Failed>
        requires era { MayUse era.now (D.ledger (disk_of self.old)) }
        requires opened { IsOpen self.old }

        ensures made { IsMade self.new }
        ensures opened { OnOk result (IsOpen self.new) }
        ensures closes { (files : LogFiles) → TellsOf files self.old
            → IfOk result (λ closes. IsTrue closes ↔ ((files.is_closed ≡ false) × (1 ≤ length files.current))) }
        // It fails only where there is something to close.
        ensures errs { (files : LogFiles) → TellsOf files self.old → OnErr result ((files.is_closed ≡ false) × (1 ≤ length files.current)) }
        ensures told { (files : LogFiles) → TellsOf files self.old → IfOk result (λ closes. IsTrue closes → TellsOf (closed files) self.new) }
        ensures stands { IsTrue D.is_modelled → (site : ℕ) (files : LogFiles) → Stands site files (seen D.Disk (disk_of self.old)) self.old
            → IfOk result (λ closes. IsTrue closes → Stands site (closed files) (seen D.Disk (disk_of self.new)) self.new) }
        ensures nothing { IfOk result (λ closes. closes ≡ false → self.new ≡ self.old) }
        ensures durable { IsTrue D.is_modelled → IfOk result (λ closes. IsTrue closes
            → OnlyAfter era.now.number (D.bytes (disk_of self.new)) (D.image (disk_of self.new))) }
        ensures crash { IsTrue D.is_modelled → (site : ℕ) (files : LogFiles) → Stands site files (seen D.Disk (disk_of self.old)) self.old
            → Leaves era.now.number (MayPass site files (closed files ∷ [])) (D.image (disk_of self.old)) (D.image (disk_of self.new)) }
        ensures ledger { Uses era.now 1 4866 (D.ledger (disk_of self.old)) (D.ledger (disk_of self.new)) }
        ensures cause { HasCause (D.ledger (disk_of self.old)).faults (D.ledger (disk_of self.new)).faults result }
    {
        if self.held.mark.is_closed || self.held.used() == 0 {
            return Ok(false);
        }
        self.held.close();
        store_record(&mut self.disk, era, &mut self.mark, &self.held)?;
        Ok(true)
    }

    /// Marks the first file that isn't backed up yet, which is closed, as backed up.
    pub fn mark_backed_up(&mut self, era: &Era, file: u64) -> Result<(), Failed>
        requires era { MayUse era.now (D.ledger (disk_of self.old)) }
        requires opened { IsOpen self.old }
        requires next { (files : LogFiles) → TellsOf files self.old → file ≡ files.backed + 1 }
        requires closed { (files : LogFiles) → TellsOf files self.old → file ≤ closed_id files }

        ensures made { IsMade self.new }
        ensures opened { OnOk result (IsOpen self.new) }
        ensures told { (files : LogFiles) → TellsOf files self.old → OnOk result (TellsOf (with_backed files file) self.new) }
        ensures stands { IsTrue D.is_modelled → (site : ℕ) (files : LogFiles) → Stands site files (seen D.Disk (disk_of self.old)) self.old
            → OnOk result (Stands site (with_backed files file) (seen D.Disk (disk_of self.new)) self.new) }
        ensures durable { IsTrue D.is_modelled
            → OnOk result (OnlyAfter era.now.number (D.bytes (disk_of self.new)) (D.image (disk_of self.new))) }
        ensures crash { IsTrue D.is_modelled → (site : ℕ) (files : LogFiles) → Stands site files (seen D.Disk (disk_of self.old)) self.old
            → Leaves era.now.number (MayPass site files (with_backed files file ∷ [])) (D.image (disk_of self.old)) (D.image (disk_of self.new)) }
        ensures ledger { Uses era.now 1 4866 (D.ledger (disk_of self.old)) (D.ledger (disk_of self.new)) }
        ensures cause { HasCause (D.ledger (disk_of self.old)).faults (D.ledger (disk_of self.new)).faults result }
    {
        self.held.back_up(file);
        store_record(&mut self.disk, era, &mut self.mark, &self.held)
    }

    /// Writes a Reset as the first record of a file, the next one where the current file has records, and answers its position.
    ///
    /// That a restore is under way is for the caller to see to.
    pub fn reset(
        &mut self,
        era: &Era,
        restore: u64,
        target: u64,
        time: u64,
    ) -> Result<u64, LogFault>
        requires era { MayUse era.now (D.ledger (disk_of self.old)) }
        requires opened { IsOpen self.old }
        requires position { (files : LogFiles) → TellsOf files self.old → end_of files < 2 ^ 48 }
        requires saved { (files : LogFiles) → TellsOf files self.old → AreSaved files }
        requires written { IsRecord (reset restore target time) }
        requires target { (files : LogFiles) → TellsOf files self.old → target ≤ end_of files }

        ensures made { IsMade self.new }
        ensures opened { OnOk result (IsOpen self.new) }
        ensures told { (files : LogFiles) → TellsOf files self.old
            → OnOk result (TellsOf (appended (with_empty files) (reset restore target time ∷ [])) self.new) }
        ensures position_is { (files : LogFiles) → TellsOf files self.old → IfOk result (λ position. position ≡ end_of files + 1) }
        ensures stands { IsTrue D.is_modelled → (site : ℕ) (files : LogFiles) → Stands site files (seen D.Disk (disk_of self.old)) self.old
            → OnOk result (Stands site (appended (with_empty files) (reset restore target time ∷ [])) (seen D.Disk (disk_of self.new)) self.new) }
        ensures durable { IsTrue D.is_modelled
            → OnOk result (OnlyAfter era.now.number (D.bytes (disk_of self.new)) (D.image (disk_of self.new))) }
        ensures only { IfErr result IsFailure }
        ensures failed { IfErr result (FailsOn (D.ledger (disk_of self.old)).faults (D.ledger (disk_of self.new)).faults) }
        ensures crash { IsTrue D.is_modelled → (site : ℕ) (files : LogFiles) → Stands site files (seen D.Disk (disk_of self.old)) self.old
            → Leaves era.now.number (MayPass site files (passed_to_head files files.current (reset restore target time)))
            (D.image (disk_of self.old)) (D.image (disk_of self.new)) }
        ensures ledger { Uses era.now 2 521861 (D.ledger (disk_of self.old)) (D.ledger (disk_of self.new)) }
    {
        let entry = [Record::Reset {
            restore,
            target,
            time,
        }];
        if self.held.used() == 0 {
            return self.put(era, &entry);
        }
        self.open_next(era)?;
        self.put(era, &entry)
    }
}
