//! The boot file.
ghost use Rattle.std.specs.Prelude.{◌≡◌, ◌↔◌, ◌+◌, ◌*◌, ◌<◌, ◌≤◌, ◌^◌, ◌++◌, ℕ, List, [], Option, None, length, IsTrue, IfSome, IfErr, OnOk, OnErr, IsErrOf, vec_len, vec_capacity};
ghost use Rattle.std.specs.Option.{option_copied};
ghost use Rattle.std.specs.List.{AllByRecursion, flat_map};
ghost use Rattle.backup_lines.specs.Lines.{Line as LineView};
ghost use Rattle.boot_lines.specs.LineLayout.{IsLine, lines_of, spelling};
ghost use Rattle.backup_lines.specs.Spans.{Active};
ghost use Rattle.boot_lines.specs.MarkLayout.{active_in};
ghost use Rattle.site_disk.specs.Bytes.{Same};
ghost use Rattle.site_disk.specs.Causes.{HasCause};
ghost use Rattle.site_disk.specs.Images.{Leaves, OnlyAfter};
ghost use Rattle.site_disk.specs.Ledger.{MayUse, Uses};
ghost use Rattle.site_disk.specs.Seen.{seen};
ghost use Rattle.gated_slots.specs.Slots.{used};
ghost use Rattle.boot_file.specs.Places.{lines_area, HoldsBoot, MayBecome};
ghost use Rattle.boot_file.specs.Answers.{IsRefusal, IsNoFailure, IsAppendFault, IsRecordFault, FailsOn, IsBadBoot, LacksRoom, LacksNumber};
ghost use Rattle.boot_file.specs.Formats.{MayFormat};
ghost use Rattle.boot_file.specs.Numbers.{number_after, MayFollow};

use crate::BootFault;
use crate::batch::{put_behind, spelled};
use crate::formatting::write_empty;
use crate::header::write_boot_header;
use crate::places::{MARK_AT, line_slots};
use crate::reading::read_boot;
use crate::writing::{append_bytes, store_record};
use backup_lines::{Line, Restore};
use boot_lines::BootMark;
use gated_slots::{Slots, header_open};
use site_disk::{Disk, Era, Failed};
use site_headers::SLOTS;
use std::alloc::Global;
use twin_mark::Mark;

/// The greatest number of a restore.
const MAX_NUMBER: u64 = 1 << 48;

/// The boot file over its disk.
#[derive(Drop)]
pub struct Boot<D> {
    pub(crate) disk: D,
    pub(crate) alloc: Global,
    pub(crate) mark: Mark,
    pub(crate) slots: Slots,
    pub(crate) state: BootMark,
    pub(crate) lines: Vec<Line>,
}

// The last number, once this restore is the active one, or none is.
fn number_after(restore: &Option<Restore>, last_number: u64) -> u64
    ensures { result ≡ number_after last_number (active_in restore.now) }
{
    match restore {
        Some(restore) => restore.number,
        None => last_number,
    }
}

impl<D: Disk> Boot<D> {
    ghost use Rattle.boot_file.specs.Boots.{disk_of, with_disk, lines_in, number_in, restore_in, IsMade, TellsOf, IsOpen, Stands, IsAsItWas};

    /// The boot file over its disk. It is closed.
    pub fn new(alloc: Global, disk: D) -> Boot<D>
        ensures disk { disk_of result ≡ disk }
        ensures made { IsMade result }
    {
        Boot {
            disk,
            alloc,
            mark: Mark::new(MARK_AT),
            slots: line_slots(),
            state: BootMark {
                last_number: 0,
                restore: None,
            },
            lines: Vec::new(alloc),
        }
    }

    /// Its disk.
    pub fn into_disk(self) -> D
        ensures { result ≡ disk_of self }
    {
        self.disk
    }

    /// Syncs the disk. The value and what a read gives stay.
    pub fn sync(&mut self, era: &Era) -> Result<(), Failed>
        requires { MayUse era.now (D.ledger (disk_of self.old)) }
        ensures value { self.new ≡ with_disk self.old (disk_of self.new) }
        ensures bytes { OnOk result (D.bytes (disk_of self.new) ≡ D.bytes (disk_of self.old)) }
        ensures stands { IsTrue D.is_modelled → (site number : ℕ) (lines : List LineView) (active : Option Active)
            → Stands site lines number active (seen D.Disk (disk_of self.old)) self.old
            → OnOk result (Stands site lines number active (seen D.Disk (disk_of self.new)) self.new) }
        ensures synced { OnOk result ((D.ledger (disk_of self.new)).synced ≡ era.now.number) }
        ensures durable { IsTrue D.is_modelled
            → OnOk result (OnlyAfter era.now.number (D.bytes (disk_of self.new)) (D.image (disk_of self.new))) }
        ensures crash { Leaves era.now.number Same (D.image (disk_of self.old)) (D.image (disk_of self.new)) }
        ensures ledger { Uses era.now 0 0 (D.ledger (disk_of self.old)) (D.ledger (disk_of self.new)) }
        ensures cause { HasCause (D.ledger (disk_of self.old)).faults (D.ledger (disk_of self.new)).faults result }
    {
        self.disk.sync(era)
    }

    /// Writes the boot file of a site anew: no lines, and no restore so far.
    ///
    /// The header is closed first, then the gates and the mark are written, and the header is opened last.
    pub fn format(&mut self, era: &Era, site: u64) -> Result<(), Failed>
        requires era { MayUse era.now (D.ledger (disk_of self.old)) }
        requires made { IsMade self.old }

        ensures made { IsMade self.new }
        ensures opened { OnOk result (IsOpen self.new) }
        ensures told { OnOk result (TellsOf [] 0 None self.new) }
        ensures stands { IsTrue D.is_modelled → OnOk result (Stands site [] 0 None (seen D.Disk (disk_of self.new)) self.new) }
        ensures durable { IsTrue D.is_modelled
            → OnOk result (OnlyAfter era.now.number (D.bytes (disk_of self.new)) (D.image (disk_of self.new))) }
        // No boot file, the one from before, or the new one whole.
        ensures crash { IsTrue D.is_modelled → Leaves era.now.number (MayFormat site) (D.image (disk_of self.old)) (D.image (disk_of self.new)) }
        ensures ledger { Uses era.now 1 82946 (D.ledger (disk_of self.old)) (D.ledger (disk_of self.new)) }
        ensures cause { HasCause (D.ledger (disk_of self.old)).faults (D.ledger (disk_of self.new)).faults result }
    {
        let mut page = [0; 4096];
        write_boot_header(site, &mut page);
        let mut slots = line_slots();
        write_empty(&mut self.disk, era, &mut slots, &mut self.mark)?;
        header_open(&mut self.disk, era, &page)?;
        self.slots = slots;
        self.state = BootMark {
            last_number: 0,
            restore: None,
        };
        self.lines.clear();
        Ok(())
    }

    /// Reads the boot file of a site, after a sync, in one pass over the slots used.
    ///
    /// The header is looked at first, then the mark, then the slots in order, and the first that isn't as it should be is named.
    pub fn open(&mut self, era: &Era, site: u64) -> Result<(), BootFault>
        requires era { MayUse era.now (D.ledger (disk_of self.old)) }
        requires made { IsMade self.old }

        ensures made { IsMade self.new }
        ensures opened { OnOk result (IsOpen self.new) }
        // What the disk holds is what it tells.
        ensures stands { IsTrue D.is_modelled → OnOk result
            (Stands site (lines_in self.new) (number_in self.new) (restore_in self.new) (seen D.Disk (disk_of self.new)) self.new) }
        ensures held { IsTrue D.is_modelled → (lines : List LineView) (number : ℕ) (active : Option Active)
            → HoldsBoot site lines number active (D.bytes (disk_of self.old)) → OnOk result (TellsOf lines number active self.new) }

        // The first that isn't as it should be.
        ensures bad { IsTrue D.is_modelled → IfErr result (IsBadBoot site (D.bytes (disk_of self.old))) }
        ensures failed { IfErr result (FailsOn (D.ledger (disk_of self.old)).faults (D.ledger (disk_of self.new)).faults) }

        // Nothing is written, and without Ok the value stays as it was.
        ensures bytes { OnOk result (D.bytes (disk_of self.new) ≡ D.bytes (disk_of self.old)) }
        ensures refused { OnErr result (self.new ≡ with_disk self.old (disk_of self.new)) }
        ensures kept { IfErr result (λ fault. IsNoFailure fault → D.bytes (disk_of self.new) ≡ D.bytes (disk_of self.old)) }
        ensures crash { Leaves era.now.number Same (D.image (disk_of self.old)) (D.image (disk_of self.new)) }
        ensures ledger { Uses era.now 8459008 0 (D.ledger (disk_of self.old)) (D.ledger (disk_of self.new)) }
        ensures bound { IsTrue D.is_modelled → (D.ledger (disk_of self.new)).read
            ≤ (D.ledger (disk_of self.old)).read + 70400 + 128 * used lines_area (D.bytes (disk_of self.old)) }
    {
        let found = read_boot(self.alloc, &mut self.disk, era, site)?;
        self.slots = found.slots;
        self.mark = found.mark;
        self.state = found.state;
        self.lines = found.lines;
        Ok(())
    }

    /// All lines, in the order in which they were appended.
    pub fn lines(&self) -> &[Line]
        ensures { (lines : List LineView) (number : ℕ) (active : Option Active) → TellsOf lines number active self.now → lines_of result.now ≡ lines }
    {
        &self.lines
    }

    // Appends lines for which there is room on the disk and in memory: their bytes, and then what the value tells.
    fn put(&mut self, era: &Era, more: &[Line], bytes: &[u8]) -> Result<(), Failed>
        requires era { MayUse era.now (D.ledger (disk_of self.old)) }
        requires opened { IsOpen self.old }
        requires reserved { vec_len self.old.lines + length more.now ≤ vec_capacity self.old.lines }
        requires some { 1 ≤ length more.now }
        requires each { AllByRecursion IsLine (lines_of more.now) }
        requires bytes { bytes.now ≡ flat_map spelling (lines_of more.now) }
        requires room { length (lines_in self.old) + length more.now ≤ 65536 }
        ensures made { IsMade self.new }
        ensures told { (lines : List LineView) (number : ℕ) (active : Option Active) → TellsOf lines number active self.old
            → OnOk result (TellsOf (lines ++ lines_of more.now) number active self.new) }
        ensures stands { IsTrue D.is_modelled → (site number : ℕ) (lines : List LineView) (active : Option Active)
            → Stands site lines number active (seen D.Disk (disk_of self.old)) self.old
            → OnOk result (Stands site (lines ++ lines_of more.now) number active (seen D.Disk (disk_of self.new)) self.new) }
        ensures durable { IsTrue D.is_modelled
            → OnOk result (OnlyAfter era.now.number (D.bytes (disk_of self.new)) (D.image (disk_of self.new))) }
        ensures crash { IsTrue D.is_modelled → (site number : ℕ) (lines : List LineView) (active : Option Active)
            → Stands site lines number active (seen D.Disk (disk_of self.old)) self.old
            → Leaves era.now.number (MayBecome (HoldsBoot site lines number active) (HoldsBoot site (lines ++ lines_of more.now) number active))
            (D.image (disk_of self.old)) (D.image (disk_of self.new)) }
        ensures ledger { Uses era.now 0 (8462337 + 128 * length more.now) (D.ledger (disk_of self.old)) (D.ledger (disk_of self.new)) }
        ensures bound { IsTrue D.is_modelled → (site number : ℕ) (lines : List LineView) (active : Option Active)
            → Stands site lines number active (seen D.Disk (disk_of self.old)) self.old
            → (D.ledger (disk_of self.new)).written ≤ (D.ledger (disk_of self.old)).written + 128 * length more.now + 1 }
        ensures cause { HasCause (D.ledger (disk_of self.old)).faults (D.ledger (disk_of self.new)).faults result }
    {
        append_bytes(&mut self.slots, &mut self.disk, era, bytes)?;
        put_behind(&mut self.lines, more);
        Ok(())
    }

    /// Appends lines behind those that stand there, as one batch: each image of the disk has all of them or none, and after Ok
    /// it has them.
    ///
    /// Two writes and two syncs. Room is looked at first, and want of memory shows before anything is written. After `Failed` the
    /// boot file is opened again.
    pub fn append(&mut self, era: &Era, more: &[Line]) -> Result<(), BootFault>
        requires era { MayUse era.now (D.ledger (disk_of self.old)) }
        requires opened { IsOpen self.old }
        requires some { 1 ≤ length more.now }
        requires each { AllByRecursion IsLine (lines_of more.now) }

        ensures made { IsMade self.new }
        ensures opened { OnOk result (IsOpen self.new) }
        ensures told { (lines : List LineView) (number : ℕ) (active : Option Active) → TellsOf lines number active self.old
            → OnOk result (TellsOf (lines ++ lines_of more.now) number active self.new) }
        ensures stands { IsTrue D.is_modelled → (site number : ℕ) (lines : List LineView) (active : Option Active)
            → Stands site lines number active (seen D.Disk (disk_of self.old)) self.old
            → OnOk result (Stands site (lines ++ lines_of more.now) number active (seen D.Disk (disk_of self.new)) self.new) }
        ensures durable { IsTrue D.is_modelled
            → OnOk result (OnlyAfter era.now.number (D.bytes (disk_of self.new)) (D.image (disk_of self.new))) }

        ensures full { (used wanted number : ℕ) → IsErrOf result (BootFault.BootFull used wanted number)
            ↔ LacksRoom (length (lines_in self.old)) (length more.now) used wanted number }
        ensures only { IfErr result IsAppendFault }
        ensures refused { IfErr result (λ fault. IsRefusal fault → self.new ≡ self.old) }
        // Want of memory changes nothing.
        ensures starved { IsErrOf result BootFault.OutOfMemory → IsAsItWas self.old self.new }
        ensures failed { IfErr result (FailsOn (D.ledger (disk_of self.old)).faults (D.ledger (disk_of self.new)).faults) }

        ensures crash { IsTrue D.is_modelled → (site number : ℕ) (lines : List LineView) (active : Option Active)
            → Stands site lines number active (seen D.Disk (disk_of self.old)) self.old
            → Leaves era.now.number (MayBecome (HoldsBoot site lines number active) (HoldsBoot site (lines ++ lines_of more.now) number active))
            (D.image (disk_of self.old)) (D.image (disk_of self.new)) }
        ensures ledger { Uses era.now 0 (8462337 + 128 * length more.now) (D.ledger (disk_of self.old)) (D.ledger (disk_of self.new)) }
        ensures bound { IsTrue D.is_modelled → (site number : ℕ) (lines : List LineView) (active : Option Active)
            → Stands site lines number active (seen D.Disk (disk_of self.old)) self.old
            → (D.ledger (disk_of self.new)).written ≤ (D.ledger (disk_of self.old)).written + 128 * length more.now + 1 }
    {
        let used = self.slots.used();
        if more.len() > (SLOTS - used) as usize {
            let wanted = more.len().min(u32::MAX as usize) as u32;
            return Err(BootFault::BootFull {
                used,
                wanted,
                number: 0,
            });
        }
        let bytes = spelled(self.alloc, more)?;
        self.lines.reserve(more.len())?;
        Ok(self.put(era, more, &bytes)?)
    }

    /// The restore that is under way, where there is one.
    pub fn restore(&self) -> Option<&Restore>
        ensures { (lines : List LineView) (number : ℕ) (active : Option Active) → TellsOf lines number active self.now
            → active_in (option_copied result) ≡ active }
    {
        self.state.restore.as_ref()
    }

    /// The number of the last restore, 0 where there was none.
    pub fn last_number(&self) -> u64
        ensures { (lines : List LineView) (number : ℕ) (active : Option Active) → TellsOf lines number active self.now → result ≡ number }
    {
        self.state.last_number
    }

    /// Puts a restore into the place of the one that is under way, or none. Its number is the last one then; where it is none, the
    /// last number is kept. Each image of the disk has the old record or the new one, and after Ok the new one.
    ///
    /// At most three writes, a sync after each. After `Failed` the boot file is opened again.
    pub fn set_restore(&mut self, era: &Era, restore: Option<&Restore>) -> Result<(), BootFault>
        requires era { MayUse era.now (D.ledger (disk_of self.old)) }
        requires opened { IsOpen self.old }
        requires follows { IfSome (active_in (option_copied restore)) (MayFollow (number_in self.old) (restore_in self.old)) }

        ensures made { IsMade self.new }
        ensures opened { OnOk result (IsOpen self.new) }
        ensures told { (lines : List LineView) (number : ℕ) (active : Option Active) → TellsOf lines number active self.old
            → OnOk result (TellsOf lines (number_after number (active_in (option_copied restore.entry))) (active_in (option_copied restore.entry)) self.new) }
        ensures stands { IsTrue D.is_modelled → (site number : ℕ) (lines : List LineView) (active : Option Active)
            → Stands site lines number active (seen D.Disk (disk_of self.old)) self.old
            → OnOk result (Stands site lines (number_after number (active_in (option_copied restore.entry))) (active_in (option_copied restore.entry))
            (seen D.Disk (disk_of self.new)) self.new) }
        ensures durable { IsTrue D.is_modelled
            → OnOk result (OnlyAfter era.now.number (D.bytes (disk_of self.new)) (D.image (disk_of self.new))) }

        ensures full { (used wanted number : ℕ) → IsErrOf result (BootFault.BootFull used wanted number)
            ↔ LacksNumber (length (lines_in self.old)) (number_after (number_in self.old) (active_in (option_copied restore.entry))) used wanted number }
        ensures only { IfErr result IsRecordFault }
        ensures refused { IfErr result (λ fault. IsRefusal fault → self.new ≡ self.old) }
        ensures failed { IfErr result (FailsOn (D.ledger (disk_of self.old)).faults (D.ledger (disk_of self.new)).faults) }

        ensures crash { IsTrue D.is_modelled → (site number : ℕ) (lines : List LineView) (active : Option Active)
            → Stands site lines number active (seen D.Disk (disk_of self.old)) self.old
            → Leaves era.now.number (MayBecome (HoldsBoot site lines number active)
            (HoldsBoot site lines (number_after number (active_in (option_copied restore.entry))) (active_in (option_copied restore.entry))))
            (D.image (disk_of self.old)) (D.image (disk_of self.new)) }
        ensures ledger { Uses era.now 1 4866 (D.ledger (disk_of self.old)) (D.ledger (disk_of self.new)) }
        ensures bound { IsTrue D.is_modelled → (site number : ℕ) (lines : List LineView) (active : Option Active)
            → Stands site lines number active (seen D.Disk (disk_of self.old)) self.old
            → (D.ledger (disk_of self.new)).written ≤ (D.ledger (disk_of self.old)).written + 258 }
    {
        let restore = restore.copied();
        let number = number_after(&restore, self.state.last_number);
        if number > MAX_NUMBER {
            return Err(BootFault::BootFull {
                used: self.slots.used(),
                wanted: 0,
                number,
            });
        }
        let state = BootMark {
            last_number: number,
            restore,
        };
        store_record(&mut self.disk, era, &mut self.mark, &state)?;
        self.state = state;
        Ok(())
    }
}
