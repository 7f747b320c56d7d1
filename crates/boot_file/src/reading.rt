//! The boot file read from its disk.
ghost use Rattle.std.specs.Prelude.{◌≡◌, ◌⊎◌, ◌+◌, ◌*◌, ◌/◌, ◌%◌, ◌<◌, ◌≤◌, ◌↔◌, ℕ, List, Option, length, IsTrue, IfOk, IfErr, OnOk, IsErrOf};
ghost use Rattle.std.specs.List.{AllByRecursion};
ghost use Rattle.site_disk.specs.Bytes.{Same};
ghost use Rattle.site_disk.specs.Images.{IsSynced, Leaves, Unchanged};
ghost use Rattle.site_disk.specs.Ledger.{MayUse, Uses};
ghost use Rattle.site_disk.specs.Seen.{seen};
ghost use Rattle.gated_slots.specs.Slots.{used};
ghost use Rattle.twin_mark.specs.Marks.{Knows};
ghost use Rattle.site_headers.specs.Headers.{HasHeader};
ghost use Rattle.boot_lines.specs.LineLayout.{IsLine, lines_of};
ghost use Rattle.backup_lines.specs.Spans.{Active};
ghost use Rattle.boot_lines.specs.MarkLayout.{IsMark, active_in};
ghost use Rattle.boot_file.specs.Places.{boot_tail, lines_area, HoldsMark, HoldsLines, HoldsBoot, Begins};
ghost use Rattle.boot_file.specs.Answers.{no_slot, IsRefusal, IsNoFailure, FailsOn, IsBadBoot};
ghost use Rattle.boot_file.specs.Reading.{TakesRun, Counts, ComesTo, CameTo, IsBadRead};

use crate::BootFault;
use crate::header::has_boot_header;
use crate::places::{MARK_AT, NO_SLOT, line_slots};
use backup_lines::Line;
use boot_lines::{BootMark, decode_line};
use gated_slots::Slots;
use site_disk::{Disk, Era};
use site_headers::SLOTS_AT;
use std::alloc::{AllocError, Global};
use twin_mark::{Mark, MarkFault};

/// Lines are read so many at a time.
const RUN: u32 = 512;

/// The bytes of a buffer for as many.
const BUFFER_LEN: usize = 65_536;

const BAD_FRONT: BootFault = BootFault::BadRecord { slot: NO_SLOT };

// Takes the lines in neighbouring slots, up to the first slot that is no line's. Whether none is.
fn take_run(lines: &mut Vec<Line>, run: &[u8]) -> Result<bool, AllocError>
    requires { length run.now % 128 ≡ 0 }
    ensures taken { IfOk result (TakesRun (lines_of lines.old.items) (lines_of lines.new.items) run.now) }
{
    let mut rest = run;
    while let Some((slot, others)) = rest.split_first_chunk::<128>() {
        let Some(line) = decode_line(slot) else {
            return Ok(false);
        };
        lines.push(line)?;
        rest = others;
    }
    Ok(true)
}

// Reads the slots from one on, as many as the buffer holds, and takes their lines.
fn take_next_run<D: Disk>(
    disk: &mut D,
    era: &Era,
    slots: &Slots,
    slot: u32,
    lines: &mut Vec<Line>,
    run: &mut [u8],
) -> Result<bool, BootFault>
    requires era { MayUse era.now (D.ledger disk.old) }
    requires area { slots.now.area ≡ lines_area }
    requires whole { length run.old % 128 ≡ 0 }
    requires some { 0 < length run.old }
    requires within { slot + length run.old / 128 ≤ slots.now.used }
    requires next { slot ≡ length (lines_of lines.old.items) }
    requires each { AllByRecursion IsLine (lines_of lines.old.items) }
    ensures each { OnOk result (AllByRecursion IsLine (lines_of lines.new.items)) }
    ensures count { IfOk result (Counts (slot + length run.old / 128) (lines_of lines.new.items)) }
    ensures taken { IsTrue D.is_modelled → 73728 + 128 * slot + length run.old ≤ length (D.bytes disk.old)
        → Begins (lines_of lines.old.items) (D.bytes disk.old)
        → IfOk result (ComesTo (D.bytes disk.old) (slot + length run.old / 128) (lines_of lines.new.items)) }
    ensures only { IfErr result (λ fault. IsRefusal fault → ⊥) }
    ensures kept { IfErr result (λ fault. IsNoFailure fault → D.bytes disk.new ≡ D.bytes disk.old) }
    ensures bytes { OnOk result (D.bytes disk.new ≡ D.bytes disk.old) }
    ensures images { OnOk result (Unchanged (D.image disk.old) (D.image disk.new)) }
    ensures crash { Leaves era.now.number Same (D.image disk.old) (D.image disk.new) }
    ensures ledger { Uses era.now (length run.old) 0 (D.ledger disk.old) (D.ledger disk.new) }
    ensures failed { IfErr result (FailsOn (D.ledger disk.old).faults (D.ledger disk.new).faults) }
{
    if !slots.read_run(disk, era, slot, run)? {
        return Ok(false);
    }
    Ok(take_run(lines, run)?)
}

// Takes the lines of the first slots used, as many as are held, each slot once, up to the first one that is no line's.
fn take_lines<D: Disk>(
    alloc: Global,
    disk: &mut D,
    era: &Era,
    slots: &Slots,
    held: u32,
    buffer: &mut [u8],
) -> Result<Vec<Line>, BootFault>
    requires era { MayUse era.now (D.ledger disk.old) }
    requires area { slots.now.area ≡ lines_area }
    requires held { held ≤ slots.now.used }
    requires buffer { length buffer.old ≡ 65536 }
    ensures each { IfOk result (λ lines. AllByRecursion IsLine (lines_of lines.items)) }
    ensures few { IfOk result (λ lines. length (lines_of lines.items) ≤ held) }
    ensures taken { IsTrue D.is_modelled → 73728 + 128 * held ≤ length (D.bytes disk.old)
        → IfOk result (λ lines. CameTo (D.bytes disk.old) held (lines_of lines.items)) }
    ensures only { IfErr result (λ fault. IsRefusal fault → ⊥) }
    ensures kept { IfErr result (λ fault. IsNoFailure fault → D.bytes disk.new ≡ D.bytes disk.old) }
    ensures bytes { OnOk result (D.bytes disk.new ≡ D.bytes disk.old) }
    ensures images { OnOk result (Unchanged (D.image disk.old) (D.image disk.new)) }
    ensures crash { Leaves era.now.number Same (D.image disk.old) (D.image disk.new) }
    ensures ledger { Uses era.now (128 * held) 0 (D.ledger disk.old) (D.ledger disk.new) }
    ensures failed { IfErr result (FailsOn (D.ledger disk.old).faults (D.ledger disk.new).faults) }
{
    let mut lines = Vec::with_capacity(alloc, held as usize)?;
    let mut read = 0;
    while read < held {
        let count = (held - read).min(RUN);
        let run = &mut buffer[..128 * count as usize];
        if !take_next_run(disk, era, slots, read, &mut lines, run)? {
            return Ok(lines);
        }
        read += count;
    }
    Ok(lines)
}

// Reads the lines of all slots used.
fn read_lines<D: Disk>(
    alloc: Global,
    disk: &mut D,
    era: &Era,
    slots: &Slots,
) -> Result<Vec<Line>, BootFault>
    requires era { MayUse era.now (D.ledger disk.old) }
    requires area { slots.now.area ≡ lines_area }
    ensures within { slots.now.used ≤ slots.now.area.capacity }
    ensures each { IfOk result (λ lines. AllByRecursion IsLine (lines_of lines.items)) }
    ensures all { IfOk result (λ lines. length (lines_of lines.items) ≡ slots.now.used) }
    ensures held { IsTrue D.is_modelled → slots.now.used ≡ used lines_area (D.bytes disk.old)
        → IfOk result (λ lines. HoldsLines (lines_of lines.items) (D.bytes disk.old)) }
    ensures bad { IsTrue D.is_modelled → slots.now.used ≡ used lines_area (D.bytes disk.old)
        → IfErr result (IsBadRead (D.bytes disk.old)) }
    ensures kept { IfErr result (λ fault. IsNoFailure fault → D.bytes disk.new ≡ D.bytes disk.old) }
    ensures bytes { OnOk result (D.bytes disk.new ≡ D.bytes disk.old) }
    ensures images { OnOk result (Unchanged (D.image disk.old) (D.image disk.new)) }
    ensures crash { Leaves era.now.number Same (D.image disk.old) (D.image disk.new) }
    ensures ledger { Uses era.now (128 * slots.now.used) 0 (D.ledger disk.old) (D.ledger disk.new) }
    ensures failed { IfErr result (FailsOn (D.ledger disk.old).faults (D.ledger disk.new).faults) }
{
    let used = slots.used();
    let len = disk.len()?;
    if len < SLOTS_AT {
        return Err(BAD_FRONT);
    }
    let held = ((len - SLOTS_AT) / 128).min(u64::from(used)) as u32;
    let mut buffer = [0; BUFFER_LEN];
    let lines = take_lines(alloc, disk, era, slots, held, &mut buffer)?;
    let slot = lines.len() as u32;
    if slot < used {
        return Err(BootFault::BadRecord { slot });
    }
    Ok(lines)
}

// Loads the mark.
fn load_mark<D: Disk>(disk: &mut D, era: &Era, mark: &mut Mark) -> Result<BootMark, BootFault>
    requires era { MayUse era.now (D.ledger disk.old) }
    requires place { mark.old.base ≡ 4096 }
    ensures base { mark.new.base ≡ mark.old.base }
    ensures is_mark { IfOk result (λ state. IsMark state.last_number (active_in state.restore)) }
    ensures held { IsTrue D.is_modelled → IfOk result (λ state. HoldsMark state.last_number (active_in state.restore) (D.bytes disk.old)) }
    ensures knows { IsTrue D.is_modelled → IsSynced (seen D.Disk disk.old) → OnOk result (Knows mark.new (D.bytes disk.new)) }
    ensures no_memory { IsErrOf result BootFault.OutOfMemory → ⊥ }
    ensures other { IsTrue D.is_modelled → IfErr result (λ fault. IsRefusal fault → (fault ≡ BootFault.BadRecord no_slot)
        × ((number : ℕ) (active : Option Active) → HoldsMark number active (D.bytes disk.old) → ⊥)) }
    ensures kept { IfErr result (λ fault. IsNoFailure fault → D.bytes disk.new ≡ D.bytes disk.old) }
    ensures bytes { OnOk result (D.bytes disk.new ≡ D.bytes disk.old) }
    ensures images { OnOk result (Unchanged (D.image disk.old) (D.image disk.new)) }
    ensures crash { Leaves era.now.number Same (D.image disk.old) (D.image disk.new) }
    ensures ledger { Uses era.now 768 0 (D.ledger disk.old) (D.ledger disk.new) }
    ensures failed { IfErr result (FailsOn (D.ledger disk.old).faults (D.ledger disk.new).faults) }
{
    let mut bytes = [0; 255];
    match mark.load(disk, era, &mut bytes) {
        Ok(()) => BootMark::decode(&bytes).ok_or(BAD_FRONT),
        Err(MarkFault::NoMark) => Err(BAD_FRONT),
        Err(MarkFault::Failed) => Err(BootFault::Failed),
    }
}

// Reads the header and then the mark, which are looked at before the slots.
fn read_front<D: Disk>(
    disk: &mut D,
    era: &Era,
    site: u64,
    mark: &mut Mark,
) -> Result<BootMark, BootFault>
    requires era { MayUse era.now (D.ledger disk.old) }
    requires place { mark.old.base ≡ 4096 }
    ensures base { mark.new.base ≡ mark.old.base }
    ensures is_mark { IfOk result (λ state. IsMark state.last_number (active_in state.restore)) }
    ensures header { IsTrue D.is_modelled → OnOk result (HasHeader (boot_tail site) (D.bytes disk.old)) }
    ensures held { IsTrue D.is_modelled → IfOk result (λ state. HoldsMark state.last_number (active_in state.restore) (D.bytes disk.old)) }
    ensures knows { IsTrue D.is_modelled → IsSynced (seen D.Disk disk.old) → OnOk result (Knows mark.new (D.bytes disk.new)) }
    ensures no_memory { IsErrOf result BootFault.OutOfMemory → ⊥ }
    ensures bad { IsTrue D.is_modelled → IfErr result (IsBadBoot site (D.bytes disk.old)) }
    ensures kept { IfErr result (λ fault. IsNoFailure fault → D.bytes disk.new ≡ D.bytes disk.old) }
    ensures bytes { OnOk result (D.bytes disk.new ≡ D.bytes disk.old) }
    ensures images { OnOk result (Unchanged (D.image disk.old) (D.image disk.new)) }
    ensures crash { Leaves era.now.number Same (D.image disk.old) (D.image disk.new) }
    ensures ledger { Uses era.now 4864 0 (D.ledger disk.old) (D.ledger disk.new) }
    ensures failed { IfErr result (FailsOn (D.ledger disk.old).faults (D.ledger disk.new).faults) }
{
    if !has_boot_header(disk, era, site)? {
        return Err(BAD_FRONT);
    }
    load_mark(disk, era, mark)
}

/// What a boot file's disk holds.
#[derive(Drop)]
pub(crate) struct Found {
    pub(crate) slots: Slots,
    pub(crate) mark: Mark,
    pub(crate) state: BootMark,
    pub(crate) lines: Vec<Line>,
}

/// Reads all of the boot file's disk, after a sync. The header is looked at first, then the mark, then the slots used, each of
/// them once, in order.
pub(crate) fn read_boot<D: Disk>(
    alloc: Global,
    disk: &mut D,
    era: &Era,
    site: u64,
) -> Result<Found, BootFault>
    requires { MayUse era.now (D.ledger disk.old) }
    ensures area { IfOk result (λ found. found.slots.area ≡ lines_area) }
    ensures base { IfOk result (λ found. found.mark.base ≡ 4096) }
    ensures each { IfOk result (λ found. AllByRecursion IsLine (lines_of found.lines.items)) }
    ensures is_mark { IfOk result (λ found. IsMark found.state.last_number (active_in found.state.restore)) }
    ensures used { IfOk result (λ found. found.slots.used ≡ length (lines_of found.lines.items)) }
    ensures held { IsTrue D.is_modelled → IfOk result (λ found.
        HoldsBoot site (lines_of found.lines.items) found.state.last_number (active_in found.state.restore) (D.bytes disk.old)) }
    ensures knows { IsTrue D.is_modelled → IfOk result (λ found. Knows found.mark (D.bytes disk.new)) }
    ensures synced { IsTrue D.is_modelled → OnOk result (IsSynced (seen D.Disk disk.new)) }
    ensures bad { IsTrue D.is_modelled → IfErr result (IsBadBoot site (D.bytes disk.old)) }
    ensures kept { IfErr result (λ fault. IsNoFailure fault → D.bytes disk.new ≡ D.bytes disk.old) }
    ensures bytes { OnOk result (D.bytes disk.new ≡ D.bytes disk.old) }
    ensures crash { Leaves era.now.number Same (D.image disk.old) (D.image disk.new) }
    ensures ledger { Uses era.now 8459008 0 (D.ledger disk.old) (D.ledger disk.new) }
    ensures bound { IsTrue D.is_modelled → (D.ledger disk.new).read
        ≤ (D.ledger disk.old).read + 70400 + 128 * used lines_area (D.bytes disk.old) }
    ensures failed { IfErr result (FailsOn (D.ledger disk.old).faults (D.ledger disk.new).faults) }
{
    let mut slots = line_slots();
    let mut mark = Mark::new(MARK_AT);
    slots.open(disk, era)?;
    let state = read_front(disk, era, site, &mut mark)?;
    let lines = read_lines(alloc, disk, era, &slots)?;
    Ok(Found {
        slots,
        mark,
        state,
        lines,
    })
}
