//! The catalogue read from its disk.
ghost use Rattle.std.specs.Prelude.{◌≡◌, All, ◌+◌, ◌*◌, ◌/◌, ◌%◌, ◌<◌, ◌≤◌, ◌↔◌, ◌⊎◌, ℕ, false, List, length, map, IsTrue, IfOk, IfErr, OnOk, IsErrOf};
ghost use Rattle.site_disk.specs.Bytes.{Same};
ghost use Rattle.site_disk.specs.Causes.{HasCause};
ghost use Rattle.site_disk.specs.Images.{IsSynced, Leaves, OnlyAfter, Unchanged};
ghost use Rattle.site_disk.specs.Ledger.{MayUse, Uses};
ghost use Rattle.site_disk.specs.Seen.{seen};
ghost use Rattle.gated_slots.specs.Slots.{Area, used, place_of, Agrees as SlotsAgree};
ghost use Rattle.site_headers.specs.Heads.{IsHead};
ghost use Rattle.site_headers.specs.Headers.{spare_tail, HasHeader};
ghost use Rattle.site_headers.specs.Views.{head_of};
ghost use Rattle.gated_slots.specs.Header.{IsHeader};
ghost use Rattle.catalogue_replay.specs.Contents.{AreContents};
ghost use Rattle.catalogue_replay.specs.Journal.{contents_of, Reads, StopsAt, ReadsOn};
ghost use Rattle.catalogue_replay.specs.Places.{area_of, area_record, slots_on, NamesArea, Journals};
ghost use Rattle.catalogue_replay.specs.Replays.{state_of, contents_found};
ghost use Rattle.catalogue_replay.specs.Answers.{IsRefusal, IsNoFailure, IsRead, HasHead, HasNoHead, IsBadJournal, IsBadCatalogue, FailsOn};

use crate::CatFault;
use crate::places::{MARK_AT, slots_at};
use crate::replay::Replay;
use catalogue_slots::ObjectEntry;
use gated_slots::{Slots, header_read};
use site_disk::{Disk, Era, Failed};
use site_headers::{SLOTS_AT, SiteHead, is_spare_header, read_catalogue_header};
use std::alloc::Global;
use twin_mark::{Mark, MarkFault};

/// Slots are read so many at a time.
const RUN: u32 = 16;

/// The bytes of a buffer for as many.
const BUFFER_LEN: usize = 65_536;

/// What stands for a slot where the mark, or what stands before the slots, isn't in the grammar.
pub const NO_SLOT: u32 = u32::MAX;

const FAILED: CatFault = CatFault::Failed { spare: false };

const BAD_FRONT: CatFault = CatFault::BadRecord {
    spare: false,
    slot: NO_SLOT,
};

// The head of the site that the catalogue's header has.
fn read_head<D: Disk>(alloc: Global, disk: &mut D, era: &Era) -> Result<SiteHead, CatFault>
    requires { MayUse era.now (D.ledger disk.old) }
    ensures is_head { IfOk result (λ head. IsHead (head_of head)) }
    ensures head { IsTrue D.is_modelled → IfOk result (λ head. HasHead (head_of head) (D.bytes disk.old)) }
    ensures none { IsTrue D.is_modelled → IsErrOf result CatFault.NotFormatted → HasNoHead (D.bytes disk.old) }
    ensures only { IfErr result (λ fault. IsRefusal fault → fault ≡ CatFault.NotFormatted) }
    ensures starved { IsTrue D.is_modelled → IsErrOf result CatFault.OutOfMemory → IsHeader (D.bytes disk.old) }
    ensures bytes { OnOk result (D.bytes disk.new ≡ D.bytes disk.old) }
    ensures images { OnOk result (Unchanged (D.image disk.old) (D.image disk.new)) }
    ensures kept { IfErr result (λ fault. IsNoFailure fault → D.bytes disk.new ≡ D.bytes disk.old) }
    ensures crash { Leaves era.now.number Same (D.image disk.old) (D.image disk.new) }
    ensures ledger { Uses era.now 4096 0 (D.ledger disk.old) (D.ledger disk.new) }
    ensures failed { IfErr result (FailsOn false (D.ledger disk.old).faults (D.ledger disk.new).faults) }
{
    let mut page = [0; 4096];
    if !header_read(disk, era, &mut page).map_err(|_| FAILED)? {
        return Err(CatFault::NotFormatted);
    }
    match read_catalogue_header(alloc, &page) {
        Ok(Some(head)) => Ok(head),
        Ok(None) => Err(CatFault::NotFormatted),
        Err(_) => Err(CatFault::OutOfMemory),
    }
}

// Loads the mark. It has to name the catalogue's own area.
fn load_mark<D: Disk>(disk: &mut D, era: &Era, mark: &mut Mark) -> Result<(), CatFault>
    requires era { MayUse era.now (D.ledger disk.old) }
    requires place { mark.old.base ≡ 4096 }
    ensures base { mark.new.base ≡ mark.old.base }
    ensures named { IsTrue D.is_modelled → OnOk result (NamesArea (D.bytes disk.old)) }
    ensures no_memory { IsErrOf result CatFault.OutOfMemory → ⊥ }
    ensures other { IsTrue D.is_modelled → IfErr result (λ fault. IsRefusal fault → (fault ≡ CatFault.BadRecord false 4294967295) × (NamesArea (D.bytes disk.old) → ⊥)) }
    ensures bytes { OnOk result (D.bytes disk.new ≡ D.bytes disk.old) }
    ensures images { OnOk result (Unchanged (D.image disk.old) (D.image disk.new)) }
    ensures kept { IfErr result (λ fault. IsNoFailure fault → D.bytes disk.new ≡ D.bytes disk.old) }
    ensures crash { Leaves era.now.number Same (D.image disk.old) (D.image disk.new) }
    ensures ledger { Uses era.now 768 0 (D.ledger disk.old) (D.ledger disk.new) }
    ensures failed { IfErr result (FailsOn false (D.ledger disk.old).faults (D.ledger disk.new).faults) }
{
    let mut record = [0; 255];
    match mark.load(disk, era, &mut record) {
        Ok(()) if is_area_record(&record) => Ok(()),
        Ok(()) => Err(BAD_FRONT),
        Err(MarkFault::NoMark) => Err(BAD_FRONT),
        Err(MarkFault::Failed) => Err(FAILED),
    }
}

fn are_zeros(bytes: &[u8]) -> bool
    ensures { IsTrue result ↔ All (λ byte. byte ≡ 0) bytes.now }
{
    bytes.iter().all(|byte| *byte == 0)
}

fn is_area_record(bytes: &[u8]) -> bool
    requires { length bytes.now ≡ 255 }
    ensures { IsTrue result ↔ (bytes.now ≡ area_record) }
{
    are_zeros(bytes)
}

// Reads the slots behind those that were followed, as many as the buffer holds, and follows their records.
fn follow_next_run<D: Disk>(
    alloc: Global,
    disk: &mut D,
    era: &Era,
    slots: &Slots,
    replay: &mut Replay,
    run: &mut [u8],
) -> Result<bool, CatFault>
    requires era { MayUse era.now (D.ledger disk.old) }
    requires area { slots.now.area.size ≡ 4096 }
    requires place { slots.now.area.slots ≡ 73728 }
    requires whole { length run.old % 4096 ≡ 0 }
    requires some { 0 < length run.old }
    requires within { replay.old.read + length run.old / 4096 ≤ slots.now.used }
    ensures followed { IsTrue D.is_modelled → 73728 + 4096 * replay.old.read + length run.old ≤ length (D.bytes disk.old)
        → Reads slots.now.used (slots_on (D.bytes disk.old)) (state_of replay.old)
        → IfOk result (ReadsOn slots.now.used (slots_on (D.bytes disk.old)) (replay.old.read + length run.old / 4096) (state_of replay.new)) }
    ensures sound { IsRead slots.now.used (state_of replay.old)
        → IfOk result (λ all. IsTrue all → IsRead slots.now.used (state_of replay.new)) }
    ensures fewer { IsRead slots.now.used (state_of replay.old)
        → IfOk result (λ all. all ≡ false → replay.new.read < replay.old.read + length run.old / 4096) }
    ensures all { IfOk result (λ all. IsTrue all → replay.new.read ≡ replay.old.read + length run.old / 4096) }
    ensures few { OnOk result (replay.new.read ≤ slots.now.used) }
    ensures only { IfErr result (λ fault. IsRefusal fault → ⊥) }
    ensures kept { IfErr result (λ fault. IsNoFailure fault → D.bytes disk.new ≡ D.bytes disk.old) }
    ensures bytes { OnOk result (D.bytes disk.new ≡ D.bytes disk.old) }
    ensures images { OnOk result (Unchanged (D.image disk.old) (D.image disk.new)) }
    ensures crash { Leaves era.now.number Same (D.image disk.old) (D.image disk.new) }
    ensures ledger { Uses era.now (length run.old) 0 (D.ledger disk.old) (D.ledger disk.new) }
    ensures failed { IfErr result (FailsOn false (D.ledger disk.old).faults (D.ledger disk.new).faults) }
{
    if !slots
        .read_run(disk, era, replay.read, run)
        .map_err(|_| FAILED)?
    {
        return Ok(false);
    }
    Ok(replay.follow_run(alloc, slots.used(), run)?)
}

// Follows the records of the first slots used, as many as are held, each slot once, up to the first one that isn't in
// the grammar.
fn follow_slots<D: Disk>(
    alloc: Global,
    disk: &mut D,
    era: &Era,
    slots: &Slots,
    held: u32,
    buffer: &mut [u8],
) -> Result<Replay, CatFault>
    requires era { MayUse era.now (D.ledger disk.old) }
    requires area { slots.now.area.size ≡ 4096 }
    requires place { slots.now.area.slots ≡ 73728 }
    requires held { held ≤ slots.now.used }
    requires buffer { length buffer.old ≡ 65536 }
    ensures followed { IsTrue D.is_modelled → 73728 + 4096 * held ≤ length (D.bytes disk.old)
        → IfOk result (λ replay. Reads slots.now.used (slots_on (D.bytes disk.old)) (state_of replay) × (replay.read ≡ held)
        ⊎ (StopsAt slots.now.used (slots_on (D.bytes disk.old)) replay.read × (replay.read < held))) }
    ensures sound { IfOk result (λ replay. replay.read ≡ held → IsRead slots.now.used (state_of replay)) }
    ensures few { IfOk result (λ replay. replay.read ≤ held) }
    ensures only { IfErr result (λ fault. IsRefusal fault → ⊥) }
    ensures kept { IfErr result (λ fault. IsNoFailure fault → D.bytes disk.new ≡ D.bytes disk.old) }
    ensures bytes { OnOk result (D.bytes disk.new ≡ D.bytes disk.old) }
    ensures images { OnOk result (Unchanged (D.image disk.old) (D.image disk.new)) }
    ensures crash { Leaves era.now.number Same (D.image disk.old) (D.image disk.new) }
    ensures ledger { Uses era.now (4096 * held) 0 (D.ledger disk.old) (D.ledger disk.new) }
    ensures failed { IfErr result (FailsOn false (D.ledger disk.old).faults (D.ledger disk.new).faults) }
{
    let mut replay = Replay::new(alloc);
    while replay.read < held {
        let count = (held - replay.read).min(RUN) as usize;
        let run = &mut buffer[..4096 * count];
        if !follow_next_run(alloc, disk, era, slots, &mut replay, run)? {
            return Ok(replay);
        }
    }
    Ok(replay)
}

// Follows the records of all slots used.
fn read_journal<D: Disk>(
    alloc: Global,
    disk: &mut D,
    era: &Era,
    slots: &Slots,
    buffer: &mut [u8],
) -> Result<Replay, CatFault>
    requires era { MayUse era.now (D.ledger disk.old) }
    requires area { slots.now.area ≡ area_of slots.now.area.capacity }
    requires buffer { length buffer.old ≡ 65536 }
    ensures within { slots.now.used ≤ slots.now.area.capacity }
    ensures read { IsTrue D.is_modelled → IfOk result (λ replay. Reads slots.now.used (slots_on (D.bytes disk.old)) (state_of replay)) }
    ensures sound { IfOk result (λ replay. IsRead slots.now.used (state_of replay)) }
    ensures all { IfOk result (λ replay. replay.read ≡ slots.now.used) }
    ensures reaches { IsTrue D.is_modelled → OnOk result (place_of slots.now.area slots.now.used ≤ length (D.bytes disk.old)) }
    ensures bad { IsTrue D.is_modelled → slots.now.used ≡ used slots.now.area (D.bytes disk.old)
        → IfErr result (IsBadJournal slots.now.area (D.bytes disk.old)) }
    ensures bytes { OnOk result (D.bytes disk.new ≡ D.bytes disk.old) }
    ensures images { OnOk result (Unchanged (D.image disk.old) (D.image disk.new)) }
    ensures kept { IfErr result (λ fault. IsNoFailure fault → D.bytes disk.new ≡ D.bytes disk.old) }
    ensures crash { Leaves era.now.number Same (D.image disk.old) (D.image disk.new) }
    ensures ledger { Uses era.now (4096 * slots.now.used) 0 (D.ledger disk.old) (D.ledger disk.new) }
    ensures failed { IfErr result (FailsOn false (D.ledger disk.old).faults (D.ledger disk.new).faults) }
{
    let used = slots.used();
    let len = disk.len().map_err(|_| FAILED)?;
    if len < SLOTS_AT {
        return Err(BAD_FRONT);
    }
    let held = ((len - SLOTS_AT) / 4096).min(u64::from(used)) as u32;
    let replay = follow_slots(alloc, disk, era, slots, held, buffer)?;
    if replay.read < used {
        return Err(CatFault::BadRecord {
            spare: false,
            slot: replay.read,
        });
    }
    Ok(replay)
}

// Reads the header and then the mark, which are looked at before the slots.
fn read_front<D: Disk>(
    alloc: Global,
    disk: &mut D,
    era: &Era,
    mark: &mut Mark,
) -> Result<SiteHead, CatFault>
    requires era { MayUse era.now (D.ledger disk.old) }
    requires place { mark.old.base ≡ 4096 }
    ensures base { mark.new.base ≡ mark.old.base }
    ensures is_head { IfOk result (λ head. IsHead (head_of head)) }
    ensures head { IsTrue D.is_modelled → IfOk result (λ head. HasHead (head_of head) (D.bytes disk.old)) }
    ensures named { IsTrue D.is_modelled → OnOk result (NamesArea (D.bytes disk.old)) }
    ensures starved { IsTrue D.is_modelled → IsErrOf result CatFault.OutOfMemory → IsHeader (D.bytes disk.old) }
    ensures bad { (area : Area) (spare : List ℕ) → IsTrue D.is_modelled → IfErr result (IsBadCatalogue area (D.bytes disk.old) spare) }
    ensures bytes { OnOk result (D.bytes disk.new ≡ D.bytes disk.old) }
    ensures images { OnOk result (Unchanged (D.image disk.old) (D.image disk.new)) }
    ensures kept { IfErr result (λ fault. IsNoFailure fault → D.bytes disk.new ≡ D.bytes disk.old) }
    ensures crash { Leaves era.now.number Same (D.image disk.old) (D.image disk.new) }
    ensures ledger { Uses era.now 4864 0 (D.ledger disk.old) (D.ledger disk.new) }
    ensures failed { IfErr result (FailsOn false (D.ledger disk.old).faults (D.ledger disk.new).faults) }
{
    let head = read_head(alloc, disk, era)?;
    load_mark(disk, era, mark)?;
    Ok(head)
}

// Reads the gates after a sync, then the front, then the slots used.
fn read_disk<D: Disk>(
    alloc: Global,
    disk: &mut D,
    era: &Era,
    slots: &mut Slots,
    mark: &mut Mark,
) -> Result<(SiteHead, Replay), CatFault>
    requires era { MayUse era.now (D.ledger disk.old) }
    requires area { slots.old.area ≡ area_of slots.old.area.capacity }
    requires place { mark.old.base ≡ 4096 }

    ensures area { slots.new.area ≡ slots.old.area }
    ensures base { mark.new.base ≡ mark.old.base }
    ensures is_head { IfOk result (λ found. IsHead (head_of found.0)) }
    ensures head { IsTrue D.is_modelled → IfOk result (λ found. HasHead (head_of found.0) (D.bytes disk.old)) }
    ensures named { IsTrue D.is_modelled → OnOk result (NamesArea (D.bytes disk.old)) }
    ensures journal { IsTrue D.is_modelled → IfOk result (λ found. Journals slots.old.area (contents_of (state_of found.1)) (D.bytes disk.old)) }
    ensures sound { IfOk result (λ found. AreContents (contents_of (state_of found.1))) }
    ensures agrees { IsTrue D.is_modelled
        → OnOk result (SlotsAgree slots.new (seen D.Disk disk.new)) }
    ensures durable { IsTrue D.is_modelled
        → OnOk result (IsSynced (seen D.Disk disk.new)) }

    ensures bad { (spare : List ℕ) → IsTrue D.is_modelled → IfErr result (IsBadCatalogue slots.old.area (D.bytes disk.old) spare) }
    ensures failed { IfErr result (FailsOn false (D.ledger disk.old).faults (D.ledger disk.new).faults) }
    ensures starved { IsTrue D.is_modelled → IsErrOf result CatFault.OutOfMemory → IsHeader (D.bytes disk.old) }
    ensures bytes { OnOk result (D.bytes disk.new ≡ D.bytes disk.old) }
    ensures kept { IfErr result (λ fault. IsNoFailure fault → D.bytes disk.new ≡ D.bytes disk.old) }
    ensures crash { Leaves era.now.number Same (D.image disk.old) (D.image disk.new) }
    ensures ledger { Uses era.now (4864 + 4097 * slots.old.area.capacity) 0 (D.ledger disk.old) (D.ledger disk.new) }
    ensures bound { IsTrue D.is_modelled → (D.ledger disk.new).read
        ≤ (D.ledger disk.old).read + 4864 + slots.old.area.capacity + 4096 * used slots.old.area (D.bytes disk.old) }
{
    slots.open(disk, era).map_err(|_| FAILED)?;
    let head = read_front(alloc, disk, era, mark)?;
    let mut buffer = [0; BUFFER_LEN];
    let replay = read_journal(alloc, disk, era, slots, &mut buffer)?;
    Ok((head, replay))
}

/// What a catalogue's disk holds.
#[derive(Drop)]
pub struct Found {
    pub head: SiteHead,
    pub slots: Slots,
    pub mark: Mark,
    /// The last copy id.
    pub last: u64,
    /// The live objects, in order of copy id.
    pub objects: Vec<ObjectEntry>,
}

/// Reads all of the catalogue's disk, after a sync. The header is looked at first, then the mark, then the slots used,
/// each of them once, in order.
pub fn read_catalogue<D: Disk>(
    alloc: Global,
    disk: &mut D,
    era: &Era,
    capacity: u32,
) -> Result<Found, CatFault>
    requires era { MayUse era.now (D.ledger disk.old) }
    requires some { 2 ≤ capacity }
    requires few { capacity ≤ 65536 }

    ensures area { IfOk result (λ found. found.slots.area ≡ area_of capacity) }
    ensures base { IfOk result (λ found. found.mark.base ≡ 4096) }
    ensures sound { IfOk result (λ found. AreContents (contents_found found)) }
    ensures is_head { IfOk result (λ found. IsHead (head_of found.head)) }
    ensures head { IsTrue D.is_modelled → IfOk result (λ found. HasHead (head_of found.head) (D.bytes disk.old)) }
    ensures named { IsTrue D.is_modelled → OnOk result (NamesArea (D.bytes disk.old)) }
    ensures journal { IsTrue D.is_modelled → IfOk result (λ found. Journals (area_of capacity) (contents_found found) (D.bytes disk.old)) }
    ensures agrees { IsTrue D.is_modelled
        → IfOk result (λ found. SlotsAgree found.slots (seen D.Disk disk.new)) }
    ensures durable { IsTrue D.is_modelled
        → OnOk result (IsSynced (seen D.Disk disk.new)) }

    // The first place that isn't as it should be; want of memory comes only behind the header.
    ensures bad { (spare : List ℕ) → IsTrue D.is_modelled → IfErr result (IsBadCatalogue (area_of capacity) (D.bytes disk.old) spare) }
    ensures starved { IsTrue D.is_modelled → IsErrOf result CatFault.OutOfMemory → IsHeader (D.bytes disk.old) }
    ensures failed { IfErr result (FailsOn false (D.ledger disk.old).faults (D.ledger disk.new).faults) }

    // Nothing is written.
    ensures bytes { OnOk result (D.bytes disk.new ≡ D.bytes disk.old) }
    ensures kept { IfErr result (λ fault. IsNoFailure fault → D.bytes disk.new ≡ D.bytes disk.old) }
    ensures crash { Leaves era.now.number Same (D.image disk.old) (D.image disk.new) }
    ensures ledger { Uses era.now (4864 + 4097 * capacity) 0 (D.ledger disk.old) (D.ledger disk.new) }
    ensures bound { IsTrue D.is_modelled → (D.ledger disk.new).read
        ≤ (D.ledger disk.old).read + 4864 + capacity + 4096 * used (area_of capacity) (D.bytes disk.old) }
{
    let mut slots = slots_at(capacity);
    let mut mark = Mark::new(MARK_AT);
    let (head, replay) = read_disk(alloc, disk, era, &mut slots, &mut mark)?;
    let (last, objects) = replay.into_parts(alloc)?;
    Ok(Found {
        head,
        slots,
        mark,
        last,
        objects,
    })
}

/// Whether the spare disk has a valid header of the site, after a sync.
pub fn has_spare_header<D: Disk>(disk: &mut D, era: &Era, site: u64) -> Result<bool, Failed>
    requires { MayUse era.now (D.ledger disk.old) }
    ensures header { IsTrue D.is_modelled → IfOk result (λ found. IsTrue found ↔ HasHeader (spare_tail site) (D.bytes disk.old)) }
    ensures bytes { OnOk result (D.bytes disk.new ≡ D.bytes disk.old) }
    ensures durable { IsTrue D.is_modelled → OnOk result (OnlyAfter era.now.number (D.bytes disk.new) (D.image disk.new)) }
    ensures crash { Leaves era.now.number Same (D.image disk.old) (D.image disk.new) }
    ensures ledger { Uses era.now 4096 0 (D.ledger disk.old) (D.ledger disk.new) }
    ensures cause { HasCause (D.ledger disk.old).faults (D.ledger disk.new).faults result }
{
    disk.sync(era)?;
    let mut page = [0; 4096];
    let found = header_read(disk, era, &mut page)?;
    Ok(found && is_spare_header(&page, site))
}
