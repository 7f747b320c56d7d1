//! The catalogue.
ghost use Rattle.std.specs.Prelude.{◌≡◌, ◌+◌, ◌-◌, ◌*◌, ◌<◌, ◌≤◌, ◌^◌, ◌∷◌, ◌↔◌, ℕ, true, false, length, map, min, Contains, slice_index_or, IsTrue, IsNone, IfSome, IfOk, IfErr, OnOk, OnErr, IsErrOf};
ghost use Rattle.std.specs.List.{AllByRecursion};
ghost use Rattle.site_disk.specs.Bytes.{written, Same};
ghost use Rattle.site_disk.specs.Causes.{Rose};
ghost use Rattle.site_disk.specs.Images.{Leaves, OnlyAfter};
ghost use Rattle.site_disk.specs.Ledger.{MayUse, Spends, Uses};
ghost use Rattle.site_disk.specs.Seen.{seen};
ghost use Rattle.gated_slots.specs.Header.{IsHeader, StandsClosed};
ghost use Rattle.gated_slots.specs.Slots.{used};
ghost use Rattle.site_headers.specs.Heads.{IsHead};
ghost use Rattle.site_headers.specs.Headers.{catalogue_tail, spare_tail, HasHeader};
ghost use Rattle.site_headers.specs.Views.{head_of};
ghost use Rattle.catalogue_slots.specs.Views.{object_of};
ghost use Rattle.catalogue_replay.specs.Contents.{Contents, empty, has_copy, AreRising};
ghost use Rattle.catalogue_journal.specs.Transactions.{AreLive, IsAddition, IsWithin};
ghost use Rattle.catalogue_replay.specs.Places.{area_of, NamesArea, Journals};
ghost use Rattle.catalogue_journal.specs.Commits.{Ends, TakesEras};
ghost use Rattle.catalogue_journal.specs.Refusals.{AreTooMany, LacksRoom, HasRoom, Explains};
ghost use Rattle.catalogue_journal.specs.Formats.{MayUnformat, MayFormat, MayPublish};
ghost use Rattle.catalogue_replay.specs.Answers.{IsRefusal, IsNoFailure, HasHead, IsBadCatalogue, FailsOn};
ghost use Rattle.catalogue_journal.specs.Answers.{IsFailure, FailsOnOne};

use crate::batch::slots_of;
use crate::ending::{append, prepare, put_in};
use crate::formatting::{format_catalogue, format_spare, write_head};
use crate::{CatFault, Staged};
use catalogue_replay::{MARK_AT, NO_SLOT, has_spare_header, read_catalogue, slots_at};
use catalogue_slots::ObjectEntry;
use gated_slots::Slots;
use site_disk::{Disk, Era};
use site_headers::{SLOTS, SiteHead};
use std::alloc::Global;
use twin_mark::Mark;

/// The objects that may be live.
const MAX_OBJECTS: u64 = 16_384;

/// The greatest copy id.
const MAX_COPY: u64 = 1 << 48;

/// The live objects, in a journal on a disk, behind a header page and a mark. A second disk is spare.
///
/// The journal's slots have 4,096 bytes and begin at byte 73,728, their gates at 8,192, the mark at 4,096.
#[derive(Drop)]
pub struct Catalogue<D> {
    pub(crate) cat: D,
    pub(crate) spare: D,
    pub(crate) alloc: Global,
    pub(crate) capacity: u32,
    pub(crate) slots: Slots,
    pub(crate) mark: Mark,
    pub(crate) last: u64,
    pub(crate) objects: Vec<ObjectEntry>,
}

impl<D: Disk> Catalogue<D> {
    ghost use Rattle.catalogue_journal.specs.Catalogues.{additions_of, ids_from, ended_by, wanted_by, cat_of, spare_of, capacity_of, used_of, objects_of, contents_in, with_disks, IsMade, IsOpen, IsAsItWas, Stands};

    /// The catalogue over its two disks, with 65,536 slots. It is closed.
    pub fn new(alloc: Global, cat: D, spare: D) -> Catalogue<D>
        ensures cat { cat_of result ≡ cat }
        ensures spare { spare_of result ≡ spare }
        ensures capacity { capacity_of result ≡ 65536 }
        ensures made { IsMade result }
    {
        Catalogue::with_slots(alloc, cat, spare, SLOTS)
    }

    /// The same with so many slots.
    pub fn with_slots(alloc: Global, cat: D, spare: D, slots: u32) -> Catalogue<D>
        requires some { 2 ≤ slots }
        requires few { slots ≤ 65536 }
        ensures cat { cat_of result ≡ cat }
        ensures spare { spare_of result ≡ spare }
        ensures capacity { capacity_of result ≡ slots }
        ensures made { IsMade result }
    {
        Catalogue {
            cat,
            spare,
            alloc,
            capacity: slots,
            slots: slots_at(slots),
            mark: Mark::new(MARK_AT),
            last: 0,
            objects: Vec::new(alloc),
        }
    }

    /// Its disks, the spare one last.
    pub fn into_disks(self) -> (D, D)
        ensures cat { result.0 ≡ cat_of self }
        ensures spare { result.1 ≡ spare_of self }
    {
        (self.cat, self.spare)
    }

    /// Writes all of an empty catalogue but its header: closes that first, then writes gates and mark, then the spare disk.
    ///
    /// Each disk is synced before its header is closed: whether it is to be closed goes by what a read gives, so crash
    /// images have to be that. After a fault the catalogue has to be formatted again.
    pub fn format(&mut self, era: &Era, head: &SiteHead) -> Result<(), CatFault>
        requires era { MayUse era.now (D.ledger (cat_of self.old)) }
        requires spare_era { MayUse era.now (D.ledger (spare_of self.old)) }
        requires made { IsMade self.old }
        requires head { IsHead (head_of head.now) }

        ensures made { IsMade self.new }
        ensures journal { IsTrue D.is_modelled → OnOk result (Journals (area_of (capacity_of self.old)) empty (D.bytes (cat_of self.new))) }
        ensures none { IsTrue D.is_modelled → OnOk result (used (area_of (capacity_of self.old)) (D.bytes (cat_of self.new)) ≡ 0) }
        ensures mark { IsTrue D.is_modelled → OnOk result (NamesArea (D.bytes (cat_of self.new))) }
        ensures closed { IsTrue D.is_modelled
            → OnOk result (StandsClosed (seen D.Disk (cat_of self.new))) }
        ensures spare { IsTrue D.is_modelled → OnOk result (HasHeader (spare_tail head.now.site) (D.bytes (spare_of self.new))) }
        ensures spare_journal { IsTrue D.is_modelled → OnOk result (Journals (area_of (capacity_of self.old)) empty (D.bytes (spare_of self.new))) }
        ensures durable { IsTrue D.is_modelled
            → OnOk result (OnlyAfter era.now.number (D.bytes (cat_of self.new)) (D.image (cat_of self.new))) }
        ensures spare_durable { IsTrue D.is_modelled
            → OnOk result (OnlyAfter era.now.number (D.bytes (spare_of self.new)) (D.image (spare_of self.new))) }
        ensures capacity { capacity_of self.new ≡ capacity_of self.old }

        ensures only { IfErr result IsFailure }
        ensures failed { IsErrOf result (CatFault.Failed false)
            → Rose (D.ledger (cat_of self.old)).faults (D.ledger (cat_of self.new)).faults }
        ensures spare_failed { IsErrOf result (CatFault.Failed true)
            → Rose (D.ledger (spare_of self.old)).faults (D.ledger (spare_of self.new)).faults }
        // The catalogue's disk comes first: the spare one is written once no header of the catalogue stands.
        ensures spare_last { IsErrOf result (CatFault.Failed false) → spare_of self.new ≡ spare_of self.old }
        ensures closed_first { IsTrue D.is_modelled → IsErrOf result (CatFault.Failed true)
            → StandsClosed (seen D.Disk (cat_of self.new)) }

        ensures crash { IsTrue D.is_modelled
            → Leaves era.now.number MayUnformat (D.image (cat_of self.old)) (D.image (cat_of self.new)) }
        ensures spare_crash { IsTrue D.is_modelled → Leaves era.now.number (MayFormat (spare_tail head.now.site))
            (D.image (spare_of self.old)) (D.image (spare_of self.new)) }
        ensures ledger { Uses era.now 1 78849 (D.ledger (cat_of self.old)) (D.ledger (cat_of self.new)) }
        ensures spare_ledger { Uses era.now 1 77826 (D.ledger (spare_of self.old)) (D.ledger (spare_of self.new)) }
    {
        if let Err(_) = format_catalogue(&mut self.cat, era, &mut self.slots, &mut self.mark) {
            return Err(CatFault::Failed { spare: false });
        }
        match format_spare(&mut self.spare, era, self.capacity, head.site) {
            Ok(()) => Ok(()),
            Err(_) => Err(CatFault::Failed { spare: true }),
        }
    }

    /// Opens the header of a catalogue that was formatted with the same head in an earlier era.
    pub fn publish(&mut self, era: &Era, head: &SiteHead) -> Result<(), CatFault>
        requires era { MayUse era.now (D.ledger (cat_of self.old)) }
        requires made { IsMade self.old }
        requires head { IsHead (head_of head.now) }

        ensures made { IsMade self.new }
        ensures written { IsTrue D.is_modelled → OnOk result (D.bytes (cat_of self.new)
            ≡ written 0 (1 ∷ catalogue_tail (head_of head.now)) (D.bytes (cat_of self.old))) }
        ensures header { IsTrue D.is_modelled → OnOk result (HasHeader (catalogue_tail (head_of head.now)) (D.bytes (cat_of self.new))) }
        // Journal and mark stay.
        ensures journal { IsTrue D.is_modelled → (contents : Contents)
            → Journals (area_of (capacity_of self.old)) contents (D.bytes (cat_of self.old))
            → OnOk result (Journals (area_of (capacity_of self.old)) contents (D.bytes (cat_of self.new))) }
        ensures mark { IsTrue D.is_modelled → NamesArea (D.bytes (cat_of self.old)) → OnOk result (NamesArea (D.bytes (cat_of self.new))) }
        ensures durable { IsTrue D.is_modelled
            → OnOk result (OnlyAfter era.now.number (D.bytes (cat_of self.new)) (D.image (cat_of self.new))) }
        ensures value { self.new ≡ with_disks self.old (cat_of self.new) (spare_of self.old) }
        ensures only { IfErr result IsFailure }
        ensures failed { IfErr result (FailsOn false (D.ledger (cat_of self.old)).faults (D.ledger (cat_of self.new)).faults) }

        ensures crash { IsTrue D.is_modelled
            → StandsClosed (seen D.Disk (cat_of self.old))
            → Leaves era.now.number (MayPublish (catalogue_tail (head_of head.now))) (D.image (cat_of self.old)) (D.image (cat_of self.new)) }
        ensures ledger { Uses era.now 0 4097 (D.ledger (cat_of self.old)) (D.ledger (cat_of self.new)) }
    {
        match write_head(&mut self.cat, era, head) {
            Ok(()) => Ok(()),
            Err(_) => Err(CatFault::Failed { spare: false }),
        }
    }

    /// Syncs both disks, the catalogue's first. The value and what a read gives stay.
    pub fn sync(&mut self, era: &Era) -> Result<(), CatFault>
        requires era { MayUse era.now (D.ledger (cat_of self.old)) }
        requires spare_era { MayUse era.now (D.ledger (spare_of self.old)) }

        ensures value { self.new ≡ with_disks self.old (cat_of self.new) (spare_of self.new) }
        ensures bytes { OnOk result (D.bytes (cat_of self.new) ≡ D.bytes (cat_of self.old)) }
        ensures spare_bytes { OnOk result (D.bytes (spare_of self.new) ≡ D.bytes (spare_of self.old)) }
        ensures synced { OnOk result ((D.ledger (cat_of self.new)).synced ≡ era.now.number) }
        ensures spare_synced { OnOk result ((D.ledger (spare_of self.new)).synced ≡ era.now.number) }
        ensures durable { IsTrue D.is_modelled
            → OnOk result (OnlyAfter era.now.number (D.bytes (cat_of self.new)) (D.image (cat_of self.new))) }
        ensures spare_durable { IsTrue D.is_modelled
            → OnOk result (OnlyAfter era.now.number (D.bytes (spare_of self.new)) (D.image (spare_of self.new))) }

        ensures only { IfErr result IsFailure }
        ensures failed { IfErr result (FailsOnOne (D.ledger (cat_of self.old)).faults (D.ledger (cat_of self.new)).faults
            (D.ledger (spare_of self.old)).faults (D.ledger (spare_of self.new)).faults) }
        ensures spare_last { IsErrOf result (CatFault.Failed false) → spare_of self.new ≡ spare_of self.old }

        ensures crash { Leaves era.now.number Same (D.image (cat_of self.old)) (D.image (cat_of self.new)) }
        ensures spare_crash { Leaves era.now.number Same (D.image (spare_of self.old)) (D.image (spare_of self.new)) }
        ensures ledger { Uses era.now 0 0 (D.ledger (cat_of self.old)) (D.ledger (cat_of self.new)) }
        ensures spare_ledger { Uses era.now 0 0 (D.ledger (spare_of self.old)) (D.ledger (spare_of self.new)) }
    {
        if let Err(_) = self.cat.sync(era) {
            return Err(CatFault::Failed { spare: false });
        }
        match self.spare.sync(era) {
            Ok(()) => Ok(()),
            Err(_) => Err(CatFault::Failed { spare: true }),
        }
    }

    /// Reads the catalogue, after a sync of both disks, in one pass over the slots used.
    ///
    /// The header is looked at first, then the mark, the slots in order, and the spare disk's header.
    pub fn open(&mut self, era: &Era) -> Result<SiteHead, CatFault>
        requires era { MayUse era.now (D.ledger (cat_of self.old)) }
        requires spare_era { MayUse era.now (D.ledger (spare_of self.old)) }
        requires made { IsMade self.old }

        ensures opened { OnOk result (IsOpen self.new) }
        ensures made { IsMade self.new }
        ensures capacity { capacity_of self.new ≡ capacity_of self.old }
        ensures is_head { IfOk result (λ head. IsHead (head_of head)) }
        ensures head { IsTrue D.is_modelled → IfOk result (λ head. IsHead (head_of head) × HasHeader (catalogue_tail (head_of head)) (D.bytes (cat_of self.old))) }
        ensures mark { IsTrue D.is_modelled → OnOk result (NamesArea (D.bytes (cat_of self.old))) }
        ensures spare { IsTrue D.is_modelled → IfOk result (λ head. HasHeader (spare_tail head.site) (D.bytes (spare_of self.old))) }
        ensures stands { IsTrue D.is_modelled → OnOk result (Stands (seen D.Disk (cat_of self.new)) self.new) }
        ensures durable { IsTrue D.is_modelled
            → OnOk result (OnlyAfter era.now.number (D.bytes (cat_of self.new)) (D.image (cat_of self.new))) }
        ensures spare_durable { IsTrue D.is_modelled
            → OnOk result (OnlyAfter era.now.number (D.bytes (spare_of self.new)) (D.image (spare_of self.new))) }

        // The first place that isn't as it should be.
        ensures bad { IsTrue D.is_modelled → IfErr result (IsBadCatalogue (area_of (capacity_of self.old)) (D.bytes (cat_of self.old)) (D.bytes (spare_of self.old))) }
        ensures starved { IsTrue D.is_modelled → IsErrOf result CatFault.OutOfMemory → IsHeader (D.bytes (cat_of self.old)) }
        ensures failed { IfErr result (FailsOnOne (D.ledger (cat_of self.old)).faults (D.ledger (cat_of self.new)).faults
            (D.ledger (spare_of self.old)).faults (D.ledger (spare_of self.new)).faults) }

        // Nothing is written, and without Ok the value stays as it was.
        ensures bytes { OnOk result (D.bytes (cat_of self.new) ≡ D.bytes (cat_of self.old)) }
        ensures spare_bytes { OnOk result (D.bytes (spare_of self.new) ≡ D.bytes (spare_of self.old)) }
        ensures refused { OnErr result (self.new ≡ with_disks self.old (cat_of self.new) (spare_of self.new)) }
        ensures refused_bytes { IfErr result (λ fault. IsNoFailure fault → D.bytes (cat_of self.new) ≡ D.bytes (cat_of self.old)) }
        ensures refused_spare { IfErr result (λ fault. IsNoFailure fault → D.bytes (spare_of self.new) ≡ D.bytes (spare_of self.old)) }
        ensures crash { Leaves era.now.number Same (D.image (cat_of self.old)) (D.image (cat_of self.new)) }
        ensures spare_crash { Leaves era.now.number Same (D.image (spare_of self.old)) (D.image (spare_of self.new)) }

        ensures ledger { Uses era.now (4864 + 4097 * capacity_of self.old) 0 (D.ledger (cat_of self.old)) (D.ledger (cat_of self.new)) }
        ensures bound { IsTrue D.is_modelled → (D.ledger (cat_of self.new)).read ≤ (D.ledger (cat_of self.old)).read + 4864
            + capacity_of self.old + 4096 * used (area_of (capacity_of self.old)) (D.bytes (cat_of self.old)) }
        ensures spare_ledger { Uses era.now 4096 0 (D.ledger (spare_of self.old)) (D.ledger (spare_of self.new)) }
    {
        let found = read_catalogue(self.alloc, &mut self.cat, era, self.capacity)?;
        let has_header = spare_has_header(&mut self.spare, era, found.head.site)?;
        if !has_header {
            return Err(CatFault::BadRecord {
                spare: true,
                slot: NO_SLOT,
            });
        }
        self.slots = found.slots;
        self.mark = found.mark;
        self.last = found.last;
        self.objects = found.objects;
        Ok(found.head)
    }

    // The first refusal of a transaction that takes so many slots, if any.
    fn refusal(&self, staged: &Staged, slots: u64) -> Option<CatFault>
        requires slots { slots ≡ min (wanted_by staged.now) (2 ^ 64 - 1) }
        ensures refused { IfSome result (Explains (capacity_of self.now) (used_of self.now)
            staged.now.delete.items (additions_of staged.now) (contents_in self.now)) }
        ensures refusal { IfSome result IsRefusal }
        ensures none { IsNone result → HasRoom (capacity_of self.now) (used_of self.now)
            staged.now.delete.items (additions_of staged.now) (contents_in self.now) }
    {
        let count = staged.add.len() as u64;
        let live = (self.objects.len() as u64)
            .saturating_sub(staged.delete.len() as u64)
            .saturating_add(count);
        let last = self.last.saturating_add(count);
        if live > MAX_OBJECTS || last > MAX_COPY {
            let live = live.min(u64::from(u32::MAX)) as u32;
            return Some(CatFault::TooManyObjects { live, last });
        }
        let used = self.slots.used();
        if u64::from(used).saturating_add(slots) > u64::from(self.capacity) {
            let wanted = slots.min(u64::from(u32::MAX)) as u32;
            return Some(CatFault::CatalogueFull { used, wanted });
        }
        None
    }

    /// Ends a transaction: writes its deletions, then its additions, as one batch, and answers the copy ids of what it
    /// adds, which follow the last one. A transaction without deletions and additions writes nothing.
    ///
    /// Each image of the disk has the transactions that had ended before, or these and this one, and after Ok the
    /// latter. Want of memory shows before anything is written. After `Failed` the catalogue has to be opened again.
    pub fn commit(&mut self, era: &mut Era, staged: &Staged) -> Result<Vec<u64>, CatFault>
        requires era { MayUse era.old (D.ledger (cat_of self.old)) }
        requires opened { IsOpen self.old }
        requires deletions { AreLive staged.now.delete.items (objects_of self.old) }
        requires additions { AllByRecursion IsAddition (additions_of staged.now) }

        ensures ids { IfOk result (λ ids. ids.items ≡ ids_from ((contents_in self.old).last + 1) (additions_of staged.now)) }
        ensures ended { OnOk result (contents_in self.new ≡ ended_by staged.now (contents_in self.old)) }
        ensures opened { OnOk result (IsOpen self.new) }
        ensures made { IsMade self.new }
        ensures capacity { capacity_of self.new ≡ capacity_of self.old }
        ensures used { OnOk result (used_of self.new ≡ used_of self.old + wanted_by staged.now) }
        ensures stands { IsTrue D.is_modelled → Stands (seen D.Disk (cat_of self.old)) self.old
            → OnOk result (Stands (seen D.Disk (cat_of self.new)) self.new) }
        ensures nothing { wanted_by staged.now ≡ 0 → cat_of self.new ≡ cat_of self.old }
        ensures durable { IsTrue D.is_modelled → 0 < wanted_by staged.now
            → OnOk result (OnlyAfter era.new.number (D.bytes (cat_of self.new)) (D.image (cat_of self.new))) }

        // Objects and ids are counted first, then slots; what isn't refused is within the limits and has room.
        ensures too_many { (live last : ℕ) → IsErrOf result (CatFault.TooManyObjects live last)
            → AreTooMany staged.now.delete.items (additions_of staged.now) (contents_in self.old) live last }
        ensures full { (used wanted : ℕ) → IsErrOf result (CatFault.CatalogueFull used wanted)
            → LacksRoom (capacity_of self.old) (used_of self.old) staged.now.delete.items (additions_of staged.now) (contents_in self.old) used wanted }
        ensures within { OnOk result (IsWithin staged.now.delete.items (additions_of staged.now) (contents_in self.old)) }
        ensures room { OnOk result (used_of self.old + wanted_by staged.now ≤ capacity_of self.old) }
        ensures explained { IfErr result (Explains (capacity_of self.old) (used_of self.old)
            staged.now.delete.items (additions_of staged.now) (contents_in self.old)) }
        ensures refused { IfErr result (λ fault. IsRefusal fault → self.new ≡ self.old) }
        // Want of memory changes nothing, and comes only where something is to be written.
        ensures starved { IsErrOf result CatFault.OutOfMemory → IsAsItWas self.old self.new × (0 < wanted_by staged.now) }
        ensures failed { IfErr result (FailsOn false (D.ledger (cat_of self.old)).faults (D.ledger (cat_of self.new)).faults) }

        ensures spare { spare_of self.new ≡ spare_of self.old }
        // Later eras of the commit may follow the first, with the same key.
        ensures era { TakesEras era.old era.new }
        ensures ends { IsTrue D.is_modelled → Stands (seen D.Disk (cat_of self.old)) self.old
            → Ends era.old.number (capacity_of self.old) (wanted_by staged.now) (contents_in self.old) (ended_by staged.now (contents_in self.old))
            (D.image (cat_of self.old)) (D.image (spare_of self.old)) (D.image (cat_of self.new)) (D.image (spare_of self.new)) }

        ensures ledger { Spends era.old era.new 0 (73729 + 4096 * (used_of self.old + wanted_by staged.now))
            (D.ledger (cat_of self.old)) (D.ledger (cat_of self.new)) }
        ensures bound { IsTrue D.is_modelled → Stands (seen D.Disk (cat_of self.old)) self.old
            → (D.ledger (cat_of self.new)).written
            ≤ (D.ledger (cat_of self.old)).written + 4096 * wanted_by staged.now + 1 }
    {
        let slots = slots_of(&staged.add).saturating_add(staged.delete.len() as u64);
        if let Some(fault) = self.refusal(staged, slots) {
            return Err(fault);
        }
        if slots == 0 {
            return Ok(Vec::new(self.alloc));
        }
        let last = self.last;
        let ready = prepare(self.alloc, &mut self.objects, staged, last, slots as usize)?;
        append(&mut self.slots, &mut self.cat, era, &ready.batch)?;
        let deletions = ready.deletions;
        put_in(&mut self.objects, &deletions, ready.entries);
        self.last = last + staged.add.len() as u64;
        Ok(ready.copies)
    }

    /// The live objects, in order of copy id.
    pub fn objects(&self) -> &[ObjectEntry]
        ensures { map object_of result.now ≡ objects_of self.now }
    {
        &self.objects
    }

    /// The live object with this copy id, by a binary search.
    pub fn find(&self, copy: u64) -> Option<&ObjectEntry>
        requires { IsOpen self.now }
        ensures found { IfSome result (λ entry. Contains (objects_of self.now) (object_of entry.now) × (entry.now.copy ≡ copy)) }
        ensures none { IsNone result → has_copy copy (objects_of self.now) ≡ false }
    {
        let place = place_of(&self.objects, copy)?;
        Some(&self.objects[place])
    }
}

// Whether the spare disk has a valid header of the site, after a sync.
fn spare_has_header<D: Disk>(spare: &mut D, era: &Era, site: u64) -> Result<bool, CatFault>
    requires { MayUse era.now (D.ledger spare.old) }
    ensures header { IsTrue D.is_modelled → IfOk result (λ found. IsTrue found ↔ HasHeader (spare_tail site) (D.bytes spare.old)) }
    ensures bytes { OnOk result (D.bytes spare.new ≡ D.bytes spare.old) }
    ensures durable { IsTrue D.is_modelled → OnOk result (OnlyAfter era.now.number (D.bytes spare.new) (D.image spare.new)) }
    ensures crash { Leaves era.now.number Same (D.image spare.old) (D.image spare.new) }
    ensures ledger { Uses era.now 4096 0 (D.ledger spare.old) (D.ledger spare.new) }
    ensures fault { IfErr result (λ fault. fault ≡ CatFault.Failed true) }
    ensures failed { OnErr result (Rose (D.ledger spare.old).faults (D.ledger spare.new).faults) }
{
    match has_spare_header(spare, era, site) {
        Ok(found) => Ok(found),
        Err(_) => Err(CatFault::Failed { spare: true }),
    }
}

// The place of the object with this copy id, by a binary search.
pub(crate) fn place_of(objects: &[ObjectEntry], copy: u64) -> Option<usize>
    requires { AreRising 0 (map object_of objects.now) }
    ensures bound { IfSome result (λ place. place < length objects.now) }
    ensures found { IfSome result (λ place. (entry : ObjectEntry) → entry ≡ slice_index_or objects.now place entry → entry.copy ≡ copy) }
    ensures none { IsNone result → has_copy copy (map object_of objects.now) ≡ false }
{
    objects.binary_search_by_key(&copy, |entry| entry.copy).ok()
}
