//! Catalogues over disks in memory.
ghost use Rattle.std.specs.Prelude.{◌≡◌, ◌+◌, ◌<◌, ◌≤◌, ◌^◌, IsTrue, IfOk, OnOk};
ghost use Rattle.std.specs.List.{AllByRecursion};
ghost use Rattle.site_disk.specs.Ledger.{MayUse};
ghost use Rattle.site_disk.specs.MemDisk.{disk_ledger};
ghost use Rattle.site_headers.specs.Heads.{IsHead};
ghost use Rattle.site_headers.specs.Views.{head_of};
ghost use Rattle.catalogue_slots.specs.Records.{AreRuns};
ghost use Rattle.block_chain.specs.Blocks.{blocks_in};
ghost use Rattle.catalogue_journal.specs.Transactions.{AreLive, IsAddition};
ghost use Rattle.catalogue_journal.specs.Commits.{TakesEras};
ghost use Rattle.catalogue_journal.specs.Views.{addition_of};
ghost use Rattle.catalogue_journal.specs.Catalogues.{additions_of, cat_of, spare_of, objects_of, IsMade, IsOpen};

use block_chain::Run;
use bsa_descriptor::Descriptor;
use catalogue_journal::{CatFault, Catalogue, NewObject, SiteHead, Staged};
use site_disk::{Choice, Disk, Era, MemDisk};
use site_headers::read_catalogue_header;
use std::alloc::Global;
use std::test::Fail;

/// The header of a site with one space of four pages, `A`, and volumes of eight blocks, by hand.
fn page() -> [u8; 4096] {
    let mut page = [0; 4096];
    page[..16].copy_from_slice(b"\x01OBS\x01\x01\0\0\0\0\0\0\0\0\0\x64");
    page[17] = 1;
    page[27] = 8;
    page[32] = b'A';
    page[55] = 4;
    page
}

fn head(alloc: Global) -> Result<SiteHead, Fail>
    ensures { IfOk result (λ head. IsHead (head_of head)) }
{
    Ok(read_catalogue_header(alloc, &page())?.ok_or("no header")?)
}

/// Whether it is the head that `head` gives.
fn is_head(found: &SiteHead) -> bool {
    found.site == 100
        && found.blocks == 8
        && found.spaces.len() == 1
        && found.spaces[0].name.as_str() == "A"
        && found.spaces[0].pages == 4
}

/// So many runs of a block each, none of them neighbours.
fn runs_of(alloc: Global, count: u32) -> Result<Vec<Run>, Fail>
    requires { count ≤ 4096 }
    ensures runs { IfOk result (λ runs. AreRuns runs.items) }
    ensures blocks { IfOk result (λ runs. blocks_in runs.items ≡ count) }
{
    let mut runs = Vec::new(alloc);
    for i in 0..count {
        runs.push(Run {
            first: 2 * i,
            count: 1,
        })?;
    }
    Ok(runs)
}

/// An object of so many runs.
fn object(alloc: Global, count: u32) -> Result<NewObject, Fail>
    ensures { IfOk result (λ object. IsAddition (addition_of object)) }
{
    if count > 4096 {
        return Err("too many runs".into());
    }
    Ok(NewObject {
        volume: 3,
        size: 4096 * u64::from(count),
        digest: [7; 32],
        runs: runs_of(alloc, count)?,
        descriptor: Descriptor::empty(),
    })
}

/// A transaction that adds objects of so many runs, and deletes those with these copy ids.
fn staged(alloc: Global, counts: &[u32], delete: &[u64]) -> Result<Staged, Fail>
    ensures additions { IfOk result (λ staged. AllByRecursion IsAddition (additions_of staged)) }
    ensures deletions { IfOk result (λ staged. staged.delete.items ≡ delete.now) }
{
    let mut add = Vec::new(alloc);
    for count in counts {
        add.push(object(alloc, *count)?)?;
    }
    Ok(Staged {
        add,
        delete: Vec::from_slice(alloc, delete)?,
    })
}

/// Whether each is the copy id of a live object, and none comes twice.
fn are_live(catalogue: &Catalogue<MemDisk>, copies: &[u64]) -> bool
    requires { IsOpen catalogue.now }
    ensures { IsTrue result → AreLive copies.now (objects_of catalogue.now) }
{
    for (i, copy) in copies.iter().enumerate() {
        if catalogue.find(*copy).is_none() || copies[..i].contains(copy) {
            return false;
        }
    }
    true
}

/// A new catalogue of so many slots, open.
fn formatted(alloc: Global, era: &mut Era, slots: u32) -> Result<Catalogue<MemDisk>, Fail>
    requires some { 2 ≤ slots }
    requires few { slots ≤ 65536 }
    requires number { era.old.number < 2 ^ 62 }
    ensures may { IfOk result (λ catalogue. MayUse era.new (disk_ledger (cat_of catalogue))) }
    ensures spare { IfOk result (λ catalogue. MayUse era.new (disk_ledger (spare_of catalogue))) }
    ensures opened { IfOk result IsOpen }
    ensures number { era.new.number ≤ era.old.number + 2 }
{
    let cat = MemDisk::new(alloc, era, Vec::new(alloc));
    let spare = MemDisk::new(alloc, era, Vec::new(alloc));
    let mut catalogue = Catalogue::with_slots(alloc, cat, spare, slots);
    let head = head(alloc)?;
    catalogue.format(era, &head)?;
    era.next();
    catalogue.publish(era, &head)?;
    era.next();
    let found = catalogue.open(era)?;
    if !is_head(&found) {
        return Err("another head".into());
    }
    Ok(catalogue)
}

/// Opens a catalogue anew over its disks.
fn reopened(
    alloc: Global,
    era: &Era,
    catalogue: Catalogue<MemDisk>,
    slots: u32,
) -> Result<Catalogue<MemDisk>, Fail>
    requires some { 2 ≤ slots }
    requires few { slots ≤ 65536 }
    requires may { MayUse era.now (disk_ledger (cat_of catalogue)) }
    requires spare { MayUse era.now (disk_ledger (spare_of catalogue)) }
    ensures may { IfOk result (λ catalogue. MayUse era.now (disk_ledger (cat_of catalogue))) }
    ensures spare { IfOk result (λ catalogue. MayUse era.now (disk_ledger (spare_of catalogue))) }
    ensures opened { IfOk result IsOpen }
{
    let (cat, spare) = catalogue.into_disks();
    let mut catalogue = Catalogue::with_slots(alloc, cat, spare, slots);
    catalogue.open(era)?;
    Ok(catalogue)
}

/// Commits a transaction that adds objects of so many runs, and deletes those with these copy ids.
fn tried(
    alloc: Global,
    catalogue: &mut Catalogue<MemDisk>,
    era: &mut Era,
    counts: &[u32],
    delete: &[u64],
) -> Result<Result<Vec<u64>, CatFault>, Fail>
    requires may { MayUse era.old (disk_ledger (cat_of catalogue.old)) }
    requires spare { MayUse era.old (disk_ledger (spare_of catalogue.old)) }
    requires opened { IsOpen catalogue.old }
    ensures may { MayUse era.new (disk_ledger (cat_of catalogue.new)) }
    ensures spare { MayUse era.new (disk_ledger (spare_of catalogue.new)) }
    ensures opened { IfOk result (λ answer. OnOk answer (IsOpen catalogue.new)) }
    ensures era { TakesEras era.old era.new }
{
    let staged = staged(alloc, counts, delete)?;
    if !are_live(catalogue, delete) {
        return Err("no such object".into());
    }
    Ok(catalogue.commit(era, &staged))
}

/// The same where it succeeds: the copy ids.
fn commit(
    alloc: Global,
    catalogue: &mut Catalogue<MemDisk>,
    era: &mut Era,
    counts: &[u32],
    delete: &[u64],
) -> Result<Vec<u64>, Fail>
    requires may { MayUse era.old (disk_ledger (cat_of catalogue.old)) }
    requires spare { MayUse era.old (disk_ledger (spare_of catalogue.old)) }
    requires opened { IsOpen catalogue.old }
    ensures may { MayUse era.new (disk_ledger (cat_of catalogue.new)) }
    ensures spare { MayUse era.new (disk_ledger (spare_of catalogue.new)) }
    ensures opened { OnOk result (IsOpen catalogue.new) }
    ensures era { TakesEras era.old era.new }
{
    Ok(tried(alloc, catalogue, era, counts, delete)??)
}

fn copies(alloc: Global, catalogue: &Catalogue<MemDisk>) -> Result<Vec<u64>, Fail> {
    let mut copies = Vec::new(alloc);
    for entry in catalogue.objects() {
        copies.push(entry.copy)?;
    }
    Ok(copies)
}

#[test]
fn four_slots_take_four_additions(rt: HostRuntime) -> Result<(), Fail> {
    let alloc = rt.alloc();
    let mut era = Era::first();
    let mut catalogue = formatted(alloc, &mut era, 4)?;
    for copy in 1..5 {
        let ids = commit(alloc, &mut catalogue, &mut era, &[1], &[])?;
        assert_eq!(rt; ids.as_slice(), [copy].as_slice());
    }
    let fifth = tried(alloc, &mut catalogue, &mut era, &[1], &[])?;
    let full = CatFault::CatalogueFull { used: 4, wanted: 1 };
    assert_eq!(rt; fifth.map(|_| ()), Err(full));
    assert_eq!(rt;
        copies(alloc, &catalogue)?.as_slice(),
        [1, 2, 3, 4].as_slice()
    );
    let catalogue = reopened(alloc, &era, catalogue, 4)?;
    assert_eq!(rt;
        copies(alloc, &catalogue)?.as_slice(),
        [1, 2, 3, 4].as_slice()
    );
    Ok(())
}

#[test]
fn objects_are_found_by_their_copy_ids(rt: HostRuntime) -> Result<(), Fail> {
    let alloc = rt.alloc();
    let mut era = Era::first();
    let mut catalogue = formatted(alloc, &mut era, 40)?;
    let ids = commit(alloc, &mut catalogue, &mut era, &[1, 2, 3], &[])?;
    assert_eq!(rt; ids.as_slice(), [1, 2, 3].as_slice());
    let ids = commit(alloc, &mut catalogue, &mut era, &[4, 5], &[1, 3])?;
    assert_eq!(rt; ids.as_slice(), [4, 5].as_slice());
    assert_eq!(rt; copies(alloc, &catalogue)?.as_slice(), [2, 4, 5].as_slice());
    assert!(rt; catalogue.find(3).is_none());
    let entry = catalogue.find(4).ok_or("no object 4")?;
    assert_eq!(rt; entry.runs.len(), 4);
    assert_eq!(rt; entry.descriptor.copy, 4);
    Ok(())
}

#[test]
fn no_copy_id_is_given_twice(rt: HostRuntime) -> Result<(), Fail> {
    let alloc = rt.alloc();
    let mut era = Era::first();
    let mut catalogue = formatted(alloc, &mut era, 40)?;
    commit(alloc, &mut catalogue, &mut era, &[1, 2, 3], &[])?;
    let ids = commit(alloc, &mut catalogue, &mut era, &[], &[1, 2, 3])?;
    assert!(rt; ids.is_empty());
    let mut catalogue = reopened(alloc, &era, catalogue, 40)?;
    assert!(rt; catalogue.objects().is_empty());
    let ids = commit(alloc, &mut catalogue, &mut era, &[1], &[])?;
    assert_eq!(rt; ids.as_slice(), [4].as_slice());
    Ok(())
}

#[test]
fn objects_of_many_runs_are_read_again(rt: HostRuntime) -> Result<(), Fail> {
    let alloc = rt.alloc();
    for runs in [1, 177, 178, 687, 688] {
        let mut era = Era::first();
        let mut catalogue = formatted(alloc, &mut era, 40)?;
        commit(alloc, &mut catalogue, &mut era, &[2, runs], &[])?;
        commit(alloc, &mut catalogue, &mut era, &[runs], &[1])?;
        let catalogue = reopened(alloc, &era, catalogue, 40)?;
        assert_eq!(rt; copies(alloc, &catalogue)?.as_slice(), [2, 3].as_slice());
        for entry in catalogue.objects() {
            assert_eq!(rt; entry.runs.as_slice(), object(alloc, runs)?.runs.as_slice());
        }
    }
    Ok(())
}

/// Opens a catalogue anew, and commits two additions and a deletion: whether the commit ended.
fn commits_anew(
    alloc: Global,
    catalogue: &mut Catalogue<MemDisk>,
    era: &mut Era,
) -> Result<bool, Fail>
    requires may { MayUse era.old (disk_ledger (cat_of catalogue.old)) }
    requires spare { MayUse era.old (disk_ledger (spare_of catalogue.old)) }
    requires made { IsMade catalogue.old }
    ensures may { MayUse era.new (disk_ledger (cat_of catalogue.new)) }
    ensures spare { MayUse era.new (disk_ledger (spare_of catalogue.new)) }
{
    match catalogue.open(era) {
        Ok(_) => Ok(tried(alloc, catalogue, era, &[3, 200], &[2])?.is_ok()),
        Err(_) => Ok(false),
    }
}

/// Adds three objects, opens the catalogue again and commits two additions and a deletion, stops at a call of it, and
/// opens an image that a crash leaves: the copy ids of its objects. Whether the commit ended comes first.
fn left_after_stop(
    alloc: Global,
    call: u64,
    bytes: usize,
    seed: u64,
) -> Result<(bool, Vec<u64>), Fail> {
    let mut era = Era::first();
    let mut catalogue = formatted(alloc, &mut era, 16)?;
    commit(alloc, &mut catalogue, &mut era, &[1, 2, 178], &[])?;
    era.next();
    let (mut cat, spare) = catalogue.into_disks();
    cat.stop_at(call, bytes);
    let mut catalogue = Catalogue::with_slots(alloc, cat, spare, 16);
    let ended = commits_anew(alloc, &mut catalogue, &mut era)?;
    let choice = Choice {
        calls: u64::MAX,
        seed,
    };
    let (cat, spare) = catalogue.into_disks();
    let cat = cat.crash(&era, &choice)?;
    let spare = spare.crash(&era, &choice)?;
    let mut catalogue = Catalogue::with_slots(alloc, cat, spare, 16);
    catalogue.open(&era)?;
    Ok((ended, copies(alloc, &catalogue)?))
}

#[test]
fn a_stop_leaves_the_objects_before_or_after(rt: HostRuntime) -> Result<(), Fail> {
    let alloc = rt.alloc();
    let mut both = [false; 2];
    for call in 1..20 {
        for bytes in [1, 4096] {
            let (ended, left) = left_after_stop(alloc, call, bytes, call)?;
            let before = left.as_slice() == [1, 2, 3].as_slice();
            let after = left.as_slice() == [1, 3, 4, 5].as_slice();
            assert!(rt;
                after || before && !ended,
                "call {call}, byte {bytes}: {left:?}"
            );
            both = [both[0] || before, both[1] || after];
        }
    }
    assert_eq!(rt; both, [true, true]);
    Ok(())
}

/// Three transactions in six slots: slot 0 adds object 1, slots 1 to 3 object 2 of 688 runs, slot 4 deletes object 1,
/// slot 5 adds object 3 of 2 runs.
fn with_six_slots(alloc: Global, era: &mut Era) -> Result<(MemDisk, MemDisk), Fail>
    requires { era.old.number < 2 ^ 62 }
    ensures may { IfOk result (λ disks. MayUse era.new (disk_ledger disks.0)) }
    ensures spare { IfOk result (λ disks. MayUse era.new (disk_ledger disks.1)) }
    ensures number { era.new.number ≤ era.old.number + 10 }
{
    let mut catalogue = formatted(alloc, era, 40)?;
    commit(alloc, &mut catalogue, era, &[1, 688], &[])?;
    commit(alloc, &mut catalogue, era, &[2], &[1])?;
    Ok(catalogue.into_disks())
}

/// How many objects a catalogue over these disks has.
fn opened(alloc: Global, era: &Era, cat: MemDisk, spare: MemDisk) -> Result<usize, CatFault>
    requires may { MayUse era.now (disk_ledger cat) }
    requires spare { MayUse era.now (disk_ledger spare) }
{
    let mut catalogue = Catalogue::with_slots(alloc, cat, spare, 40);
    catalogue.open(era)?;
    Ok(catalogue.objects().len())
}

// Changes a byte, where the disk reaches it.
fn change(disk: &mut MemDisk, era: &Era, at: u64, byte: u8) -> Result<(), Fail>
    requires { MayUse era.now (disk_ledger disk.old) }
    ensures { MayUse era.now (disk_ledger disk.new) }
{
    if disk.len()? >= at {
        disk.write_at(era, at, &[byte])?;
    }
    Ok(())
}

/// The same with two bytes of the catalogue's disk changed, each at its place.
fn opened_with(alloc: Global, changes: [(u64, u8); 2]) -> Result<Result<usize, CatFault>, Fail> {
    let mut era = Era::first();
    let (mut cat, spare) = with_six_slots(alloc, &mut era)?;
    for (at, byte) in changes {
        change(&mut cat, &era, at, byte)?;
    }
    Ok(opened(alloc, &era, cat, spare))
}

/// A byte at an offset of a slot, and the slot that is bad by it.
static BAD_BYTES: [(u64, u64, u8, u32, &str); 22] = [
    (0, 0, 9, 0, "a ninth kind"),
    (0, 1, 1, 0, "byte 1 isn't 0"),
    (0, 3, 17, 0, "volume 17"),
    (0, 9, 2, 0, "a copy id above 2^48"),
    (0, 15, 0, 0, "a copy id that isn't the descriptor's"),
    (0, 22, 0xff, 0, "a size that its blocks don't have"),
    (0, 57, 65, 0, "a descriptor's text behind a zero"),
    (0, 2266, 2, 0, "a descriptor with a status"),
    (0, 2687, 0, 0, "a run of no blocks"),
    (1, 5, 1, 1, "runs that the slots don't have"),
    (1, 2691, 1, 1, "a run that begins where the one before ends"),
    (2, 0, 3, 2, "a deletion in a More's place"),
    (2, 3, 255, 2, "a More of too many runs"),
    (2, 7, 1, 2, "bytes 4 to 7 of a More aren't 0"),
    (2, 15, 3, 2, "a More of another object"),
    (2, 19, 97, 2, "a More that goes on in the last run"),
    (3, 23, 2, 3, "a block too many at the object's end"),
    (4, 0, 4, 4, "a Base behind other slots"),
    (4, 3, 1, 4, "bytes 2 to 7 of a deletion aren't 0"),
    (4, 15, 3, 4, "a deletion of an object that isn't live"),
    (4, 4095, 1, 4, "a byte behind a deletion"),
    (5, 4095, 1, 5, "a byte behind the last run"),
];

#[test]
fn each_bad_slot_is_named_by_its_place(rt: HostRuntime) -> Result<(), Fail> {
    let alloc = rt.alloc();
    for (slot, offset, byte, bad, rule) in BAD_BYTES {
        let at = 73_728u64
            .wrapping_add(4096u64.wrapping_mul(slot))
            .wrapping_add(offset);
        let fault = CatFault::BadRecord {
            spare: false,
            slot: bad,
        };
        assert_eq!(rt; opened_with(alloc, [(at, byte); 2])?, Err(fault), "{rule}");
    }
    Ok(())
}

/// Two bytes of the disk, each at its place, and the slot that is bad by them, if any is; else how many objects there are.
static TWO_BYTES: [([(u64, u8); 2], Option<u32>, usize, &str); 10] = [
    ([(4096, 0); 2], Some(u32::MAX), 0, "the mark is closed"),
    (
        [(4353, 1); 2],
        Some(u32::MAX),
        0,
        "the mark names the spare disk",
    ),
    ([(4607, 1); 2], Some(u32::MAX), 0, "the mark names no area"),
    (
        [(4096, 0), (73_728, 9)],
        Some(u32::MAX),
        0,
        "the mark comes before the slots",
    ),
    (
        [(77_824, 9), (94_208, 9)],
        Some(1),
        0,
        "slots come in order",
    ),
    (
        [(94_223, 2), (96_455, 2)],
        Some(5),
        0,
        "copy ids that don't rise",
    ),
    ([(98_304, 0); 2], None, 2, "a slot that isn't used"),
    (
        [(8197, 0); 2],
        None,
        2,
        "the gate of the second transaction",
    ),
    (
        [(8197, 0), (8196, 1)],
        None,
        1,
        "the gate of a deletion alone",
    ),
    ([(0, 1); 2], None, 2, "nothing has changed"),
];

#[test]
fn the_first_bad_place_is_named(rt: HostRuntime) -> Result<(), Fail> {
    let alloc = rt.alloc();
    for (changes, bad, objects, rule) in TWO_BYTES {
        let wanted = match bad {
            Some(slot) => Err(CatFault::BadRecord { spare: false, slot }),
            None => Ok(objects),
        };
        assert_eq!(rt; opened_with(alloc, changes)?, wanted, "{rule}");
    }
    Ok(())
}

#[test]
fn without_a_header_nothing_else_is_looked_at(rt: HostRuntime) -> Result<(), Fail> {
    let alloc = rt.alloc();
    for changes in [[(0, 0); 2], [(4, 2); 2], [(0, 0), (4096, 0)]] {
        assert_eq!(rt; opened_with(alloc, changes)?, Err(CatFault::NotFormatted));
    }
    Ok(())
}

/// Opens a catalogue whose disk has the first so many bytes.
fn opened_short(alloc: Global, len: usize) -> Result<Result<usize, CatFault>, Fail> {
    let mut era = Era::first();
    let (cat, spare) = with_six_slots(alloc, &mut era)?;
    let front = cat.bytes().get(..len).ok_or("a shorter disk")?;
    let short = MemDisk::new(alloc, &era, Vec::from_slice(alloc, front)?);
    Ok(opened(alloc, &era, short, spare))
}

#[test]
fn a_disk_that_ends_early_is_bad_where_it_ends(rt: HostRuntime) -> Result<(), Fail> {
    let alloc = rt.alloc();
    for len in [0, 4095] {
        assert_eq!(rt; opened_short(alloc, len)?, Err(CatFault::NotFormatted));
    }
    // At 8,192 bytes the gates are gone, and with them all slots.
    for (len, slot) in [
        (4096, u32::MAX),
        (8192, u32::MAX),
        (73_727, u32::MAX),
        (73_728, 0),
        (77_824, 1),
        (90_111, 3),
        (98_303, 5),
    ] {
        let fault = CatFault::BadRecord { spare: false, slot };
        assert_eq!(rt; opened_short(alloc, len)?, Err(fault), "{len} bytes");
    }
    assert_eq!(rt; opened_short(alloc, 98_304)?, Ok(2));
    Ok(())
}

#[test]
fn the_spare_disk_needs_the_header_of_the_site(rt: HostRuntime) -> Result<(), Fail> {
    let alloc = rt.alloc();
    let mut era = Era::first();
    let fault = CatFault::BadRecord {
        spare: true,
        slot: u32::MAX,
    };
    let (cat, _) = with_six_slots(alloc, &mut era)?;
    let blank = MemDisk::new(alloc, &era, Vec::new(alloc));
    assert_eq!(rt; opened(alloc, &era, cat, blank), Err(fault));
    let (cat, mut spare) = with_six_slots(alloc, &mut era)?;
    change(&mut spare, &era, 15, 101)?;
    assert_eq!(rt; opened(alloc, &era, cat, spare), Err(fault), "another site");
    Ok(())
}

#[test]
fn a_catalogue_is_formatted_once_its_header_is_open(rt: HostRuntime) -> Result<(), Fail> {
    let alloc = rt.alloc();
    let mut era = Era::first();
    let cat = MemDisk::new(alloc, &era, Vec::new(alloc));
    let spare = MemDisk::new(alloc, &era, Vec::new(alloc));
    let mut catalogue = Catalogue::new(alloc, cat, spare);
    let head = head(alloc)?;
    catalogue.format(&era, &head)?;
    let early = catalogue.open(&era);
    assert_eq!(rt; early.map(|_| ()), Err(CatFault::NotFormatted));
    era.next();
    catalogue.publish(&era, &head)?;
    let found = catalogue.open(&era)?;
    assert!(rt; is_head(&found));
    assert!(rt; catalogue.objects().is_empty());
    Ok(())
}

/// Formats a catalogue over the disks of another one, stops at a call, and opens an image that a crash leaves: how many
/// objects it has.
fn left_of_formatting(
    alloc: Global,
    call: u64,
    seed: u64,
) -> Result<Result<usize, CatFault>, Fail> {
    let mut era = Era::first();
    let (mut cat, spare) = with_six_slots(alloc, &mut era)?;
    era.next();
    cat.stop_at(call, 1);
    let mut catalogue = Catalogue::with_slots(alloc, cat, spare, 40);
    let _ = catalogue.format(&era, &head(alloc)?);
    let choice = Choice {
        calls: u64::MAX,
        seed,
    };
    let (cat, spare) = catalogue.into_disks();
    let cat = cat.crash(&era, &choice)?;
    let spare = spare.crash(&era, &choice)?;
    Ok(opened(alloc, &era, cat, spare))
}

#[test]
fn a_stop_within_the_formatting_leaves_no_half_of_it(rt: HostRuntime) -> Result<(), Fail> {
    let alloc = rt.alloc();
    let mut both = [false; 2];
    for call in 1..12 {
        for seed in 0..3 {
            let left = left_of_formatting(alloc, call, seed)?;
            let before = left == Ok(2);
            let none = left == Err(CatFault::NotFormatted);
            assert!(rt; before || none, "call {call}, seed {seed}: {left:?}");
            both = [both[0] || before, both[1] || none];
        }
    }
    assert_eq!(rt; both, [true, true]);
    Ok(())
}

/// What formatting comes to over a disk that fails, the spare one or the other.
fn failed_formatting(alloc: Global, spare_fails: bool) -> Result<Result<(), CatFault>, Fail> {
    let era = Era::first();
    let mut cat = MemDisk::new(alloc, &era, Vec::new(alloc));
    let mut spare = MemDisk::new(alloc, &era, Vec::new(alloc));
    if spare_fails {
        spare.stop_at(1, 0);
    } else {
        cat.stop_at(1, 0);
    }
    let mut catalogue = Catalogue::with_slots(alloc, cat, spare, 4);
    Ok(catalogue.format(&era, &head(alloc)?))
}

#[test]
fn a_failure_is_that_of_the_disk_that_failed(rt: HostRuntime) -> Result<(), Fail> {
    let alloc = rt.alloc();
    for spare in [true, false] {
        assert_eq!(rt;
            failed_formatting(alloc, spare)?,
            Err(CatFault::Failed { spare })
        );
    }
    let mut era = Era::first();
    let (mut cat, spare) = with_six_slots(alloc, &mut era)?;
    cat.stop_at(1, 0);
    let failed = opened(alloc, &era, cat, spare);
    assert_eq!(rt; failed, Err(CatFault::Failed { spare: false }));
    Ok(())
}

#[test]
fn a_commit_writes_its_slots_and_one_gate(rt: HostRuntime) -> Result<(), Fail> {
    let alloc = rt.alloc();
    let mut era = Era::first();
    let catalogue = formatted(alloc, &mut era, 40)?;
    let (cat, spare) = catalogue.into_disks();
    let written = cat.bytes_written();
    let mut catalogue = Catalogue::with_slots(alloc, cat, spare, 40);
    catalogue.open(&era)?;
    let ids = commit(alloc, &mut catalogue, &mut era, &[], &[])?;
    assert!(rt; ids.is_empty());
    commit(alloc, &mut catalogue, &mut era, &[1, 178], &[])?;
    catalogue.sync(&era)?;
    let (cat, _) = catalogue.into_disks();
    assert_eq!(rt; cat.bytes_written(), written.saturating_add(3 * 4096 + 1));
    Ok(())
}
