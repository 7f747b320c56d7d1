//! Steps on a chunk in memory: 40 pages of space 1, none of them written, at position 0.
ghost use Rattle.std.specs.Prelude.{◌≡◌, ◌≤◌, ◌<◌, ◌^◌, length};
ghost use Rattle.site_disk.specs.Ledger.{MayUse};
ghost use Rattle.site_disk.specs.MemDisk.{disk_ledger};

use crate::{Run, choose, move_place, step};
use before_images::Images;
use log_record::Text64;
use site_disk::{Choice, Era, Failed, MemDisk};
use std::alloc::Global;
use std::test::Fail;
use twin_mark::Mark;
use txn_table::Change;

const SPACE: u16 = 1;

const COUNT: u32 = 40;

const PAGES_AT: usize = 77_824;

// The byte of a chunk at a place: the mark's first gate and the kind in its record, the space and the number of a page.
fn byte_at(at: usize) -> u8 {
    if at < PAGES_AT {
        return u8::from(at == 4096 || at == 4353);
    }
    match (at - PAGES_AT) % 4096 {
        9 => SPACE as u8,
        15 => ((at - PAGES_AT) / 4096 % 256) as u8,
        _ => 0,
    }
}

fn new_chunk(alloc: Global) -> Result<Vec<u8>, Fail> {
    let mut bytes = Vec::new(alloc);
    for at in 0..PAGES_AT + 4096 * COUNT as usize {
        bytes.push(byte_at(at))?;
    }
    Ok(bytes)
}

// The record of the mark for a place.
fn record_of(place: (u64, u32)) -> [u8; 255] {
    let mut record = [0; 255];
    record[0] = 1;
    record[16..24].copy_from_slice(&place.0.to_be_bytes());
    record[24..28].copy_from_slice(&place.1.to_be_bytes());
    record
}

// The place that the mark stands at, and its value.
fn load(disk: &mut MemDisk, era: &Era, mark: &mut Mark) -> Result<(u64, u32), Failed>
    requires { MayUse era.now (disk_ledger disk.old) }
    ensures may { MayUse era.now (disk_ledger disk.new) }
    ensures base { mark.new.base ≡ mark.old.base }
{
    let mut record = [0; 255];
    if mark.load(disk, era, &mut record).is_err() {
        return Err(Failed);
    }
    let mut upto = [0; 8];
    upto.copy_from_slice(&record[16..24]);
    let mut part = [0; 4];
    part.copy_from_slice(&record[24..28]);
    Ok((u64::from_be_bytes(upto), u32::from_be_bytes(part)))
}

// One step of the changes that are left, behind a run, on the way to a position; how many are taken.
fn one_step(
    disk: &mut MemDisk,
    era: &Era,
    left: &[Change],
    run: Run,
    to: u64,
) -> Result<usize, Failed>
    requires { MayUse era.now (disk_ledger disk.old) }
    ensures { MayUse era.now (disk_ledger disk.new) }
{
    let mut mark = Mark::new(4096);
    let mut images = Images::new(8192);
    let from = load(disk, era, &mut mark)?;
    let mut pages = [0; 16];
    let chosen = choose(left, SPACE, COUNT, &mut pages);
    let taken = &left[..chosen.changes];
    let behind = &left[chosen.changes..];
    let place = run
        .with_laid(taken, SPACE, COUNT)
        .place(behind, SPACE, COUNT, to);
    let record = record_of(place);
    if chosen.pages == 0 {
        move_place(disk, era, &mut images, &mut mark, &record)?;
        return Ok(chosen.changes);
    }
    let pages = &pages[..chosen.pages];
    step(
        disk,
        era,
        &mut images,
        &mut mark,
        SPACE,
        COUNT,
        from,
        pages,
        taken,
        &record,
    )?;
    Ok(chosen.changes)
}

// A byte of a page.
fn page_byte(disk: &MemDisk, page: usize, at: usize) -> u8
    requires page { page < 2 ^ 32 }
    requires at { at < 4096 }
{
    *disk
        .bytes()
        .get(PAGES_AT + 4096 * page + at)
        .unwrap_or(&255)
}

// Changes by their commit, space, page, and the byte that is written at offset 1.
fn changes_of(alloc: Global, rows: &[(u64, u16, u32, u8)]) -> Result<Vec<Change>, Fail> {
    let mut changes = Vec::new(alloc);
    for (commit, space, page, byte) in rows {
        if let Some(bytes) = Text64::from_bytes(&[*byte]) {
            changes.push(Change {
                commit: *commit,
                space: *space,
                page: *page,
                offset: 1,
                bytes,
            })?;
        }
    }
    Ok(changes)
}

// Page 3 is written by three commits; the one between them writes nothing into this space, and page 40 isn't there.
static ROWS: [(u64, u16, u32, u8); 6] = [
    (5, 1, 3, 11),
    (7, 2, 3, 12),
    (9, 1, 3, 13),
    (9, 1, 40, 14),
    (12, 1, 0, 15),
    (12, 1, 3, 16),
];

#[test]
fn a_page_of_three_commits_takes_one_step(rt: HostRuntime) -> Result<(), Fail> {
    let alloc = rt.alloc();
    let era = Era::first();
    let changes = changes_of(alloc, &ROWS)?;
    let mut disk = MemDisk::new(alloc, &era, new_chunk(alloc)?);
    let taken = one_step(&mut disk, &era, &changes, Run::new(0), 20)?;
    assert_eq!(rt; taken, 6);
    assert_eq!(rt; disk.bytes_written(), 2 * 8192 + 4353);
    assert_eq!(rt;
        (
            page_byte(&disk, 3, 7),
            page_byte(&disk, 3, 17),
            page_byte(&disk, 0, 7),
            page_byte(&disk, 1, 7)
        ),
        (12, 16, 12, 0)
    );
    let mut mark = Mark::new(4096);
    let place = load(&mut disk, &era, &mut mark)?;
    assert_eq!(rt; place, (20, 0));
    let none = one_step(&mut disk, &era, &[], Run::new(20), 23)?;
    assert_eq!(rt; none, 0);
    let place = load(&mut disk, &era, &mut mark)?;
    assert_eq!(rt; place, (23, 0));
    Ok(())
}

// The place behind so many of the changes, on the way from position 3 to 20.
fn place_behind(changes: &[Change], taken: usize) -> (u64, u32) {
    let (taken, left) = changes.split_at(changes.len().min(taken));
    Run::new(3)
        .with_laid(taken, SPACE, COUNT)
        .place(left, SPACE, COUNT, 20)
}

#[test]
fn the_mark_names_the_last_commit_that_is_laid_whole(rt: HostRuntime) -> Result<(), Fail> {
    let changes = changes_of(rt.alloc(), &ROWS)?;
    for (taken, place) in [
        (0, (3, 0)),
        (1, (5, 0)),
        (3, (9, 0)),
        (5, (9, 1)),
        (6, (20, 0)),
    ] {
        assert_eq!(rt; place_behind(&changes, taken), place, "behind {taken}");
    }
    Ok(())
}

// One commit that writes all pages.
fn all_pages(alloc: Global) -> Result<Vec<Change>, Fail> {
    let mut changes = Vec::new(alloc);
    for page in 0..COUNT {
        if let Some(bytes) = Text64::from_bytes(&[9]) {
            changes.push(Change {
                commit: 42,
                space: SPACE,
                page,
                offset: 0,
                bytes,
            })?;
        }
    }
    Ok(changes)
}

// Stops a second step of 16 pages at a call; the place in an image that a crash leaves then, and how many pages at the front
// have the stamp once what is kept is put back.
fn left_after_stop(
    alloc: Global,
    chunk: &[u8],
    changes: &[Change],
    call: u64,
    bytes: usize,
    seed: u64,
) -> Result<((u64, u32), usize), Fail> {
    let mut era = Era::first();
    let mut disk = MemDisk::new(alloc, &era, Vec::from_slice(alloc, chunk)?);
    era.next();
    disk.stop_at(call, bytes);
    let (taken, left) = changes.split_at(changes.len().min(16));
    let run = Run::new(0).with_laid(taken, SPACE, COUNT);
    let _ = one_step(&mut disk, &era, left, run, 42);
    let choice = Choice {
        calls: u64::MAX,
        seed,
    };
    let mut left = disk.crash(&era, &choice)?;
    let mut mark = Mark::new(4096);
    let place = load(&mut left, &era, &mut mark)?;
    Images::new(8192).put_back(&mut left, &era, PAGES_AT as u64, COUNT, place)?;
    let mut stamped = 0;
    for page in 0..COUNT as usize {
        if page_byte(&left, page, 7) == 42 && stamped == page {
            stamped += 1;
        }
    }
    Ok((place, stamped))
}

// The calls of a step of 16 pages over kept ones: the mark read, the length, 16 pages read, the length, the gate read, closed
// and synced, the list and the images written, a sync, the gate, a sync, 16 pages read and written, a sync, and the seven or
// eight of the mark.
#[test]
fn a_stop_shows_the_place_before_a_step_or_behind_it(rt: HostRuntime) -> Result<(), Fail> {
    let alloc = rt.alloc();
    let era = Era::first();
    let changes = all_pages(alloc)?;
    let mut disk = MemDisk::new(alloc, &era, new_chunk(alloc)?);
    let taken = one_step(&mut disk, &era, &changes, Run::new(0), 42)?;
    assert_eq!(rt; taken, 16);
    for call in [
        1, 19, 22, 24, 26, 28, 29, 43, 58, 60, 62, 64, 65, 66, 67, 68, 70,
    ] {
        for (bytes, seed) in [(0, 0), (1, 1), (4095, 2)] {
            let (place, stamped) = left_after_stop(
                alloc,
                disk.bytes(),
                &changes,
                call,
                bytes,
                seed,
            )?;
            assert!(rt;
                (place, stamped) == ((0, 16), 16) || (place, stamped) == ((0, 32), 32),
                "{stamped} pages at {}, {} at call {call}, byte {bytes}, seed {seed}",
                place.0,
                place.1
            );
            // Within the first page's write and all others the mark is the one before.
            assert!(rt; call > 59 || place == (0, 16), "call {call}");
            assert!(rt; call < 70 || place == (0, 32), "call {call}");
        }
    }
    Ok(())
}
