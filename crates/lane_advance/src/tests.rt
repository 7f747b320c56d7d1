//! Chunks in memory, brought forward: 40 pages of space 1, none of them written.
ghost use Rattle.std.specs.Prelude.{◌≡◌, ◌<◌, ◌^◌};
ghost use Rattle.site_disk.specs.Ledger.{MayUse};
ghost use Rattle.site_disk.specs.MemDisk.{disk_ledger};

use crate::{advance, advance_step, place_in};
use backup_lines::LaneState;
use before_images::Images;
use lane_mark::decode;
use log_record::Text64;
use site_disk::{Choice, Era, Failed, MemDisk};
use std::alloc::Global;
use std::test::Fail;
use twin_mark::Mark;
use txn_table::Change;

const SPACE: u16 = 1;

const COUNT: u32 = 40;

const PAGES_AT: usize = 77_824;

// The byte of a chunk at position 0: the mark's first gate and the kind in its record, the space and the number of a page.
fn byte_at(at: usize) -> u8 {
    if at < PAGES_AT {
        return u8::from(at == 4096 || at == 4353);
    }
    match (at - PAGES_AT) % 4096 {
        9 => SPACE as u8,
        15 => ((at - PAGES_AT) / 4096 % 256) as u8,
        _ => 0,
    }
}

fn new_chunk(alloc: Global) -> Result<Vec<u8>, Fail> {
    let mut bytes = Vec::new(alloc);
    for at in 0..PAGES_AT + 4096 * COUNT as usize {
        bytes.push(byte_at(at))?;
    }
    Ok(bytes)
}

// The place that the mark stands at, and the value that knows its slot.
fn load(disk: &mut MemDisk, era: &Era, mark: &mut Mark) -> Result<(u64, u32), Failed>
    requires { MayUse era.now (disk_ledger disk.old) }
    ensures may { MayUse era.now (disk_ledger disk.new) }
    ensures base { mark.new.base ≡ mark.old.base }
{
    let mut record = [0; 255];
    if mark.load(disk, era, &mut record).is_err() {
        return Err(Failed);
    }
    match decode(&record) {
        Some(state) => place_in(&state).ok_or(Failed),
        None => Err(Failed),
    }
}

// Brings the chunk forward from the place of its mark, up to position 100.
fn forward(disk: &mut MemDisk, era: &Era, changes: &[Change]) -> Result<(), Failed>
    requires { MayUse era.now (disk_ledger disk.old) }
    ensures { MayUse era.now (disk_ledger disk.new) }
{
    let mut mark = Mark::new(4096);
    let mut images = Images::new(8192);
    let from = load(disk, era, &mut mark)?;
    let state = LaneState::At { upto: 0, part: 0 };
    advance(
        disk,
        era,
        &mut images,
        &mut mark,
        SPACE,
        COUNT,
        &state,
        from,
        100,
        changes,
    )
}

// A byte of a page.
fn page_byte(disk: &MemDisk, page: usize, at: usize) -> u8
    requires page { page < 2 ^ 32 }
    requires at { at < 4096 }
{
    *disk
        .bytes()
        .get(PAGES_AT + 4096 * page + at)
        .unwrap_or(&255)
}

// Changes by their commit, space, page, and the byte that is written at offset 1.
fn changes_of(alloc: Global, rows: &[(u64, u16, u32, u8)]) -> Result<Vec<Change>, Fail> {
    let mut changes = Vec::new(alloc);
    for (commit, space, page, byte) in rows {
        if let Some(bytes) = Text64::from_bytes(&[*byte]) {
            changes.push(Change {
                commit: *commit,
                space: *space,
                page: *page,
                offset: 1,
                bytes,
            })?;
        }
    }
    Ok(changes)
}

// Page 3 is written by three commits; the one at 7 writes nothing into this space.
static ROWS: [(u64, u16, u32, u8); 5] = [
    (5, 1, 3, 11),
    (7, 2, 3, 12),
    (9, 1, 3, 13),
    (12, 1, 0, 15),
    (12, 1, 3, 16),
];

#[test]
fn a_page_of_three_commits_takes_one_step(rt: HostRuntime) -> Result<(), Fail> {
    let alloc = rt.alloc();
    let era = Era::first();
    let changes = changes_of(alloc, &ROWS)?;
    let mut disk = MemDisk::new(alloc, &era, new_chunk(alloc)?);
    forward(&mut disk, &era, &changes)?;
    assert_eq!(rt; disk.bytes_written(), 2 * 8192 + 4353);
    assert_eq!(rt;
        (
            page_byte(&disk, 3, 7),
            page_byte(&disk, 3, 17),
            page_byte(&disk, 0, 7),
            page_byte(&disk, 1, 7)
        ),
        (12, 16, 12, 0)
    );
    let mut mark = Mark::new(4096);
    let place = load(&mut disk, &era, &mut mark)?;
    assert_eq!(rt; place, (100, 0));
    // It stands there already, and nothing is written.
    let before = disk.bytes_written();
    forward(&mut disk, &era, &changes)?;
    assert_eq!(rt; disk.bytes_written(), before);
    Ok(())
}

// One commit that writes all pages, behind one that is laid already and one of another space.
fn all_pages(alloc: Global) -> Result<Vec<Change>, Fail> {
    let mut changes = changes_of(alloc, &[(41, 2, 0, 7)])?;
    for page in 0..COUNT {
        if let Some(bytes) = Text64::from_bytes(&[9]) {
            changes.push(Change {
                commit: 42,
                space: SPACE,
                page,
                offset: 0,
                bytes,
            })?;
        }
    }
    Ok(changes)
}

// What a stop leaves.
#[derive(Clone, Copy)]
struct Left {
    // The place of the mark.
    place: (u64, u32),
    // Whether the write of the 17th page was begun.
    begun: bool,
    // How many pages at the front have the stamp once what is kept is put back.
    stamped: usize,
    // The place of the mark behind a second call.
    end: (u64, u32),
    // The stamp of the last page then.
    last: u8,
}

// Stops the work at a call, and brings forward what a crash leaves then.
fn left_after_stop(alloc: Global, changes: &[Change], call: u64, seed: u64) -> Result<Left, Fail> {
    let mut era = Era::first();
    let mut disk = MemDisk::new(alloc, &era, new_chunk(alloc)?);
    era.next();
    disk.stop_at(call, 4095);
    let _ = forward(&mut disk, &era, changes);
    let begun = page_byte(&disk, 16, 16) == 9;
    let choice = Choice {
        calls: u64::MAX,
        seed,
    };
    let mut left = disk.crash(&era, &choice)?;
    let mut mark = Mark::new(4096);
    let place = load(&mut left, &era, &mut mark)?;
    Images::new(8192).put_back(&mut left, &era, PAGES_AT as u64, COUNT, place)?;
    let mut stamped = 0;
    for page in 0..COUNT as usize {
        if page_byte(&left, page, 7) == 42 && stamped == page {
            stamped += 1;
        }
    }
    forward(&mut left, &era, changes)?;
    let end = load(&mut left, &era, &mut mark)?;
    Ok(Left {
        place,
        begun,
        stamped,
        end,
        last: page_byte(&left, 39, 7),
    })
}

#[test]
fn a_stop_leaves_a_cut(rt: HostRuntime) -> Result<(), Fail> {
    let alloc = rt.alloc();
    let changes = all_pages(alloc)?;
    let mut within = false;
    // The 17th page is written at one of the calls 88 to 92, and the second step ends at about call 128.
    for call in [1, 20, 60, 88, 89, 90, 91, 92, 110, 127, 135, 160] {
        let left = left_after_stop(alloc, &changes, call, 0)?;
        let place = left.place;
        let stamped = left.stamped;
        assert!(rt;
            (place, stamped) == ((0, 0), 0)
                || (place, stamped) == ((0, 16), 16)
                || (place, stamped) == ((0, 32), 32),
            "{stamped} pages at {}, {} at call {call}",
            place.0,
            place.1
        );
        if left.begun && place == (0, 16) {
            within = true;
        }
        assert_eq!(rt; (left.end, left.last), ((100, 0), 42), "call {call}");
    }
    assert!(rt; within, "no stop within the pages of the second step");
    Ok(())
}

// One step from the place of the mark, up to position 100: the place that it answers, and the one that the mark has then.
fn step_forward(
    disk: &mut MemDisk,
    era: &Era,
    changes: &[Change],
) -> Result<[(u64, u32); 2], Failed>
    requires { MayUse era.now (disk_ledger disk.old) }
    ensures { MayUse era.now (disk_ledger disk.new) }
{
    let mut mark = Mark::new(4096);
    let mut images = Images::new(8192);
    let from = load(disk, era, &mut mark)?;
    let state = LaneState::At { upto: 0, part: 0 };
    let place = advance_step(
        disk,
        era,
        &mut images,
        &mut mark,
        SPACE,
        COUNT,
        &state,
        from,
        100,
        changes,
    )?;
    let mut loaded = Mark::new(4096);
    Ok([place, load(disk, era, &mut loaded)?])
}

#[test]
fn steps_of_16_pages_come_to_the_position(rt: HostRuntime) -> Result<(), Fail> {
    let alloc = rt.alloc();
    let era = Era::first();
    let changes = all_pages(alloc)?;
    let mut disk = MemDisk::new(alloc, &era, new_chunk(alloc)?);
    assert_eq!(rt; step_forward(&mut disk, &era, &changes)?, [(0, 16); 2]);
    assert_eq!(rt; step_forward(&mut disk, &era, &changes)?, [(0, 32); 2]);
    assert_eq!(rt; step_forward(&mut disk, &era, &changes)?, [(100, 0); 2]);
    assert_eq!(rt; page_byte(&disk, 39, 7), 42);
    let before = disk.bytes_written();
    assert_eq!(rt; step_forward(&mut disk, &era, &changes)?, [(100, 0); 2]);
    assert_eq!(rt; disk.bytes_written(), before);
    Ok(())
}
