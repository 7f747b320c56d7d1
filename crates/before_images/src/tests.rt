ghost use Rattle.std.specs.Prelude.{◌<◌, ◌^◌, IfOk};
ghost use Rattle.site_disk.specs.Ledger.{MayUse};
ghost use Rattle.site_disk.specs.MemDisk.{disk_ledger};

use crate::{Images, saved_pages_come_back};
use site_disk::{Choice, Disk, Era, Failed, MemDisk, extend_to};
use std::alloc::Global;
use std::test::Fail;

const BASE: u64 = 8;

const PAGES_AT: u64 = BASE + 69_632;

// Writes a page of one byte over and over, where the disk reaches it.
fn fill_page(disk: &mut MemDisk, era: &Era, page: u64, byte: u8) -> Result<(), Failed>
    requires era { MayUse era.now (disk_ledger disk.old) }
    requires page { page < 2 ^ 32 }
    ensures { MayUse era.now (disk_ledger disk.new) }
{
    let at = PAGES_AT + 4096 * page;
    if disk.len()? >= at {
        disk.write_at(era, at, &[byte; 4096])?;
    }
    Ok(())
}

// The last byte of a page, 255 where the disk ends before it.
fn last_byte(disk: &MemDisk, page: usize) -> u8
    requires { page < 2 ^ 32 }
{
    *disk
        .bytes()
        .get(PAGES_AT as usize + 4096 * page + 4095)
        .unwrap_or(&255)
}

// A disk of 17 pages, page 3 filled with 13 and page 16 with 26.
fn disk_of_pages(alloc: Global, era: &Era) -> Result<MemDisk, Fail>
    ensures { IfOk result (λ disk. MayUse era.now (disk_ledger disk)) }
{
    let mut disk = MemDisk::new(alloc, era, Vec::new(alloc));
    extend_to(&mut disk, era, PAGES_AT + 17 * 4096)?;
    fill_page(&mut disk, era, 3, 13)?;
    fill_page(&mut disk, era, 16, 26)?;
    Ok(disk)
}

static SAVED: [u32; 16] = [16, 3, 0, 1, 2, 4, 5, 6, 7, 8, 9, 10, 11, 12, 13, 14];

#[test]
fn saved_pages_are_put_back(rt: HostRuntime) -> Result<(), Fail> {
    saved_pages_come_back();
    let era = Era::first();
    let mut disk = disk_of_pages(rt.alloc(), &era)?;
    let mut images = Images::new(BASE);
    assert_eq!(rt;
        images.put_back(&mut disk, &era, PAGES_AT, 17, (7, 2)),
        Ok(false)
    );
    assert_eq!(rt;
        images.save(&mut disk, &era, PAGES_AT, (7, 2), &SAVED),
        Ok(())
    );
    fill_page(&mut disk, &era, 3, 99)?;
    fill_page(&mut disk, &era, 16, 99)?;
    assert_eq!(rt;
        images.put_back(&mut disk, &era, PAGES_AT, 17, (7, 3)),
        Ok(false)
    );
    assert_eq!(rt;
        images.put_back(&mut disk, &era, PAGES_AT, 16, (7, 2)),
        Ok(false)
    );
    assert_eq!(rt; last_byte(&disk, 3), 99);
    assert_eq!(rt;
        images.put_back(&mut disk, &era, PAGES_AT, 17, (7, 2)),
        Ok(true)
    );
    assert_eq!(rt;
        images.put_back(&mut disk, &era, PAGES_AT, 17, (7, 2)),
        Ok(true)
    );
    assert_eq!(rt; (last_byte(&disk, 3), last_byte(&disk, 16)), (13, 26));
    Ok(())
}

#[test]
fn dropped_pages_are_not_put_back(rt: HostRuntime) -> Result<(), Fail> {
    let era = Era::first();
    let mut disk = disk_of_pages(rt.alloc(), &era)?;
    let mut images = Images::new(BASE);
    images.save(&mut disk, &era, PAGES_AT, (7, 2), &SAVED)?;
    assert_eq!(rt; images.drop_all(&mut disk, &era), Ok(()));
    assert_eq!(rt; images.drop_all(&mut disk, &era), Ok(()));
    assert_eq!(rt;
        images.put_back(&mut disk, &era, PAGES_AT, 17, (7, 2)),
        Ok(false)
    );
    Ok(())
}

#[test]
fn a_failing_disk_fails_each_call(rt: HostRuntime) -> Result<(), Fail> {
    let alloc = rt.alloc();
    let era = Era::first();
    let mut disk = disk_of_pages(alloc, &era)?;
    let mut images = Images::new(BASE);
    disk.fail_at(Vec::from_slice(alloc, &[1, 2, 3])?);
    assert_eq!(rt;
        images.save(&mut disk, &era, PAGES_AT, (7, 2), &[1]),
        Err(Failed)
    );
    assert_eq!(rt;
        images.put_back(&mut disk, &era, PAGES_AT, 17, (7, 2)),
        Err(Failed)
    );
    assert_eq!(rt; images.drop_all(&mut disk, &era), Err(Failed));
    Ok(())
}

// One byte of a list of the pages 0 and 1 for the place (5, 2), and whether it is put back below page 4.
static LISTS: [(usize, u8, bool); 16] = [
    (0, 1, true),
    (0, 9, true),
    (0, 0, false),
    (1, 1, false),
    (23, 6, false),
    (27, 3, false),
    (31, 0, false),
    (31, 1, false),
    (31, 17, false),
    (28, 1, false),
    (35, 1, false),
    (39, 3, true),
    (39, 4, false),
    (39, 0, false),
    (40, 1, false),
    (4095, 1, false),
];

fn is_put_back(alloc: Global, at: usize, byte: u8, len: u64) -> Result<bool, Fail> {
    let era = Era::first();
    let mut list = [0; 4096];
    for (place, value) in [(0, 1), (23, 5), (27, 2), (31, 2), (39, 1), (at, byte)] {
        if let Some(known) = list.get_mut(place) {
            *known = value;
        }
    }
    let mut disk = MemDisk::new(alloc, &era, Vec::from_slice(alloc, &list)?);
    extend_to(&mut disk, &era, len)?;
    Ok(Images::new(0).put_back(&mut disk, &era, 69_632, 4, (5, 2))?)
}

#[test]
fn a_list_outside_of_the_grammar_is_refused(rt: HostRuntime) -> Result<(), Fail> {
    let alloc = rt.alloc();
    for (at, byte, wanted) in LISTS {
        assert_eq!(rt;
            is_put_back(alloc, at, byte, 3 * 4096)?,
            wanted,
            "byte {at} as {byte}"
        );
    }
    Ok(())
}

#[test]
fn a_list_whose_images_are_cut_off_is_refused(rt: HostRuntime) -> Result<(), Fail> {
    let alloc = rt.alloc();
    for len in [4096, 8192, 3 * 4096 - 1] {
        assert_eq!(rt; is_put_back(alloc, 0, 1, len)?, false, "{len} bytes");
    }
    Ok(())
}

// Saves pages 0 and 2, and stops a save of page 1 at a call; whether a crash then leaves the first, and the second, and
// page 1 once it was written over and the second was put back.
fn left_after_stop(
    alloc: Global,
    call: u64,
    bytes: usize,
    seed: u64,
) -> Result<(bool, bool, u8), Fail> {
    let mut era = Era::first();
    let mut disk = MemDisk::new(alloc, &era, Vec::new(alloc));
    let mut images = Images::new(BASE);
    extend_to(&mut disk, &era, PAGES_AT + 3 * 4096)?;
    fill_page(&mut disk, &era, 1, 11)?;
    images.save(&mut disk, &era, PAGES_AT, (1, 0), &[0, 2])?;
    era.next();
    disk.stop_at(call, bytes);
    let _ = images.save(&mut disk, &era, PAGES_AT, (1, 1), &[1]);
    let choice = Choice {
        calls: u64::MAX,
        seed,
    };
    let mut left = disk.crash(&era, &choice)?;
    fill_page(&mut left, &era, 1, 99)?;
    let first = images.put_back(&mut left, &era, PAGES_AT, 3, (1, 0))?;
    let second = images.put_back(&mut left, &era, PAGES_AT, 3, (1, 1))?;
    Ok((first, second, last_byte(&left, 1)))
}

// The calls of a save of one page: the page read, the length, the gate read, closed and synced, the list and the image
// written, a sync, the gate, a sync.
#[test]
fn a_stop_leaves_one_set_or_none(rt: HostRuntime) -> Result<(), Fail> {
    let alloc = rt.alloc();
    for call in 1..11 {
        for bytes in [0, 1, 4095, 8191] {
            for seed in 0..4 {
                let (first, second, page) = left_after_stop(alloc, call, bytes, seed)?;
                assert!(rt; !first || !second, "call {call}, byte {bytes}, seed {seed}");
                assert!(rt;
                    page == if second { 11 } else { 99 },
                    "page {page} at call {call}, byte {bytes}, seed {seed}"
                );
                assert!(rt; call > 3 || first, "call {call}, byte {bytes}, seed {seed}");
                assert!(rt;
                    call < 10 || second,
                    "call {call}, byte {bytes}, seed {seed}"
                );
            }
        }
    }
    Ok(())
}
