//! Images merged one above another, stopped, and blocks that changed since they were checked.
ghost use Rattle.std.specs.Prelude.{◌≡◌, ◌^◌, None, IfOk};
ghost use Rattle.site_disk.specs.Ledger.{MayUse};
ghost use Rattle.site_disk.specs.MemDisk.{disk_ledger};
ghost use Rattle.space_lane.specs.Lanes.{IsOpen, count_of, disk_of as chunk_of, space_of};
ghost use Rattle.object_volume.specs.Volumes.{disk_of};

use crate::calls::merge_all;
use crate::jobs::{SITE, SPACE, amid, behind, job_over, page_block, prepared, volume_bytes};
use lane_restore::{LaneEnd, LaneJob, LaneState};
use object_volume::Volume;
use site_disk::{Choice, Era, MemDisk};
use space_lane::Lane;
use std::alloc::Global;
use std::test::Fail;

const PAGES: u32 = 4;

// Page 1 is in all images, and page 0 in the first and the last.
static CHAIN: [(u64, &[(u32, u64)]); 3] = [
    (12, &[(0, 3), (1, 6), (2, 9), (3, 12)]),
    (15, &[(1, 15)]),
    (18, &[(0, 18), (1, 18)]),
];

// The stamps of the pages, 0 for one that isn't as its image has it.
fn stamps(job: &mut LaneJob<MemDisk>, era: &Era) -> Result<[u64; 4], Fail>
    requires may { MayUse era.now (disk_ledger (chunk_of job.old.lane)) }
    requires count { count_of job.old.lane ≡ PAGES }
{
    let mut stamps = [0; 4];
    let mut block = [0; 4096];
    for page in 0..PAGES {
        job.lane.read_page(era, page, &mut block)?;
        let stamp = u64::from(block[7]);
        if block == page_block(page, stamp) {
            stamps[page as usize] = stamp;
        }
    }
    Ok(stamps)
}

#[test]
fn later_images_lie_above_earlier_ones(rt: HostRuntime) -> Result<(), Fail> {
    let alloc = rt.alloc();
    let era = Era::first();
    let mut job = prepared(alloc, &era, PAGES, &CHAIN, 18)?;
    assert_eq!(rt; merge_all(&mut job, &era, PAGES)?, 3);
    assert_eq!(rt; job.ended, None);
    assert_eq!(rt; *job.lane.state(), behind(18, job.chain));
    assert_eq!(rt; stamps(&mut job, &era)?, [18, 18, 9, 12]);
    Ok(())
}

// A job over a chunk that is opened.
fn opened(alloc: Global, era: &Era, disk: MemDisk) -> Result<LaneJob<MemDisk>, Fail>
    requires { MayUse era.now (disk_ledger disk) }
    ensures may { IfOk result (λ job. MayUse era.now (disk_ledger (chunk_of job.lane))) }
    ensures volume { IfOk result (λ job. MayUse era.now (disk_ledger (disk_of job.volume))) }
    ensures space { IfOk result (λ job. space_of job.lane ≡ SPACE) }
    ensures opened { IfOk result (λ job. IsOpen job.lane) }
    ensures count { IfOk result (λ job. count_of job.lane ≡ PAGES) }
{
    let mut lane = Lane::new(disk, SPACE);
    lane.open(era, SITE, PAGES)?;
    job_over(alloc, era, lane, &CHAIN, 18)
}

// The merging of the chain over a chunk, as far as it gets: how it ended, and the chunk.
fn merged(alloc: Global, era: &Era, disk: MemDisk) -> Result<(Option<LaneEnd>, MemDisk), Fail>
    requires { MayUse era.now (disk_ledger disk) }
    ensures { IfOk result (λ left. MayUse era.now (disk_ledger left.1)) }
{
    let mut job = opened(alloc, era, disk)?;
    merge_all(&mut job, era, PAGES)?;
    Ok((job.ended, job.lane.into_disk()))
}

// What a crash leaves of a merging that was stopped at a call of the chunk, and the era of it.
fn left_after_stop(alloc: Global, call: u64, seed: u64) -> Result<(Era, MemDisk), Fail>
    ensures { IfOk result (λ left. MayUse left.0 (disk_ledger left.1)) }
{
    let mut era = Era::first();
    let job = prepared(alloc, &era, PAGES, &CHAIN, 18)?;
    let mut disk = job.lane.into_disk();
    era.next();
    disk.stop_at(call, 2000);
    let (_ended, disk) = merged(alloc, &era, disk)?;
    let choice = Choice {
        calls: u64::MAX,
        seed,
    };
    let left = disk.crash(&era, &choice)?;
    Ok((era, left))
}

// Which of five states a lane is in: emptied, amid one of three images, or behind them.
fn place(state: LaneState) -> usize {
    match state {
        LaneState::Blank { .. } => 0,
        LaneState::Image { image, .. } => 1 + usize::from(image),
        LaneState::At { .. } | LaneState::Replay { .. } => 4,
    }
}

#[test]
fn a_stopped_merge_goes_on_from_its_mark(rt: HostRuntime) -> Result<(), Fail> {
    let alloc = rt.alloc();
    let mut seen = [false; 5];
    // The opening takes the first few calls.
    for call in 8..60 {
        for seed in 0..2 {
            let (era, left) = left_after_stop(alloc, call, seed)?;
            let mut job = opened(alloc, &era, left)?;
            if let Some(it) = seen.get_mut(place(*job.lane.state())) {
                *it = true;
            }
            merge_all(&mut job, &era, PAGES)?;
            assert_eq!(rt; job.ended, None);
            let left = stamps(&mut job, &era)?;
            assert_eq!(rt; left, [18, 18, 9, 12], "at call {call}, seed {seed}");
        }
    }
    assert_eq!(rt; seen, [true; 5]);
    Ok(())
}

// The chain's images on a volume with one byte changed, cut off.
fn changed(alloc: Global, at: usize, byte: u8, len: usize) -> Result<Vec<u8>, Fail> {
    let mut bytes = volume_bytes(alloc, &CHAIN)?;
    if let Some(it) = bytes.get_mut(at) {
        *it = byte;
    }
    bytes.truncate(len);
    Ok(bytes)
}

#[test]
fn a_changed_block_is_named(rt: HostRuntime) -> Result<(), Fail> {
    let alloc = rt.alloc();
    // The stamp of the second image's entry is the position that it builds on; a volume that ends within the last image.
    for (at, byte, len, steps) in [(4096 * 7 + 7, 12, 4096 * 10, 1), (0, 0, 4096 * 10 - 1, 2)] {
        let era = Era::first();
        let mut job = prepared(alloc, &era, PAGES, &CHAIN, 18)?;
        let disk = MemDisk::new(alloc, &era, changed(alloc, at, byte, len)?);
        job.volume = Volume::new(alloc, disk, SPACE);
        assert_eq!(rt; merge_all(&mut job, &era, PAGES)?, steps);
        assert_eq!(rt; job.ended, Some(LaneEnd::Unsound { image: steps as u8 }));
    }
    Ok(())
}
