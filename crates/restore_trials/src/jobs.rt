//! Jobs over chunks and volumes in memory.
ghost use Rattle.std.specs.Prelude.{◌≡◌, None, IfOk};
ghost use Rattle.site_disk.specs.Ledger.{MayUse};
ghost use Rattle.site_disk.specs.MemDisk.{disk_ledger};
ghost use Rattle.space_lane.specs.Chunks.{IsCount};
ghost use Rattle.space_lane.specs.Lanes.{IsOpen, count_of, disk_of as chunk_of, space_of};
ghost use Rattle.object_volume.specs.Volumes.{disk_of};

use crate::calls::empty;
use block_chain::Run;
use lane_restore::{Chain, ImageJob, LaneJob, LaneState};
use level_archive::ImageHead;
use object_volume::Volume;
use site_disk::{Era, MemDisk};
use space_lane::Lane;
use std::alloc::Global;
use std::test::Fail;

/// The site and the space of all jobs here, and the restore.
pub(crate) const SITE: u64 = 7;

pub(crate) const SPACE: u16 = 2;

pub(crate) const RESTORE: u64 = 4;

/// The images of a chain by the position of each, and its entries by their page and stamp.
pub(crate) type Images<'a> = &'a [(u64, &'a [(u32, u64)])];

/// The block of a page, filled with its stamp but for its head.
pub(crate) fn page_block(page: u32, stamp: u64) -> [u8; 4096] {
    let mut block = [(stamp % 251) as u8; 4096];
    block[0..8].copy_from_slice(&stamp.to_be_bytes());
    block[8..10].copy_from_slice(&SPACE.to_be_bytes());
    block[10..12].copy_from_slice(&[0; 2]);
    block[12..16].copy_from_slice(&page.to_be_bytes());
    block
}

fn head_of(level: u8, at: u64, base: u64) -> ImageHead {
    ImageHead {
        site: SITE,
        space: SPACE,
        level,
        at,
        base,
    }
}

/// What the volume holds: a page for its header, and the images one behind another.
pub(crate) fn volume_bytes(alloc: Global, images: Images<'_>) -> Result<Vec<u8>, Fail> {
    let mut bytes = Vec::from_slice(alloc, &[0; 4096])?;
    let mut base = 0;
    let mut level: u8 = 0;
    for (at, entries) in images {
        let mut block = [0; 4096];
        head_of(level, *at, base).encode_into(&mut block);
        bytes.extend_from_slice(&block)?;
        for (page, stamp) in entries.iter() {
            bytes.extend_from_slice(&page_block(*page, *stamp))?;
        }
        base = *at;
        level = level.wrapping_add(1);
    }
    Ok(bytes)
}

/// The images as a job has them.
fn image_jobs(alloc: Global, images: Images<'_>) -> Result<Vec<ImageJob>, Fail> {
    let mut jobs = Vec::new(alloc);
    let mut base = 0;
    let mut level: u8 = 0;
    let mut first: u32 = 0;
    for (at, entries) in images {
        let count = u32::try_from(entries.len()).unwrap_or(0).wrapping_add(1);
        jobs.push(ImageJob {
            head: head_of(level, *at, base),
            size: 4096 * u64::from(count),
            digest: [0; 32],
            runs: Vec::from_slice(alloc, &[Run { first, count }])?,
        })?;
        base = *at;
        first = first.wrapping_add(count);
        level = level.wrapping_add(1);
    }
    Ok(jobs)
}

/// A chain of so many archives.
pub(crate) fn chain_of(len: usize) -> Chain {
    match len {
        1 => Chain {
            len: 1,
            copies: [10, 0, 0],
        },
        2 => Chain {
            len: 2,
            copies: [10, 11, 0],
        },
        _ => Chain {
            len: 3,
            copies: [10, 11, 12],
        },
    }
}

/// A job of a lane, with its volume.
pub(crate) fn job_over(
    alloc: Global,
    era: &Era,
    lane: Lane<MemDisk>,
    images: Images<'_>,
    to: u64,
) -> Result<LaneJob<MemDisk>, Fail>
    ensures lane { IfOk result (λ job. job.lane ≡ lane) }
    ensures volume { IfOk result (λ job. MayUse era.now (disk_ledger (disk_of job.volume))) }
    ensures going { IfOk result (λ job. job.ended ≡ None) }
{
    let volume = MemDisk::new(alloc, era, volume_bytes(alloc, images)?);
    Ok(LaneJob {
        lane,
        volume: Volume::new(alloc, volume, SPACE),
        restore: RESTORE,
        chain: chain_of(images.len()),
        images: image_jobs(alloc, images)?,
        changes: Vec::new(alloc),
        to,
        ended: None,
    })
}

/// A job whose lane is emptied.
pub(crate) fn prepared(
    alloc: Global,
    era: &Era,
    pages: u32,
    images: Images<'_>,
    to: u64,
) -> Result<LaneJob<MemDisk>, Fail>
    requires { IsCount pages }
    ensures may { IfOk result (λ job. MayUse era.now (disk_ledger (chunk_of job.lane))) }
    ensures volume { IfOk result (λ job. MayUse era.now (disk_ledger (disk_of job.volume))) }
    ensures space { IfOk result (λ job. space_of job.lane ≡ SPACE) }
    ensures opened { IfOk result (λ job. job.ended ≡ None → IsOpen job.lane) }
    ensures count { IfOk result (λ job. job.ended ≡ None → count_of job.lane ≡ pages) }
{
    let lane = Lane::new(MemDisk::new(alloc, era, Vec::new(alloc)), SPACE);
    let mut job = job_over(alloc, era, lane, images, to)?;
    empty(&mut job, era, SITE, pages)?;
    Ok(job)
}

/// The state amid an image.
pub(crate) fn amid(image: u8, entries: u32, chain: Chain) -> LaneState {
    LaneState::Image {
        restore: RESTORE,
        chain,
        image,
        entries,
    }
}

/// The state behind all images.
pub(crate) fn behind(upto: u64, chain: Chain) -> LaneState {
    LaneState::Replay {
        restore: RESTORE,
        chain,
        upto,
        part: 0,
    }
}
