//! Calls of a job that what it holds allows.
ghost use Rattle.std.specs.Prelude.{◌≡◌, ◌<◌, ◌≤◌, ◌^◌, ◌↔◌, ℕ, None, IsSome, IsTrue, OnOk};
ghost use Rattle.std.specs.List.{AllByRecursion};
ghost use Rattle.site_disk.specs.Ledger.{MayUse};
ghost use Rattle.site_disk.specs.MemDisk.{disk_ledger};
ghost use Rattle.space_lane.specs.Chunks.{IsCount};
ghost use Rattle.space_lane.specs.Lanes.{IsMade, IsOpen, count_of, disk_of as chunk_of, space_of, state_of};
ghost use Rattle.object_volume.specs.Volumes.{disk_of};
ghost use Rattle.lane_restore.specs.Jobs.{IsJob, IsOf, image_of};

use crate::jobs::SPACE;
use lane_mark::is_lane;
use lane_restore::{ImageJob, LaneJob, LaneState, prepare, step_image};
use site_disk::{Era, Failed, MemDisk};

/// The greatest position.
const MAX: u64 = 1 << 48;

fn are_sound(images: &[ImageJob]) -> bool
    ensures { IsTrue result → AllByRecursion (λ image. (image.head.space ≡ SPACE) × (image.head.at ≤ 2 ^ 48)) images.now }
{
    images
        .iter()
        .all(|image| image.head.space == SPACE && image.head.at <= MAX)
}

fn is_sound(job: &LaneJob<MemDisk>) -> bool
    requires { space_of job.now.lane ≡ SPACE }
    ensures { IsTrue result → IsJob job.now }
{
    let state = LaneState::Replay {
        restore: job.restore,
        chain: job.chain,
        upto: job.to,
        part: 0,
    };
    is_lane(&state) && are_sound(&job.images)
}

fn is_own(job: &LaneJob<MemDisk>) -> bool
    requires { IsOpen job.now.lane }
    ensures { IsTrue result → IsOf job.now.restore job.now.chain (state_of job.now.lane) }
{
    match *job.lane.state() {
        LaneState::At { .. } => false,
        LaneState::Blank { restore } => restore == job.restore,
        LaneState::Image { restore, chain, .. } | LaneState::Replay { restore, chain, .. } => {
            restore == job.restore && chain == job.chain
        }
    }
}

fn has_image(images: &[ImageJob], level: u8) -> bool
    ensures { IsTrue result → IsSome (image_of level images.now) }
{
    for image in images {
        if image.head.level == level {
            return true;
        }
    }
    false
}

fn has_images(images: &[ImageJob], len: u8) -> bool
    ensures { IsTrue result → (level : ℕ) → level < len → IsSome (image_of level images.now) }
{
    for level in 0..len {
        if !has_image(images, level) {
            return false;
        }
    }
    true
}

/// Empties the lane of a job.
pub(crate) fn empty(
    job: &mut LaneJob<MemDisk>,
    era: &Era,
    site: u64,
    pages: u32,
) -> Result<(), Failed>
    requires may { MayUse era.now (disk_ledger (chunk_of job.old.lane)) }
    requires made { IsMade job.old.lane }
    requires space { space_of job.old.lane ≡ SPACE }
    requires pages { IsCount pages }
    requires going { job.old.ended ≡ None }
    ensures may { MayUse era.now (disk_ledger (chunk_of job.new.lane)) }
    ensures volume { job.new.volume ≡ job.old.volume }
    ensures space { space_of job.new.lane ≡ SPACE }
    ensures opened { job.new.ended ≡ None → OnOk result (IsOpen job.new.lane) }
    ensures count { job.new.ended ≡ None → OnOk result (count_of job.new.lane ≡ pages) }
{
    if !is_sound(job) {
        return Err(Failed);
    }
    prepare(job, era, site, pages);
    Ok(())
}

/// One step among the images; none where the work has ended.
pub(crate) fn step(job: &mut LaneJob<MemDisk>, era: &Era, pages: u32) -> Result<bool, Failed>
    requires may { MayUse era.now (disk_ledger (chunk_of job.old.lane)) }
    requires volume { MayUse era.now (disk_ledger (disk_of job.old.volume)) }
    requires space { space_of job.old.lane ≡ SPACE }
    requires pages { IsCount pages }
    requires opened { job.old.ended ≡ None → IsOpen job.old.lane }
    requires count { job.old.ended ≡ None → count_of job.old.lane ≡ pages }
    ensures may { MayUse era.now (disk_ledger (chunk_of job.new.lane)) }
    ensures volume { MayUse era.now (disk_ledger (disk_of job.new.volume)) }
    ensures space { space_of job.new.lane ≡ SPACE }
    ensures opened { job.new.ended ≡ None → IsOpen job.new.lane }
    ensures count { job.new.ended ≡ None → count_of job.new.lane ≡ pages }
{
    if job.ended.is_some() {
        return Ok(false);
    }
    if !is_sound(job) || !is_own(job) || !has_images(&job.images, job.chain.len) {
        return Err(Failed);
    }
    Ok(step_image(job, era, pages))
}

/// One step among the images, and the state behind it. None where there is no step to make, and where the work ended.
pub(crate) fn stepped(
    job: &mut LaneJob<MemDisk>,
    era: &Era,
    pages: u32,
) -> Result<Option<LaneState>, Failed>
    requires may { MayUse era.now (disk_ledger (chunk_of job.old.lane)) }
    requires volume { MayUse era.now (disk_ledger (disk_of job.old.volume)) }
    requires space { space_of job.old.lane ≡ SPACE }
    requires pages { IsCount pages }
    requires opened { job.old.ended ≡ None → IsOpen job.old.lane }
    requires count { job.old.ended ≡ None → count_of job.old.lane ≡ pages }
    ensures may { MayUse era.now (disk_ledger (chunk_of job.new.lane)) }
    ensures volume { MayUse era.now (disk_ledger (disk_of job.new.volume)) }
    ensures space { space_of job.new.lane ≡ SPACE }
    ensures opened { job.new.ended ≡ None → IsOpen job.new.lane }
    ensures count { job.new.ended ≡ None → count_of job.new.lane ≡ pages }
{
    if !step(job, era, pages)? {
        return Ok(None);
    }
    match job.ended {
        None => Ok(Some(*job.lane.state())),
        Some(_) => Ok(None),
    }
}

/// Merges all images, and answers in how many steps: nine at most.
pub(crate) fn merge_all(job: &mut LaneJob<MemDisk>, era: &Era, pages: u32) -> Result<u32, Failed>
    requires may { MayUse era.now (disk_ledger (chunk_of job.old.lane)) }
    requires volume { MayUse era.now (disk_ledger (disk_of job.old.volume)) }
    requires space { space_of job.old.lane ≡ SPACE }
    requires pages { IsCount pages }
    requires opened { job.old.ended ≡ None → IsOpen job.old.lane }
    requires count { job.old.ended ≡ None → count_of job.old.lane ≡ pages }
    ensures may { MayUse era.now (disk_ledger (chunk_of job.new.lane)) }
    ensures volume { MayUse era.now (disk_ledger (disk_of job.new.volume)) }
    ensures space { space_of job.new.lane ≡ SPACE }
    ensures opened { job.new.ended ≡ None → IsOpen job.new.lane }
    ensures count { job.new.ended ≡ None → count_of job.new.lane ≡ pages }
{
    for made in 0..9 {
        if !step(job, era, pages)? {
            return Ok(made);
        }
    }
    Ok(9)
}
