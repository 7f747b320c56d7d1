//! A step among the images.
ghost use Rattle.std.specs.Prelude.{◌≡◌, ◌≢◌, ◌↔◌, ℕ, ◌+◌, ◌*◌, ◌<◌, ◌≤◌, ◌^◌, List, None, Some, IsTrue, IfErr, IfSome, IsErrOf, OnOk};
ghost use Rattle.site_disk.specs.Bytes.{Same};
ghost use Rattle.site_disk.specs.Images.{Leaves, OnlyAfter, Unchanged};
ghost use Rattle.site_disk.specs.Ledger.{MayUse, Uses};
ghost use Rattle.site_disk.specs.Seen.{seen};
ghost use Rattle.before_images.specs.Saved.{place_of as page_place};
ghost use Rattle.lane_ways.specs.Pictures.{pages_at};
ghost use Rattle.lane_mark.specs.Layout.{FitsChain, FitsRestore};
ghost use Rattle.level_archive.specs.Image.{Entry};
ghost use Rattle.space_lane.specs.Chunks.{IsCount};
ghost use Rattle.space_lane.specs.Lanes.{IsMade, IsOpen, Stands, TellsOf, count_of, disk_of as chunk_of, space_of, state_of};
ghost use Rattle.object_volume.specs.Volumes.{disk_of, with_disk};
ghost use Rattle.lane_restore.specs.declared.job.ImageJob.{ImageJob as ImageView};
ghost use Rattle.lane_restore.specs.Images.{IsTaken, blocks_read, step_len};
ghost use Rattle.lane_restore.specs.Jobs.{EndsMerging, HasImages, IsJob, IsNext, IsOf, amid, amid_of};
ghost use Rattle.lane_restore.specs.Merging.{HoldsMerged};
ghost use Rattle.lane_restore.specs.Steps.{IsReady, MayMerge, behind_step};

use crate::images::{amid_of, place_of};
use crate::job::{ImageJob, LaneEnd, LaneJob};
use crate::marking::{behind_step, mark, mark_begun};
use crate::merging::merge;
use backup_lines::Chain;
use object_volume::Volume;
use site_disk::{Disk, Era};
use space_lane::Lane;

/// Merges the entries of one step of an image behind so many of them, and marks them.
fn step<D: Disk>(
    lane: &mut Lane<D>,
    volume: &mut Volume<D>,
    era: &Era,
    image: &ImageJob,
    pages: u32,
    restore: u64,
    chain: &Chain,
    entries: u32,
) -> Result<(), LaneEnd>
    requires chunk { MayUse era.now (D.ledger (chunk_of lane.old)) }
    requires volume { MayUse era.now (D.ledger (disk_of volume.old)) }
    requires opened { IsOpen lane.old }
    requires restore { FitsRestore restore }
    requires chain { FitsChain chain.now }
    requires state { IsOf restore chain.now (state_of lane.old) }
    requires place { amid_of (state_of lane.old) ≡ Some (amid image.now.head.level entries) }
    requires within { image.now.head.level < chain.now.len }
    requires space { image.now.head.space ≡ space_of lane.old }
    requires position { image.now.head.at ≤ 2 ^ 48 }
    requires few { pages ≤ 65536 }
    requires count { count_of lane.old ≡ pages }

    ensures made { IsMade lane.new }
    ensures space { space_of lane.new ≡ space_of lane.old }
    ensures volume { volume.new ≡ with_disk volume.old (disk_of volume.new) }
    ensures opened { OnOk result (IsOpen lane.new) }
    ensures told { OnOk result (TellsOf pages (behind_step restore chain.now image.now entries) lane.new) }
    ensures taken { IsTrue D.is_modelled → OnOk result (IsTaken image.now pages entries (D.bytes (disk_of volume.old))) }
    ensures unsound { IsTrue D.is_modelled → IsErrOf result (LaneEnd.Unsound image.now.head.level)
        → IsTaken image.now pages entries (D.bytes (disk_of volume.old)) → ⊥ }
    ensures ended { IfErr result (EndsMerging (D.ledger (chunk_of lane.old)).faults (D.ledger (chunk_of lane.new)).faults
        (D.ledger (disk_of volume.old)).faults (D.ledger (disk_of volume.new)).faults image.now.head.level) }
    ensures stands { IsTrue D.is_modelled → (site : ℕ) (images : List (List Entry))
        → IsReady site pages images image.now (D.bytes (disk_of volume.old)) (seen D.Disk (chunk_of lane.old)) lane.old
        → OnOk result (Stands site pages (behind_step restore chain.now image.now entries) (seen D.Disk (chunk_of lane.new)) lane.new) }
    ensures merged { IsTrue D.is_modelled → (site : ℕ) (images : List (List Entry))
        → IsReady site pages images image.now (D.bytes (disk_of volume.old)) (seen D.Disk (chunk_of lane.old)) lane.old
        → OnOk result (HoldsMerged site (space_of lane.old) pages images (behind_step restore chain.now image.now entries) (D.bytes (chunk_of lane.new))) }
    ensures durable { IsTrue D.is_modelled → OnOk result (OnlyAfter era.now.number (D.bytes (chunk_of lane.new)) (D.image (chunk_of lane.new))) }
    ensures crash { IsTrue D.is_modelled → (site : ℕ) (images : List (List Entry))
        → IsReady site pages images image.now (D.bytes (disk_of volume.old)) (seen D.Disk (chunk_of lane.old)) lane.old
        → Leaves era.now.number (MayMerge site (space_of lane.old) pages images (state_of lane.old) (behind_step restore chain.now image.now entries) chain.now)
        (D.image (chunk_of lane.old)) (D.image (chunk_of lane.new)) }
    ensures chunk { Uses era.now 4 (26118 + 256 * page_place pages_at pages) (D.ledger (chunk_of lane.old)) (D.ledger (chunk_of lane.new)) }
    ensures bound { IsTrue D.is_modelled → (site : ℕ) → Stands site pages (state_of lane.old) (seen D.Disk (chunk_of lane.old)) lane.old
        → (D.ledger (chunk_of lane.new)).written ≤ (D.ledger (chunk_of lane.old)).written + (4096 * step_len image.now.size entries + 518) }
    ensures bytes { OnOk result (D.bytes (disk_of volume.new) ≡ D.bytes (disk_of volume.old)) }
    ensures images { OnOk result (Unchanged (D.image (disk_of volume.old)) (D.image (disk_of volume.new))) }
    ensures volume_crash { Leaves era.now.number Same (D.image (disk_of volume.old)) (D.image (disk_of volume.new)) }
    ensures ledger { Uses era.now (4096 * blocks_read image.now.size entries) 0 (D.ledger (disk_of volume.old)) (D.ledger (disk_of volume.new)) }
{
    mark_begun(lane, era, chain)?;
    let merged = merge(lane, volume, era, image, pages, entries)?;
    mark(lane, era, &behind_step(restore, chain, image, merged))
}

/// Merges at most 256 entries of the next image, and marks them. It answers whether it merged any or ended an image: false where all
/// images are merged, and where the work ends here.
///
/// The call that ends the last image leaves the lane behind it, at the image's position.
pub fn step_image<D: Disk>(job: &mut LaneJob<D>, era: &Era, pages: u32) -> bool
    requires chunk { MayUse era.now (D.ledger (chunk_of job.old.lane)) }
    requires volume { MayUse era.now (D.ledger (disk_of job.old.volume)) }
    requires job { IsJob job.old }
    requires opened { IsOpen job.old.lane }
    requires state { IsOf job.old.restore job.old.chain (state_of job.old.lane) }
    requires images { HasImages job.old.chain (state_of job.old.lane) job.old.images.items }
    requires pages { IsCount pages }
    requires count { count_of job.old.lane ≡ pages }
    requires going { job.old.ended ≡ None }

    ensures job { job.new ≡ record job.old { lane = job.new.lane; volume = with_disk job.old.volume (disk_of job.new.volume); ended = job.new.ended } }
    ensures made { IsMade job.new.lane }
    ensures space { space_of job.new.lane ≡ space_of job.old.lane }
    ensures answer { IsTrue result ↔ ((amid_of (state_of job.old.lane) ≢ None) × (job.new.ended ≡ None)) }
    ensures behind { amid_of (state_of job.old.lane) ≡ None → job.new ≡ job.old }
    ensures opened { job.new.ended ≡ None → IsOpen job.new.lane }
    ensures told { (level entries : ℕ) (image : ImageView) → IsNext (state_of job.old.lane) job.old.images.items level entries image
        → job.new.ended ≡ None → TellsOf pages (behind_step job.old.restore job.old.chain image entries) job.new.lane }
    // The next call may follow.
    ensures state { job.new.ended ≡ None → IsOf job.old.restore job.old.chain (state_of job.new.lane) }
    ensures next { job.new.ended ≡ None → HasImages job.old.chain (state_of job.new.lane) job.old.images.items }
    ensures count { job.new.ended ≡ None → count_of job.new.lane ≡ pages }

    // Why it ends: the image's blocks, as they are read here, or a disk.
    ensures taken { IsTrue D.is_modelled → (level entries : ℕ) (image : ImageView) → IsNext (state_of job.old.lane) job.old.images.items level entries image
        → job.new.ended ≡ None → IsTaken image pages entries (D.bytes (disk_of job.old.volume)) }
    ensures unsound { IsTrue D.is_modelled → (level entries : ℕ) (image : ImageView) → IsNext (state_of job.old.lane) job.old.images.items level entries image
        → job.new.ended ≡ Some (LaneEnd.Unsound level) → IsTaken image pages entries (D.bytes (disk_of job.old.volume)) → ⊥ }
    ensures ended { (level entries : ℕ) (image : ImageView) → IsNext (state_of job.old.lane) job.old.images.items level entries image
        → IfSome job.new.ended (EndsMerging (D.ledger (chunk_of job.old.lane)).faults (D.ledger (chunk_of job.new.lane)).faults
        (D.ledger (disk_of job.old.volume)).faults (D.ledger (disk_of job.new.volume)).faults level) }

    // Where the image is on the volume with its entries.
    ensures stands { IsTrue D.is_modelled → (site level entries : ℕ) (image : ImageView) (images : List (List Entry))
        → IsNext (state_of job.old.lane) job.old.images.items level entries image
        → IsReady site pages images image (D.bytes (disk_of job.old.volume)) (seen D.Disk (chunk_of job.old.lane)) job.old.lane
        → job.new.ended ≡ None → Stands site pages (state_of job.new.lane) (seen D.Disk (chunk_of job.new.lane)) job.new.lane }
    ensures merged { IsTrue D.is_modelled → (site level entries : ℕ) (image : ImageView) (images : List (List Entry))
        → IsNext (state_of job.old.lane) job.old.images.items level entries image
        → IsReady site pages images image (D.bytes (disk_of job.old.volume)) (seen D.Disk (chunk_of job.old.lane)) job.old.lane
        → job.new.ended ≡ None → HoldsMerged site (space_of job.old.lane) pages images (state_of job.new.lane) (D.bytes (chunk_of job.new.lane)) }
    ensures durable { IsTrue D.is_modelled → amid_of (state_of job.old.lane) ≢ None
        → job.new.ended ≡ None → OnlyAfter era.now.number (D.bytes (chunk_of job.new.lane)) (D.image (chunk_of job.new.lane)) }
    // The state before it, amid the first image before any entry, or the state behind it.
    ensures crash { IsTrue D.is_modelled → (site level entries : ℕ) (image : ImageView) (images : List (List Entry))
        → IsNext (state_of job.old.lane) job.old.images.items level entries image
        → IsReady site pages images image (D.bytes (disk_of job.old.volume)) (seen D.Disk (chunk_of job.old.lane)) job.old.lane
        → Leaves era.now.number (MayMerge site (space_of job.old.lane) pages images (state_of job.old.lane)
        (behind_step job.old.restore job.old.chain image entries) job.old.chain) (D.image (chunk_of job.old.lane)) (D.image (chunk_of job.new.lane)) }

    // What it uses of the chunk and of the volume.
    ensures chunk { Uses era.now 4 (26118 + 256 * page_place pages_at pages) (D.ledger (chunk_of job.old.lane)) (D.ledger (chunk_of job.new.lane)) }
    ensures bound { IsTrue D.is_modelled → (site level entries : ℕ) (image : ImageView) → IsNext (state_of job.old.lane) job.old.images.items level entries image
        → Stands site pages (state_of job.old.lane) (seen D.Disk (chunk_of job.old.lane)) job.old.lane
        → (D.ledger (chunk_of job.new.lane)).written ≤ (D.ledger (chunk_of job.old.lane)).written + 4096 * (step_len image.size entries + 1) }
    ensures bytes { job.new.ended ≡ None → D.bytes (disk_of job.new.volume) ≡ D.bytes (disk_of job.old.volume) }
    ensures volume_images { job.new.ended ≡ None → Unchanged (D.image (disk_of job.old.volume)) (D.image (disk_of job.new.volume)) }
    ensures volume_crash { Leaves era.now.number Same (D.image (disk_of job.old.volume)) (D.image (disk_of job.new.volume)) }
    ensures ledger { Uses era.now (4096 * 257) 0 (D.ledger (disk_of job.old.volume)) (D.ledger (disk_of job.new.volume)) }
    ensures reads { (level entries : ℕ) (image : ImageView) → IsNext (state_of job.old.lane) job.old.images.items level entries image
        → (D.ledger (disk_of job.new.volume)).read ≤ (D.ledger (disk_of job.old.volume)).read + 4096 * blocks_read image.size entries }
{
    let Some((level, entries)) = amid_of(job.lane.state()) else {
        return false;
    };
    let Some(place) = place_of(&job.images, level) else {
        unreachable!()
    };
    let stepped = step(
        &mut job.lane,
        &mut job.volume,
        era,
        &job.images[place],
        pages,
        job.restore,
        &job.chain,
        entries,
    );
    match stepped {
        Ok(()) => true,
        Err(end) => {
            job.ended = Some(end);
            false
        }
    }
}
