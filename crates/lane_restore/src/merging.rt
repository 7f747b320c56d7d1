//! The entries of an image, merged into the pages of its lane.
ghost use Rattle.std.specs.Prelude.{◌≡◌, ℕ, ◌+◌, ◌*◌, ◌≤◌, List, [], true, length, IsTrue, IfErr, IfNone, IfOk, IfSome, IsErrOf, OnOk};
ghost use Rattle.site_disk.specs.Bytes.{Same, Torn};
ghost use Rattle.site_disk.specs.Images.{Leaves, Unchanged};
ghost use Rattle.site_disk.specs.Ledger.{MayUse, Uses};
ghost use Rattle.log_history.specs.Effects.{Page};
ghost use Rattle.before_images.specs.Saved.{place_of};
ghost use Rattle.backup_lines.specs.declared.lanes.LaneState.{LaneState as StateView};
ghost use Rattle.lane_ways.specs.Pictures.{pages_at};
ghost use Rattle.level_archive.specs.Image.{Entry};
ghost use Rattle.level_archive.specs.Reading.{Gives, HasEntry, HasRead};
ghost use Rattle.space_lane.specs.Lanes.{Agrees, count_of, disk_of as chunk_of, space_of, with_disk as with_chunk};
ghost use Rattle.object_volume.specs.Cursors.{StandsIn, offset_of};
ghost use Rattle.object_volume.specs.Volumes.{disk_of, with_disk};
ghost use Rattle.lane_restore.specs.Images.{AreEntries, IsTaken, ReadsOn, TakesBlock, TakesBlocks, TakesOne, block_from, blocks_read, step_len};
ghost use Rattle.lane_restore.specs.Jobs.{EndsMerging};
ghost use Rattle.lane_restore.specs.Merging.{ArePages, WritesOnly, with_entries};

use crate::images::step_len;
use crate::job::{ImageJob, LaneEnd};
use crate::reading::{BLOCK_LEN, begin, read_block};
use level_archive::ImageReader;
use object_volume::{Cursor, Volume};
use site_disk::{Disk, Era};
use space_lane::Lane;

/// The page whose block this is, where a reader that was fed the head takes it as the next one.
fn next_page(reader: &mut ImageReader, block: &[u8; BLOCK_LEN]) -> Option<u32>
    requires { reader.old.is_begun ≡ true }
    ensures given { IfSome result (λ number. Gives reader.old block.now number reader.new) }
    ensures none { IfNone result ((number : ℕ) → HasEntry reader.old.head reader.old.pages reader.old.from block.now number → ⊥) }
{
    match reader.feed(block) {
        Ok(Some((page, _))) => Some(page),
        Ok(None) => None,
        Err(_) => None,
    }
}

/// Reads the next block of an image, and writes the page that it has.
fn merge_entry<D: Disk>(
    lane: &mut Lane<D>,
    volume: &mut Volume<D>,
    era: &Era,
    image: &ImageJob,
    reader: &mut ImageReader,
    cursor: &mut Cursor,
) -> Result<(), LaneEnd>
    requires chunk { MayUse era.now (D.ledger (chunk_of lane.old)) }
    requires volume { MayUse era.now (D.ledger (disk_of volume.old)) }
    requires space { image.now.head.space ≡ space_of lane.old }
    requires few { count_of lane.old ≤ 65536 }
    requires begun { reader.old.is_begun ≡ true }
    requires head { reader.old.head ≡ image.now.head }
    requires pages { reader.old.pages ≡ count_of lane.old }
    requires stands { StandsIn image.now.runs.items cursor.old }

    ensures lane { lane.new ≡ with_chunk lane.old (chunk_of lane.new) }
    ensures volume { volume.new ≡ with_disk volume.old (disk_of volume.new) }
    ensures reader { OnOk result (ReadsOn reader.old reader.new) }
    ensures cursor { OnOk result (offset_of cursor.new ≡ offset_of cursor.old + 4096) }
    ensures stands { StandsIn image.now.runs.items cursor.new }
    ensures taken { IsTrue D.is_modelled → OnOk result (TakesOne image.now (offset_of cursor.old) (D.bytes (disk_of volume.old)) reader.old reader.new
        (D.bytes (chunk_of lane.old)) (D.bytes (chunk_of lane.new))) }
    ensures unsound { IsTrue D.is_modelled → IsErrOf result (LaneEnd.Unsound image.now.head.level) → (number : ℕ)
        → TakesBlock image.now.head reader.old.pages reader.old.from (block_from image.now (offset_of cursor.old) (D.bytes (disk_of volume.old))) number → ⊥ }
    ensures ended { IfErr result (EndsMerging (D.ledger (chunk_of lane.old)).faults (D.ledger (chunk_of lane.new)).faults
        (D.ledger (disk_of volume.old)).faults (D.ledger (disk_of volume.new)).faults image.now.head.level) }
    ensures agrees { IsTrue D.is_modelled → (site count : ℕ) (state : StateView) → Agrees site count state (D.bytes (chunk_of lane.old)) lane.old
        → OnOk result (Agrees site count state (D.bytes (chunk_of lane.new)) lane.new) }
    // Whatever the block is, no page but its own is written.
    ensures crash { IsTrue D.is_modelled → (number : ℕ) → place_of pages_at (count_of lane.old) ≤ length (D.bytes (chunk_of lane.old))
        → HasEntry image.now.head (count_of lane.old) 0 (block_from image.now (offset_of cursor.old) (D.bytes (disk_of volume.old))) number
        → Leaves era.now.number (Torn (place_of pages_at number) 4096) (D.image (chunk_of lane.old)) (D.image (chunk_of lane.new)) }
    ensures chunk { Uses era.now 0 (place_of pages_at (count_of lane.old)) (D.ledger (chunk_of lane.old)) (D.ledger (chunk_of lane.new)) }
    ensures bound { IsTrue D.is_modelled → place_of pages_at (count_of lane.old) ≤ length (D.bytes (chunk_of lane.old))
        → (D.ledger (chunk_of lane.new)).written ≤ (D.ledger (chunk_of lane.old)).written + 4096 }
    ensures bytes { OnOk result (D.bytes (disk_of volume.new) ≡ D.bytes (disk_of volume.old)) }
    ensures images { OnOk result (Unchanged (D.image (disk_of volume.old)) (D.image (disk_of volume.new))) }
    ensures volume_crash { Leaves era.now.number Same (D.image (disk_of volume.old)) (D.image (disk_of volume.new)) }
    ensures ledger { Uses era.now 4096 0 (D.ledger (disk_of volume.old)) (D.ledger (disk_of volume.new)) }
{
    let unsound = LaneEnd::Unsound {
        image: image.head.level,
    };
    let mut block = [0; BLOCK_LEN];
    let Ok(is_whole) = read_block(volume, era, image, cursor, &mut block) else {
        return Err(LaneEnd::VolumeFailed);
    };
    if !is_whole {
        return Err(unsound);
    }
    let Some(page) = next_page(reader, &block) else {
        return Err(unsound);
    };
    match lane.put_page(era, page, &block) {
        Ok(()) => Ok(()),
        Err(_) => Err(LaneEnd::ChunkFailed),
    }
}

/// Merges so many entries of an image behind others. Each page that it writes is one of theirs.
fn merge_entries<D: Disk>(
    lane: &mut Lane<D>,
    volume: &mut Volume<D>,
    era: &Era,
    image: &ImageJob,
    reader: &mut ImageReader,
    entries: u32,
    count: u32,
) -> Result<(), LaneEnd>
    requires chunk { MayUse era.now (D.ledger (chunk_of lane.old)) }
    requires volume { MayUse era.now (D.ledger (disk_of volume.old)) }
    requires space { image.now.head.space ≡ space_of lane.old }
    requires few { count_of lane.old ≤ 65536 }
    requires begun { HasRead image.now.head (count_of lane.old) image.now.size [] reader.old }

    ensures lane { lane.new ≡ with_chunk lane.old (chunk_of lane.new) }
    ensures volume { volume.new ≡ with_disk volume.old (disk_of volume.new) }
    ensures taken { IsTrue D.is_modelled → OnOk result (TakesBlocks image.now (count_of lane.old) 0 entries count (D.bytes (disk_of volume.old))) }
    ensures unsound { IsTrue D.is_modelled → IsErrOf result (LaneEnd.Unsound image.now.head.level)
        → TakesBlocks image.now (count_of lane.old) 0 entries count (D.bytes (disk_of volume.old)) → ⊥ }
    ensures ended { IfErr result (EndsMerging (D.ledger (chunk_of lane.old)).faults (D.ledger (chunk_of lane.new)).faults
        (D.ledger (disk_of volume.old)).faults (D.ledger (disk_of volume.new)).faults image.now.head.level) }
    ensures agrees { IsTrue D.is_modelled → (site pages : ℕ) (state : StateView) → Agrees site pages state (D.bytes (chunk_of lane.old)) lane.old
        → OnOk result (Agrees site pages state (D.bytes (chunk_of lane.new)) lane.new) }
    // Where the blocks are those of entries, each of their pages is as its entry has it, and all others stay.
    ensures pages { IsTrue D.is_modelled → (was : ℕ → Page) (window : List Entry)
        → place_of pages_at (count_of lane.old) ≤ length (D.bytes (chunk_of lane.old)) → length window ≡ count
        → AreEntries image.now (count_of lane.old) entries window (D.bytes (disk_of volume.old))
        → ArePages (space_of lane.old) (count_of lane.old) was window (D.bytes (chunk_of lane.old))
        → OnOk result (ArePages (space_of lane.old) (count_of lane.old) (λ number. with_entries number window (was number)) [] (D.bytes (chunk_of lane.new))) }
    ensures crash { IsTrue D.is_modelled → (window : List Entry)
        → place_of pages_at (count_of lane.old) ≤ length (D.bytes (chunk_of lane.old)) → length window ≡ count
        → AreEntries image.now (count_of lane.old) entries window (D.bytes (disk_of volume.old))
        → Leaves era.now.number (WritesOnly window) (D.image (chunk_of lane.old)) (D.image (chunk_of lane.new)) }
    ensures chunk { Uses era.now 0 (place_of pages_at (count_of lane.old) * count) (D.ledger (chunk_of lane.old)) (D.ledger (chunk_of lane.new)) }
    ensures bound { IsTrue D.is_modelled → place_of pages_at (count_of lane.old) ≤ length (D.bytes (chunk_of lane.old))
        → (D.ledger (chunk_of lane.new)).written ≤ (D.ledger (chunk_of lane.old)).written + 4096 * count }
    ensures bytes { OnOk result (D.bytes (disk_of volume.new) ≡ D.bytes (disk_of volume.old)) }
    ensures images { OnOk result (Unchanged (D.image (disk_of volume.old)) (D.image (disk_of volume.new))) }
    ensures volume_crash { Leaves era.now.number Same (D.image (disk_of volume.old)) (D.image (disk_of volume.new)) }
    ensures ledger { Uses era.now (4096 * count) 0 (D.ledger (disk_of volume.old)) (D.ledger (disk_of volume.new)) }
{
    let mut cursor = Cursor::at(4096 * (u64::from(entries) + 1));
    for _done in 0..count {
        merge_entry(lane, volume, era, image, reader, &mut cursor)?;
    }
    Ok(())
}

/// Merges the entries of one step, and answers how many of the image's are merged then. They aren't synced yet.
pub(crate) fn merge<D: Disk>(
    lane: &mut Lane<D>,
    volume: &mut Volume<D>,
    era: &Era,
    image: &ImageJob,
    pages: u32,
    entries: u32,
) -> Result<u32, LaneEnd>
    requires chunk { MayUse era.now (D.ledger (chunk_of lane.old)) }
    requires volume { MayUse era.now (D.ledger (disk_of volume.old)) }
    requires space { image.now.head.space ≡ space_of lane.old }
    requires few { pages ≤ 65536 }
    requires count { count_of lane.old ≡ pages }

    ensures merged { IfOk result (λ merged. merged ≡ entries + step_len image.now.size entries) }
    ensures lane { lane.new ≡ with_chunk lane.old (chunk_of lane.new) }
    ensures volume { volume.new ≡ with_disk volume.old (disk_of volume.new) }
    ensures taken { IsTrue D.is_modelled → OnOk result (IsTaken image.now pages entries (D.bytes (disk_of volume.old))) }
    ensures unsound { IsTrue D.is_modelled → IsErrOf result (LaneEnd.Unsound image.now.head.level)
        → IsTaken image.now pages entries (D.bytes (disk_of volume.old)) → ⊥ }
    ensures ended { IfErr result (EndsMerging (D.ledger (chunk_of lane.old)).faults (D.ledger (chunk_of lane.new)).faults
        (D.ledger (disk_of volume.old)).faults (D.ledger (disk_of volume.new)).faults image.now.head.level) }
    ensures agrees { IsTrue D.is_modelled → (site : ℕ) (state : StateView) → Agrees site pages state (D.bytes (chunk_of lane.old)) lane.old
        → OnOk result (Agrees site pages state (D.bytes (chunk_of lane.new)) lane.new) }
    ensures pages { IsTrue D.is_modelled → (was : ℕ → Page) (window : List Entry)
        → place_of pages_at pages ≤ length (D.bytes (chunk_of lane.old)) → length window ≡ step_len image.now.size entries
        → AreEntries image.now pages entries window (D.bytes (disk_of volume.old))
        → ArePages (space_of lane.old) pages was window (D.bytes (chunk_of lane.old))
        → OnOk result (ArePages (space_of lane.old) pages (λ number. with_entries number window (was number)) [] (D.bytes (chunk_of lane.new))) }
    ensures crash { IsTrue D.is_modelled → (window : List Entry)
        → place_of pages_at pages ≤ length (D.bytes (chunk_of lane.old)) → length window ≡ step_len image.now.size entries
        → AreEntries image.now pages entries window (D.bytes (disk_of volume.old))
        → Leaves era.now.number (WritesOnly window) (D.image (chunk_of lane.old)) (D.image (chunk_of lane.new)) }
    ensures chunk { Uses era.now 0 (256 * place_of pages_at pages) (D.ledger (chunk_of lane.old)) (D.ledger (chunk_of lane.new)) }
    ensures bound { IsTrue D.is_modelled → place_of pages_at pages ≤ length (D.bytes (chunk_of lane.old))
        → (D.ledger (chunk_of lane.new)).written ≤ (D.ledger (chunk_of lane.old)).written + 4096 * step_len image.now.size entries }
    ensures bytes { OnOk result (D.bytes (disk_of volume.new) ≡ D.bytes (disk_of volume.old)) }
    ensures images { OnOk result (Unchanged (D.image (disk_of volume.old)) (D.image (disk_of volume.new))) }
    ensures volume_crash { Leaves era.now.number Same (D.image (disk_of volume.old)) (D.image (disk_of volume.new)) }
    ensures ledger { Uses era.now (4096 * blocks_read image.now.size entries) 0 (D.ledger (disk_of volume.old)) (D.ledger (disk_of volume.new)) }
{
    let mut reader = begin(volume, era, image, pages, entries)?;
    let count = step_len(image.size, entries);
    merge_entries(lane, volume, era, image, &mut reader, entries, count)?;
    Ok(entries + count)
}
