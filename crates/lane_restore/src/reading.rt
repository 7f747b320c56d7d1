//! The blocks of images, read from their volume.
ghost use Rattle.std.specs.Prelude.{◌≡◌, ◌+◌, ◌*◌, ◌↔◌, [], length, IsTrue, IfErr, IfOk, IsErrOf, OnOk};
ghost use Rattle.site_disk.specs.Bytes.{Same};
ghost use Rattle.site_disk.specs.Causes.{HasCause};
ghost use Rattle.site_disk.specs.Images.{Leaves, Unchanged};
ghost use Rattle.site_disk.specs.Ledger.{MayUse, Uses};
ghost use Rattle.level_archive.specs.Image.{IsImageSize, head_bytes};
ghost use Rattle.level_archive.specs.Reading.{HasRead};
ghost use Rattle.object_volume.specs.Cursors.{StandsIn, offset_of};
ghost use Rattle.object_volume.specs.Volumes.{disk_of, with_disk};
ghost use Rattle.lane_restore.specs.Images.{HasHead, block_from, heads_read};
ghost use Rattle.lane_restore.specs.Jobs.{EndsReading};

use crate::job::{ImageJob, LaneEnd};
use level_archive::ImageReader;
use object_volume::{Cursor, Volume};
use site_disk::{Disk, Era, Failed};

/// The bytes of a block.
pub(crate) const BLOCK_LEN: usize = 4096;

/// Reads the next block of an image. False where the object or the volume ends before the block does.
pub(crate) fn read_block<D: Disk>(
    volume: &mut Volume<D>,
    era: &Era,
    image: &ImageJob,
    cursor: &mut Cursor,
    block: &mut [u8],
) -> Result<bool, Failed>
    requires era { MayUse era.now (D.ledger (disk_of volume.old)) }
    requires stands { StandsIn image.now.runs.items cursor.old }
    requires block { length block.old ≡ 4096 }
    ensures whole { IsTrue D.is_modelled → IfOk result (λ whole.
        IsTrue whole ↔ (length (block_from image.now (offset_of cursor.old) (D.bytes (disk_of volume.old))) ≡ 4096)) }
    ensures found { IsTrue D.is_modelled → IfOk result (λ whole. IsTrue whole
        → block.new ≡ block_from image.now (offset_of cursor.old) (D.bytes (disk_of volume.old))) }
    ensures moved { IfOk result (λ whole. IsTrue whole → offset_of cursor.new ≡ offset_of cursor.old + 4096) }
    ensures stands { StandsIn image.now.runs.items cursor.new }
    ensures volume { volume.new ≡ with_disk volume.old (disk_of volume.new) }
    ensures bytes { OnOk result (D.bytes (disk_of volume.new) ≡ D.bytes (disk_of volume.old)) }
    ensures images { OnOk result (Unchanged (D.image (disk_of volume.old)) (D.image (disk_of volume.new))) }
    ensures crash { Leaves era.now.number Same (D.image (disk_of volume.old)) (D.image (disk_of volume.new)) }
    ensures ledger { Uses era.now 4096 0 (D.ledger (disk_of volume.old)) (D.ledger (disk_of volume.new)) }
    ensures cause { HasCause (D.ledger (disk_of volume.old)).faults (D.ledger (disk_of volume.new)).faults result }
{
    let found = volume.get_next(era, &image.runs, image.size, cursor, block)?;
    Ok(found == BLOCK_LEN)
}

/// The head's block: read where nothing of the image is merged yet, and spelled behind that, since it isn't read again. False where it
/// is short.
fn read_head<D: Disk>(
    volume: &mut Volume<D>,
    era: &Era,
    image: &ImageJob,
    entries: u32,
    block: &mut [u8; BLOCK_LEN],
) -> Result<bool, Failed>
    requires era { MayUse era.now (D.ledger (disk_of volume.old)) }
    ensures head { IsTrue D.is_modelled → IfOk result (λ whole.
        (IsTrue whole → block.new ≡ head_bytes image.now.head → HasHead image.now entries (D.bytes (disk_of volume.old)))
        × (HasHead image.now entries (D.bytes (disk_of volume.old)) → IsTrue whole × (block.new ≡ head_bytes image.now.head))) }
    ensures volume { volume.new ≡ with_disk volume.old (disk_of volume.new) }
    ensures bytes { OnOk result (D.bytes (disk_of volume.new) ≡ D.bytes (disk_of volume.old)) }
    ensures images { OnOk result (Unchanged (D.image (disk_of volume.old)) (D.image (disk_of volume.new))) }
    ensures crash { Leaves era.now.number Same (D.image (disk_of volume.old)) (D.image (disk_of volume.new)) }
    ensures ledger { Uses era.now (4096 * heads_read entries) 0 (D.ledger (disk_of volume.old)) (D.ledger (disk_of volume.new)) }
    ensures cause { HasCause (D.ledger (disk_of volume.old)).faults (D.ledger (disk_of volume.new)).faults result }
{
    if entries > 0 {
        image.head.encode_into(block);
        return Ok(true);
    }
    let mut cursor = Cursor::at(0);
    read_block(volume, era, image, &mut cursor, block)
}

/// A reader of an image, behind its head.
pub(crate) fn begin<D: Disk>(
    volume: &mut Volume<D>,
    era: &Era,
    image: &ImageJob,
    pages: u32,
    entries: u32,
) -> Result<ImageReader, LaneEnd>
    requires era { MayUse era.now (D.ledger (disk_of volume.old)) }
    ensures begun { IfOk result (HasRead image.now.head pages image.now.size []) }
    ensures head { IsTrue D.is_modelled → OnOk result (HasHead image.now entries (D.bytes (disk_of volume.old))) }
    ensures unsound { IsTrue D.is_modelled → IsErrOf result (LaneEnd.Unsound image.now.head.level)
        → IsImageSize pages image.now.size → HasHead image.now entries (D.bytes (disk_of volume.old)) → ⊥ }
    ensures ended { IfErr result (EndsReading (D.ledger (disk_of volume.old)).faults (D.ledger (disk_of volume.new)).faults image.now.head.level) }
    ensures volume { volume.new ≡ with_disk volume.old (disk_of volume.new) }
    ensures bytes { OnOk result (D.bytes (disk_of volume.new) ≡ D.bytes (disk_of volume.old)) }
    ensures images { OnOk result (Unchanged (D.image (disk_of volume.old)) (D.image (disk_of volume.new))) }
    ensures crash { Leaves era.now.number Same (D.image (disk_of volume.old)) (D.image (disk_of volume.new)) }
    ensures ledger { Uses era.now (4096 * heads_read entries) 0 (D.ledger (disk_of volume.old)) (D.ledger (disk_of volume.new)) }
{
    let unsound = LaneEnd::Unsound {
        image: image.head.level,
    };
    let mut block = [0; BLOCK_LEN];
    let Ok(is_whole) = read_head(volume, era, image, entries, &mut block) else {
        return Err(LaneEnd::VolumeFailed);
    };
    if !is_whole {
        return Err(unsound);
    }
    let mut reader = ImageReader::new(image.head, pages, image.size);
    match reader.feed(&block) {
        Ok(None) => Ok(reader),
        _ => Err(unsound),
    }
}
