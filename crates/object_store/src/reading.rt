//! Objects that are read from their volumes.
ghost use Rattle.std.specs.Prelude.{◌≡◌, ◌+◌, ◌-◌, ◌<◌, ◌≤◌, length, take, drop, min, IsTrue, IfOk, OnErr};
ghost use Rattle.std.specs.Result.{is_err};
ghost use Rattle.catalogue_slots.specs.Views.{object_of};
ghost use Rattle.object_volume.specs.Answers.{Judges, IsDamaged};
ghost use Rattle.object_volume.specs.Cursors.{offset_of, StandsIn};
ghost use Rattle.object_store.specs.Stores.{MayUseEach};
ghost use Rattle.object_store.specs.Reading.{reads_on, part_on, ChangesOne, IsRead};

use catalogue_slots::ObjectEntry;
use object_volume::{Cursor, Soundness, Volume};
use site_disk::{Disk, Era, Failed};

/// Compares the SHA-256 of an object, as its volume has it, with the one that is kept. `Short` exactly where the volume,
/// or the runs, end within the object, `Damaged` exactly where its bytes have another digest.
pub fn check_object<D: Disk>(
    volumes: &mut [Volume<D>],
    era: &Era,
    entry: &ObjectEntry,
) -> Result<Soundness, Failed>
    requires era { MayUseEach D.ledger era.now volumes.old }
    requires within { entry.now.volume < length volumes.old }
    ensures judged { IsTrue D.is_modelled
        → IfOk result (Judges (reads_on D.bytes volumes.old (object_of entry.now)) entry.now.size entry.now.digest) }
    ensures damaged { IfOk result (IsDamaged entry.now.digest) }
    ensures one { ChangesOne (IsRead D.Disk era.now entry.now.size (is_err result)) entry.now.volume volumes.old volumes.new }
{
    let volume = &mut volumes[usize::from(entry.volume)];
    volume.check(era, &entry.runs, entry.size, &entry.digest)
}

/// Copies the next bytes of an object from its volume, from the cursor on, and answers how many: fewer than the buffer
/// takes where the object or the volume ends. The cursor moves behind them.
pub fn read_object<D: Disk>(
    volumes: &mut [Volume<D>],
    era: &Era,
    entry: &ObjectEntry,
    cursor: &mut Cursor,
    into: &mut [u8],
) -> Result<usize, Failed>
    requires era { MayUseEach D.ledger era.now volumes.old }
    requires within { entry.now.volume < length volumes.old }
    requires stands { StandsIn entry.now.runs.items cursor.old }
    ensures bound { IfOk result (λ n. n ≤ min (length into.old) (entry.now.size - offset_of cursor.old)) }
    ensures count { IsTrue D.is_modelled → IfOk result (λ n.
        n ≡ length (part_on D.bytes volumes.old (length into.old) (object_of entry.now) (offset_of cursor.old))) }
    ensures given { IsTrue D.is_modelled → IfOk result (λ n.
        take n into.new ≡ part_on D.bytes volumes.old (length into.old) (object_of entry.now) (offset_of cursor.old)) }
    ensures rest { IfOk result (λ n. drop n into.new ≡ drop n into.old) }
    ensures moved { IfOk result (λ n. offset_of cursor.new ≡ offset_of cursor.old + n) }
    ensures stands { StandsIn entry.now.runs.items cursor.new }
    ensures stays { OnErr result (cursor.new ≡ cursor.old) }
    ensures one { ChangesOne (IsRead D.Disk era.now (length into.old) (is_err result)) entry.now.volume volumes.old volumes.new }
{
    let volume = &mut volumes[usize::from(entry.volume)];
    volume.get_next(era, &entry.runs, entry.size, cursor, into)
}
