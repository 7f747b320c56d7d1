//! Reads of objects.
ghost use Rattle.std.specs.Prelude.{◌≡◌, ◌+◌, ◌-◌, ◌*◌, ◌<◌, ◌≤◌, ◌^◌, ◌++◌, length, take, drop, min, List, IsTrue, IfOk, OnOk, OnErr};
ghost use Rattle.site_disk.specs.Bytes.{extent, Same};
ghost use Rattle.site_disk.specs.Causes.{HasCause};
ghost use Rattle.site_disk.specs.Images.{Leaves, Unchanged};
ghost use Rattle.site_disk.specs.Ledger.{MayUse, Uses};
ghost use Rattle.block_chain.specs.declared.runs.Run.{Run as Run-of-blocks};
ghost use Rattle.object_volume.specs.Objects.{place_of, object_part};
ghost use Rattle.object_volume.specs.Cursors.{offset_of, StandsIn};

use block_chain::Run;
use site_disk::{Disk, Era, Failed};

/// The bytes of a block, and of the header page before block 0.
pub(crate) const BLOCK_LEN: usize = 4096;

/// Where a block begins on a volume.
pub(crate) fn place_of(block: u32) -> u64
    ensures { result ≡ place_of block }
{
    4096 + 4096 * u64::from(block)
}

// Reads up to so many bytes into a place of the buffer.
fn read_piece<D: Disk>(
    disk: &mut D,
    era: &Era,
    place: u64,
    into: &mut [u8],
    at: usize,
    n: usize,
) -> Result<usize, Failed>
    requires era { MayUse era.now (D.ledger disk.old) }
    requires room { at + n ≤ length into.old }
    ensures bound { IfOk result (λ got. got ≤ n) }
    ensures count { IsTrue D.is_modelled → IfOk result (λ got. got ≡ length (extent place n (D.bytes disk.old))) }
    ensures found { IsTrue D.is_modelled → IfOk result (λ got.
        take (at + got) into.new ≡ take at into.old ++ extent place n (D.bytes disk.old)) }
    ensures rest { IfOk result (λ got. drop (at + got) into.new ≡ drop (at + got) into.old) }
    ensures bytes { OnOk result (D.bytes disk.new ≡ D.bytes disk.old) }
    ensures images { OnOk result (Unchanged (D.image disk.old) (D.image disk.new)) }
    ensures crash { Leaves era.now.number Same (D.image disk.old) (D.image disk.new) }
    ensures ledger { Uses era.now n 0 (D.ledger disk.old) (D.ledger disk.new) }
    ensures cause { HasCause (D.ledger disk.old).faults (D.ledger disk.new).faults result }
{
    disk.read_at(era, place, &mut into[at..at + n])
}

/// Where a read of an object goes on: at a byte of a run, or behind its end.
#[derive(Clone, Copy, Debug, PartialEq, Eq)]
pub struct Cursor {
    pub(crate) run: usize,
    // The bytes that are passed from the run's first on.
    pub(crate) skip: u64,
    // The byte of the object.
    pub(crate) offset: u64,
}

impl Cursor {
    /// At this byte of an object, whatever its runs are.
    pub fn at(offset: u64) -> Cursor
        ensures offset { offset_of result ≡ offset }
        ensures stands { (runs : List Run-of-blocks) → StandsIn runs result }
    {
        Cursor {
            run: 0,
            skip: offset,
            offset,
        }
    }
}

/// Copies bytes of the object in these runs into the buffer, from the cursor on: as many as the buffer takes, fewer where
/// the object or the volume ends. Each run is read by one read, and those before the cursor aren't looked at.
pub(crate) fn read_object<D: Disk>(
    disk: &mut D,
    era: &Era,
    runs: &[Run],
    size: u64,
    cursor: &mut Cursor,
    into: &mut [u8],
) -> Result<usize, Failed>
    requires era { MayUse era.now (D.ledger disk.old) }
    requires stands { StandsIn runs.now cursor.old }
    ensures bound { IfOk result (λ n. n ≤ min (length into.old) (size - cursor.old.offset)) }
    ensures count { IsTrue D.is_modelled → IfOk result (λ n.
        n ≡ length (object_part runs.now size cursor.old.offset (length into.old) (D.bytes disk.old))) }
    ensures found { IsTrue D.is_modelled → IfOk result (λ n.
        take n into.new ≡ object_part runs.now size cursor.old.offset (length into.old) (D.bytes disk.old)) }
    ensures rest { IfOk result (λ n. drop n into.new ≡ drop n into.old) }
    ensures moved { IfOk result (λ n. cursor.new.offset ≡ cursor.old.offset + n) }
    ensures stands { StandsIn runs.now cursor.new }
    ensures stays { OnErr result (cursor.new ≡ cursor.old) }
    ensures bytes { OnOk result (D.bytes disk.new ≡ D.bytes disk.old) }
    ensures images { OnOk result (Unchanged (D.image disk.old) (D.image disk.new)) }
    ensures crash { Leaves era.now.number Same (D.image disk.old) (D.image disk.new) }
    ensures ledger { Uses era.now (length into.old) 0 (D.ledger disk.old) (D.ledger disk.new) }
    ensures cause { HasCause (D.ledger disk.old).faults (D.ledger disk.new).faults result }
{
    let wanted = size.saturating_sub(cursor.offset).min(into.len() as u64) as usize;
    let mut next = *cursor;
    let mut done = 0;
    while next.run < runs.len() {
        let run = &runs[next.run];
        let len = 4096 * u64::from(run.count);
        if len <= next.skip {
            next.skip -= len;
            next.run += 1;
            continue;
        }
        let n = (len - next.skip).min((wanted - done) as u64) as usize;
        let got = read_piece(disk, era, place_of(run.first) + next.skip, into, done, n)?;
        done += got;
        next.offset += got as u64;
        if got < n || done == wanted {
            next.skip += got as u64;
            *cursor = next;
            return Ok(done);
        }
        next.skip = 0;
        next.run += 1;
    }
    *cursor = next;
    Ok(done)
}
