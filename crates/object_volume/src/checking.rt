//! Checks of objects against their digests.
ghost use Rattle.std.specs.Prelude.{◌≡◌, ◌≢◌, ◌+◌, ◌*◌, ◌<◌, ◌≤◌, ◌^◌, ◌↔◌, ◌++◌, ℕ, List, length, IsTrue, IfOk, OnOk};
ghost use Rattle.site_disk.specs.Bytes.{extent, Same};
ghost use Rattle.site_disk.specs.Causes.{HasCause};
ghost use Rattle.site_disk.specs.Images.{Leaves, Unchanged};
ghost use Rattle.site_disk.specs.Ledger.{MayUse, Uses};
ghost use Rattle.sha2.specs.Hashers.{Holds256};
ghost use Rattle.object_volume.specs.Objects.{object};
ghost use Rattle.object_volume.specs.Answers.{Judges, IsDamaged, IsVerdict};

use crate::faults::Soundness;
use crate::reading::place_of;
use block_chain::Run;
use sha2::{Digest, Sha256};
use site_disk::{Disk, Era, Failed};

// Hashes what a range of the volume reads as, a buffer at a time. True exactly where the volume has all of it.
fn hash_range<D: Disk>(
    disk: &mut D,
    era: &Era,
    place: u64,
    len: u64,
    hasher: &mut Sha256,
    buffer: &mut [u8],
) -> Result<bool, Failed>
    requires era { MayUse era.now (D.ledger disk.old) }
    requires fits { place + len < 2 ^ 64 }
    requires some { 0 < length buffer.old }
    ensures whole { IsTrue D.is_modelled → IfOk result (λ whole.
        IsTrue whole ↔ (length (extent place len (D.bytes disk.old)) ≡ len)) }
    ensures hashed { IsTrue D.is_modelled → IfOk result (λ whole. IsTrue whole → (message : List ℕ)
        → Holds256 hasher.old message → Holds256 hasher.new (message ++ extent place len (D.bytes disk.old))) }
    ensures bytes { OnOk result (D.bytes disk.new ≡ D.bytes disk.old) }
    ensures images { OnOk result (Unchanged (D.image disk.old) (D.image disk.new)) }
    ensures crash { Leaves era.now.number Same (D.image disk.old) (D.image disk.new) }
    ensures ledger { Uses era.now len 0 (D.ledger disk.old) (D.ledger disk.new) }
    ensures cause { HasCause (D.ledger disk.old).faults (D.ledger disk.new).faults result }
{
    let mut done = 0;
    while done < len {
        let n = (len - done).min(buffer.len() as u64) as usize;
        let got = disk.read_at(era, place + done, &mut buffer[..n])?;
        if got < n {
            return Ok(false);
        }
        hasher.update(&buffer[..n]);
        done += n as u64;
    }
    Ok(true)
}

/// Compares the digest of an object in these runs with the one that is kept, in one pass, a buffer at a time.
pub(crate) fn check_object<D: Disk>(
    disk: &mut D,
    era: &Era,
    runs: &[Run],
    size: u64,
    digest: &[u8; 32],
    buffer: &mut [u8],
) -> Result<Soundness, Failed>
    requires era { MayUse era.now (D.ledger disk.old) }
    requires some { 0 < length buffer.old }
    ensures judged { IsTrue D.is_modelled
        → IfOk result (Judges (object runs.now size (D.bytes disk.old)) size digest.now) }
    ensures damaged { IfOk result (IsDamaged digest.now) }
    ensures bytes { OnOk result (D.bytes disk.new ≡ D.bytes disk.old) }
    ensures images { OnOk result (Unchanged (D.image disk.old) (D.image disk.new)) }
    ensures crash { Leaves era.now.number Same (D.image disk.old) (D.image disk.new) }
    ensures ledger { Uses era.now size 0 (D.ledger disk.old) (D.ledger disk.new) }
    ensures cause { HasCause (D.ledger disk.old).faults (D.ledger disk.new).faults result }
{
    let mut hasher = Sha256::new();
    let mut left = size;
    for run in runs {
        let n = left.min(4096 * u64::from(run.count));
        let whole = hash_range(disk, era, place_of(run.first), n, &mut hasher, buffer)?;
        if !whole {
            return Ok(Soundness::Short);
        }
        left -= n;
    }
    if left > 0 {
        return Ok(Soundness::Short);
    }
    Ok(verdict(hasher.finalize(), digest))
}

// What is said of an object that is whole.
fn verdict(found: [u8; 32], kept: &[u8; 32]) -> Soundness
    ensures verdict { IsVerdict found kept.now result }
{
    if found == *kept {
        Soundness::Sound
    } else {
        Soundness::Damaged { found }
    }
}
