// Pages put back from a region.
ghost use Rattle.std.specs.Prelude.{◌≡◌, ℕ, List, ◌+◌, ◌*◌, ◌^◌, ◌<◌, ◌≤◌, ◌∷◌, length, take, drop, true, false, IsTrue, IsSome, IfSome, Some, is_some, IfOk, OnOk};
ghost use Rattle.site_disk.specs.Bytes.{extent, Same};
ghost use Rattle.site_disk.specs.Causes.{HasCause};
ghost use Rattle.site_disk.specs.Gates.{behind};
ghost use Rattle.site_disk.specs.Images.{Leaves, OnlyAfter, Unchanged};
ghost use Rattle.site_disk.specs.Ledger.{MayUse, Uses};
ghost use Rattle.before_images.specs.Saved.{numbers, are_below, saved_by, saved_in, saved_at, listed, applies, place_of, laid, restored, Within, MayPutBack, Stands};

use crate::lists::{PAGE_LEN, applies_to, list_len};
use crate::pages::{greatest, put_pages};
use site_disk::{Disk, Era, Failed, extend_to};

// The number of pages that a region keeps for this place behind an open gate, where all of them are below a limit. The
// gate's byte is taken as 0.
fn saved_len(region: &[u8], limit: u32, from: (u64, u32)) -> Option<usize>
    requires list { 4096 ≤ length region.now }
    requires room { length region.now ≤ 69632 }
    ensures applies { is_some result ≡ applies limit from.0 from.1 (saved_by (take 4096 region.now) (extent 4096 65536 region.now)) }
    ensures saved { IfSome result (λ count.
        saved_by (take 4096 region.now) (extent 4096 65536 region.now) ≡ Some (listed from.0 from.1 count region.now)) }
    ensures below { IfSome result (λ count. are_below limit (numbers 0 count (take 4096 region.now)) ≡ true) }
    ensures some { IfSome result (λ count. 1 ≤ count) }
    ensures few { IfSome result (λ count. count ≤ 16) }
    ensures fits { IfSome result (λ count. 4096 * (count + 1) ≤ length region.now) }
{
    let head = &region[..PAGE_LEN];
    let Some(count) = list_len(head) else {
        return None;
    };
    if region.len() < PAGE_LEN * (count + 1) {
        return None;
    }
    if applies_to(head, count, limit, from) {
        Some(count)
    } else {
        None
    }
}

// The same of a region as it is read: nothing where its gate is closed.
fn take_saved(region: &mut [u8], limit: u32, from: (u64, u32)) -> Option<usize>
    requires { length region.old ≤ 69632 }
    ensures applies { is_some result ≡ applies limit from.0 from.1 (saved_in region.old) }
    ensures saved { IfSome result (λ count. saved_in region.old ≡ Some (listed from.0 from.1 count region.new)) }
    ensures below { IfSome result (λ count. are_below limit (numbers 0 count (take 4096 region.new)) ≡ true) }
    ensures some { IfSome result (λ count. 1 ≤ count) }
    ensures few { IfSome result (λ count. count ≤ 16) }
    ensures fits { IfSome result (λ count. 4096 * (count + 1) ≤ length region.new) }
{
    if region.len() < PAGE_LEN {
        return None;
    }
    if region[0] == 0 {
        return None;
    }
    region[0] = 0;
    saved_len(region, limit, from)
}

// Writes the images of a region over their pages, after zero bytes up to the last of them where the disk doesn't reach
// it, and syncs.
fn put_and_sync<D: Disk>(
    disk: &mut D,
    era: &Era,
    pages_at: u64,
    region: &[u8],
    count: usize,
) -> Result<(), Failed>
    requires era { MayUse era.now (D.ledger disk.old) }
    requires fits { pages_at ≤ 2 ^ 63 }
    requires few { count ≤ 16 }
    requires list { 4096 ≤ length region.now }
    requires whole { 4096 * (count + 1) ≤ length region.now }
    ensures bytes { IsTrue D.is_modelled → (limit : ℕ) → 0 < limit → are_below limit (numbers 0 count (take 4096 region.now)) ≡ true
        → place_of pages_at limit ≤ length (D.bytes disk.old)
        → OnOk result (D.bytes disk.new ≡ laid pages_at (numbers 0 count (take 4096 region.now)) (extent 4096 (4096 * count) region.now) (D.bytes disk.old)) }
    ensures kept { IsTrue D.is_modelled → (limit : ℕ) → 0 < limit → are_below limit (numbers 0 count (take 4096 region.now)) ≡ true
        → place_of pages_at limit ≤ length (D.bytes disk.old)
        → OnOk result (Within pages_at limit (numbers 0 count (take 4096 region.now)) (D.bytes disk.old) (D.bytes disk.new)) }
    ensures durable { IsTrue D.is_modelled → OnOk result (OnlyAfter era.now.number (D.bytes disk.new) (D.image disk.new)) }
    ensures crash { IsTrue D.is_modelled → (limit : ℕ) → 0 < limit → are_below limit (numbers 0 count (take 4096 region.now)) ≡ true
        → place_of pages_at limit ≤ length (D.bytes disk.old)
        → Leaves era.now.number (Within pages_at limit (numbers 0 count (take 4096 region.now))) (D.image disk.old) (D.image disk.new) }
    ensures ledger { Uses era.now 0 (pages_at + 4096 * 2 ^ 32 + 65536) (D.ledger disk.old) (D.ledger disk.new) }
    ensures bound { IsTrue D.is_modelled → (limit : ℕ) → 0 < limit → are_below limit (numbers 0 count (take 4096 region.now)) ≡ true
        → place_of pages_at limit ≤ length (D.bytes disk.old)
        → (D.ledger disk.new).written ≤ (D.ledger disk.old).written + 65536 }
    ensures cause { HasCause (D.ledger disk.old).faults (D.ledger disk.new).faults result }
{
    let head = &region[..PAGE_LEN];
    let images = &region[PAGE_LEN..PAGE_LEN * (count + 1)];
    extend_to(disk, era, pages_at + 4096 * greatest(head, count) as u64)?;
    put_pages(disk, era, pages_at, head, images, count)?;
    disk.sync(era)
}

/// Puts back what a region keeps, where it applies, and syncs; whether it did.
pub(crate) fn put_back_from<D: Disk>(
    disk: &mut D,
    era: &Era,
    base: u64,
    pages_at: u64,
    limit: u32,
    from: (u64, u32),
    region: &mut [u8],
) -> Result<bool, Failed>
    requires era { MayUse era.now (D.ledger disk.old) }
    requires pages_at { base + 69632 ≤ pages_at }
    requires fits { pages_at ≤ 2 ^ 63 }
    requires room { length region.old ≡ 69632 }
    ensures applies { IsTrue D.is_modelled → IfOk result (λ done.
        done ≡ applies limit from.0 from.1 (saved_at base (D.bytes disk.old))) }
    ensures bytes { IsTrue D.is_modelled → place_of pages_at limit ≤ length (D.bytes disk.old)
        → OnOk result (D.bytes disk.new ≡ restored base pages_at limit from.0 from.1 (D.bytes disk.old)) }
    ensures kept { IsTrue D.is_modelled → place_of pages_at limit ≤ length (D.bytes disk.old)
        → OnOk result (MayPutBack base pages_at limit from.0 from.1 (D.bytes disk.old) (D.bytes disk.new)) }
    ensures durable { IsTrue D.is_modelled → IfOk result (λ done.
        IsTrue done → OnlyAfter era.now.number (D.bytes disk.new) (D.image disk.new)) }
    ensures refused_bytes { IfOk result (λ done. done ≡ false → D.bytes disk.new ≡ D.bytes disk.old) }
    ensures refused_images { IfOk result (λ done. done ≡ false → Unchanged (D.image disk.old) (D.image disk.new)) }
    ensures crash { IsTrue D.is_modelled
        → Stands base pages_at limit (D.ledger disk.old).last (D.bytes disk.old) (D.image disk.old)
        → Leaves era.now.number (MayPutBack base pages_at limit from.0 from.1) (D.image disk.old) (D.image disk.new) }
    ensures ledger { Uses era.now 69632 (pages_at + 4096 * 2 ^ 32 + 65536) (D.ledger disk.old) (D.ledger disk.new) }
    ensures bound { IsTrue D.is_modelled → place_of pages_at limit ≤ length (D.bytes disk.old)
        → (D.ledger disk.new).written ≤ (D.ledger disk.old).written + 65536 }
    ensures cause { HasCause (D.ledger disk.old).faults (D.ledger disk.new).faults result }
{
    let found = disk.read_at(era, base, region)?;
    let region = &mut region[..found];
    match take_saved(region, limit, from) {
        None => Ok(false),
        Some(count) => {
            put_and_sync(disk, era, pages_at, region, count)?;
            Ok(true)
        }
    }
}
