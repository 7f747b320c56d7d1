// Pages read one behind another, and images written over their pages.
ghost use Rattle.std.specs.Prelude.{◌≡◌, ℕ, ◌+◌, ◌-◌, ◌*◌, ◌^◌, ◌<◌, ◌≤◌, ◌++◌, max, length, take, true, IsTrue, OnOk};
ghost use Rattle.site_disk.specs.Bytes.{extent, filled, Same};
ghost use Rattle.site_disk.specs.Causes.{HasCause};
ghost use Rattle.site_disk.specs.Images.{Leaves, Unchanged};
ghost use Rattle.site_disk.specs.Ledger.{MayUse, Uses};
ghost use Rattle.before_images.specs.Saved.{u32_at, numbers, are_below, place_of, present, laid, Within};

use crate::lists::{PAGE_LEN, page_at};
use site_disk::{Disk, Era, Failed};

const PAGE: u64 = 4096;

// Fills a buffer, with zero bytes for those that the disk doesn't have.
fn read_filled<D: Disk>(disk: &mut D, era: &Era, at: u64, into: &mut [u8]) -> Result<(), Failed>
    requires { MayUse era.now (D.ledger disk.old) }
    ensures found { IsTrue D.is_modelled
        → OnOk result (into.new ≡ filled (length into.old) (extent at (length into.old) (D.bytes disk.old))) }
    ensures bytes { OnOk result (D.bytes disk.new ≡ D.bytes disk.old) }
    ensures images { OnOk result (Unchanged (D.image disk.old) (D.image disk.new)) }
    ensures crash { Leaves era.now.number Same (D.image disk.old) (D.image disk.new) }
    ensures ledger { Uses era.now (length into.old) 0 (D.ledger disk.old) (D.ledger disk.new) }
    ensures cause { HasCause (D.ledger disk.old).faults (D.ledger disk.new).faults result }
{
    let found = disk.read_at(era, at, into)?;
    into[found..].fill(0);
    Ok(())
}

/// Reads pages as they stand behind a region's list, one behind another, with zero bytes for those that the disk doesn't
/// have.
pub(crate) fn read_pages<D: Disk>(
    disk: &mut D,
    era: &Era,
    pages_at: u64,
    pages: &[u32],
    region: &mut [u8],
) -> Result<(), Failed>
    requires era { MayUse era.now (D.ledger disk.old) }
    requires fits { pages_at ≤ 2 ^ 63 }
    requires few { length pages.now ≤ 16 }
    requires room { length region.old ≡ 4096 * (length pages.now + 1) }
    ensures found { IsTrue D.is_modelled
        → OnOk result (region.new ≡ take 4096 region.old ++ present pages_at pages.now (D.bytes disk.old)) }
    ensures bytes { OnOk result (D.bytes disk.new ≡ D.bytes disk.old) }
    ensures images { OnOk result (Unchanged (D.image disk.old) (D.image disk.new)) }
    ensures crash { Leaves era.now.number Same (D.image disk.old) (D.image disk.new) }
    ensures ledger { Uses era.now (4096 * length pages.now) 0 (D.ledger disk.old) (D.ledger disk.new) }
    ensures cause { HasCause (D.ledger disk.old).faults (D.ledger disk.new).faults result }
{
    for (i, page) in pages.iter().enumerate() {
        let place = pages_at + PAGE * *page as u64;
        let offset = PAGE_LEN * (i + 1);
        read_filled(disk, era, place, &mut region[offset..offset + PAGE_LEN])?;
    }
    Ok(())
}

fn larger(a: u32, b: u32) -> u32
    ensures { result ≡ max a b }
{
    if a < b { b } else { a }
}

/// The greatest page of a list.
pub(crate) fn greatest(head: &[u8], count: usize) -> u32
    requires { 32 + 4 * count ≤ length head.now }
    ensures all { (i : ℕ) → i < count → u32_at (32 + 4 * i) head.now ≤ result }
    ensures below { (limit : ℕ) → 0 < limit → are_below limit (numbers 0 count head.now) ≡ true → result < limit }
{
    let mut greatest = 0;
    for i in 0..count {
        greatest = larger(greatest, page_at(head, i));
    }
    greatest
}

/// Writes images over their pages.
pub(crate) fn put_pages<D: Disk>(
    disk: &mut D,
    era: &Era,
    pages_at: u64,
    head: &[u8],
    images: &[u8],
    count: usize,
) -> Result<(), Failed>
    requires era { MayUse era.now (D.ledger disk.old) }
    requires reaches { IsTrue D.is_modelled → (i : ℕ) → i < count
        → place_of pages_at (u32_at (32 + 4 * i) head.now) ≤ length (D.bytes disk.old) }
    requires fits { pages_at ≤ 2 ^ 63 }
    requires head { 32 + 4 * count ≤ length head.now }
    requires images { length images.now ≡ 4096 * count }
    ensures bytes { IsTrue D.is_modelled
        → OnOk result (D.bytes disk.new ≡ laid pages_at (numbers 0 count head.now) images.now (D.bytes disk.old)) }
    ensures kept { IsTrue D.is_modelled → (limit : ℕ) → are_below limit (numbers 0 count head.now) ≡ true
        → OnOk result (Within pages_at limit (numbers 0 count head.now) (D.bytes disk.old) (D.bytes disk.new)) }
    ensures crash { (limit : ℕ) → are_below limit (numbers 0 count head.now) ≡ true
        → Leaves era.now.number (Within pages_at limit (numbers 0 count head.now)) (D.image disk.old) (D.image disk.new) }
    ensures ledger { Uses era.now 0 (4096 * count) (D.ledger disk.old) (D.ledger disk.new) }
    ensures cause { HasCause (D.ledger disk.old).faults (D.ledger disk.new).faults result }
{
    for i in 0..count {
        let place = pages_at + PAGE * page_at(head, i) as u64;
        let offset = PAGE_LEN * i;
        disk.write_at(era, place, &images[offset..offset + PAGE_LEN])?;
    }
    Ok(())
}
