// Pages saved in a region behind its gate.
ghost use Rattle.std.specs.Prelude.{◌≡◌, ◌+◌, ◌-◌, ◌*◌, ◌^◌, ◌<◌, ◌≤◌, [], ◌∷◌, length, drop, true, IsTrue, OnOk};
ghost use Rattle.site_disk.specs.Bytes.{written, Same, Torn};
ghost use Rattle.site_disk.specs.Causes.{HasCause};
ghost use Rattle.site_disk.specs.Gates.{shut, GateStands, MayShut};
ghost use Rattle.site_disk.specs.Images.{Leaves, OnlyAfter, Unchanged};
ghost use Rattle.site_disk.specs.Ledger.{MayUse, Uses};
ghost use Rattle.before_images.specs.Saved.{region_of, filled_region, MayFillAndOpen};

use crate::lists::write_list;
use crate::pages::read_pages;
use site_disk::{Disk, Era, Failed, close_gate, extend_to, write_and_sync};

/// The length of a region.
pub(crate) const REGION_LEN: usize = 69_632;

// A region as it is to be written for pages as they stand.
fn read_region<D: Disk>(
    disk: &mut D,
    era: &Era,
    pages_at: u64,
    from: (u64, u32),
    pages: &[u32],
    region: &mut [u8],
) -> Result<(), Failed>
    requires era { MayUse era.now (D.ledger disk.old) }
    requires fits { pages_at ≤ 2 ^ 63 }
    requires few { length pages.now ≤ 16 }
    requires room { length region.old ≡ 4096 * (length pages.now + 1) }
    ensures found { IsTrue D.is_modelled
        → OnOk result (region.new ≡ region_of pages_at from.0 from.1 pages.now (D.bytes disk.old)) }
    ensures bytes { OnOk result (D.bytes disk.new ≡ D.bytes disk.old) }
    ensures images { OnOk result (Unchanged (D.image disk.old) (D.image disk.new)) }
    ensures crash { Leaves era.now.number Same (D.image disk.old) (D.image disk.new) }
    ensures ledger { Uses era.now (4096 * length pages.now) 0 (D.ledger disk.old) (D.ledger disk.new) }
    ensures cause { HasCause (D.ledger disk.old).faults (D.ledger disk.new).faults result }
{
    write_list(region, from, pages);
    read_pages(disk, era, pages_at, pages, region)
}

// Writes a region behind its closed gate.
fn fill_region<D: Disk>(disk: &mut D, era: &Era, base: u64, region: &[u8]) -> Result<(), Failed>
    requires era { MayUse era.now (D.ledger disk.old) }
    requires within { IsTrue D.is_modelled → base + 1 ≤ length (D.bytes disk.old) }
    requires base { base ≤ 2 ^ 62 }
    requires some { 1 ≤ length region.now }
    requires fits { length region.now ≤ 69632 }
    ensures bytes { IsTrue D.is_modelled → OnOk result (D.bytes disk.new ≡ written (base + 1) (drop 1 region.now) (D.bytes disk.old)) }
    ensures durable { IsTrue D.is_modelled → OnOk result (OnlyAfter era.now.number (D.bytes disk.new) (D.image disk.new)) }
    ensures crash { Leaves era.now.number (Torn (base + 1) 69631) (D.image disk.old) (D.image disk.new) }
    ensures ledger { Uses era.now 0 (length region.now - 1) (D.ledger disk.old) (D.ledger disk.new) }
    ensures cause { HasCause (D.ledger disk.old).faults (D.ledger disk.new).faults result }
{
    write_and_sync(disk, era, base + 1, &region[1..])
}

// Writes a region, with the gate closed before and opened behind it.
fn replace_region<D: Disk>(disk: &mut D, era: &Era, base: u64, region: &[u8]) -> Result<(), Failed>
    requires era { MayUse era.now (D.ledger disk.old) }
    requires within { IsTrue D.is_modelled → base + 69632 ≤ length (D.bytes disk.old) }
    requires base { base ≤ 2 ^ 62 }
    requires some { 1 ≤ length region.now }
    requires fits { length region.now ≤ 69632 }
    ensures bytes { IsTrue D.is_modelled
        → OnOk result (D.bytes disk.new ≡ written base (1 ∷ []) (filled_region base region.now (D.bytes disk.old))) }
    ensures durable { IsTrue D.is_modelled → OnOk result (OnlyAfter era.now.number (D.bytes disk.new) (D.image disk.new)) }
    ensures crash { IsTrue D.is_modelled
        → GateStands base (D.ledger disk.old).last (D.bytes disk.old) (D.image disk.old)
        → Leaves era.now.number (MayFillAndOpen base region.now (D.bytes disk.old)) (D.image disk.old) (D.image disk.new) }
    ensures ledger { Uses era.now 1 (length region.now + 1) (D.ledger disk.old) (D.ledger disk.new) }
    ensures cause { HasCause (D.ledger disk.old).faults (D.ledger disk.new).faults result }
{
    close_gate(disk, era, base)?;
    fill_region(disk, era, base, region)?;
    write_and_sync(disk, era, base, &[1])
}

/// Saves pages in a region, after zero bytes up to its end where the disk doesn't reach it. The pages are read before
/// anything is written.
pub(crate) fn save_pages_in<D: Disk>(
    disk: &mut D,
    era: &Era,
    base: u64,
    pages_at: u64,
    from: (u64, u32),
    pages: &[u32],
    region: &mut [u8],
) -> Result<(), Failed>
    requires era { MayUse era.now (D.ledger disk.old) }
    requires base { base ≤ 2 ^ 62 }
    requires fits { pages_at ≤ 2 ^ 63 }
    requires few { length pages.now ≤ 16 }
    requires room { length region.old ≡ 4096 * (length pages.now + 1) }
    ensures bytes { IsTrue D.is_modelled → base + 69632 ≤ length (D.bytes disk.old)
        → OnOk result (D.bytes disk.new ≡ written base (1 ∷ [])
        (filled_region base (region_of pages_at from.0 from.1 pages.now (D.bytes disk.old)) (D.bytes disk.old))) }
    ensures durable { IsTrue D.is_modelled → OnOk result (OnlyAfter era.now.number (D.bytes disk.new) (D.image disk.new)) }
    ensures crash { IsTrue D.is_modelled → base + 69632 ≤ length (D.bytes disk.old)
        → GateStands base (D.ledger disk.old).last (D.bytes disk.old) (D.image disk.old)
        → Leaves era.now.number (MayFillAndOpen base (region_of pages_at from.0 from.1 pages.now (D.bytes disk.old)) (D.bytes disk.old))
        (D.image disk.old) (D.image disk.new) }
    ensures ledger { Uses era.now (4096 * length pages.now + 1) (base + 69632 + 4096 * length pages.now + 4097)
        (D.ledger disk.old) (D.ledger disk.new) }
    ensures bound { IsTrue D.is_modelled → base + 69632 ≤ length (D.bytes disk.old)
        → (D.ledger disk.new).written ≤ (D.ledger disk.old).written + 4096 * length pages.now + 4097 }
    ensures cause { HasCause (D.ledger disk.old).faults (D.ledger disk.new).faults result }
{
    read_region(disk, era, pages_at, from, pages, region)?;
    extend_to(disk, era, base + REGION_LEN as u64)?;
    replace_region(disk, era, base, region)
}

/// Closes the gate of a region, after zero bytes up to it where the disk doesn't reach it.
pub(crate) fn drop_region<D: Disk>(disk: &mut D, era: &Era, base: u64) -> Result<(), Failed>
    requires { MayUse era.now (D.ledger disk.old) }
    ensures bytes { IsTrue D.is_modelled → base ≤ length (D.bytes disk.old)
        → OnOk result (D.bytes disk.new ≡ shut base (D.bytes disk.old)) }
    ensures durable { IsTrue D.is_modelled → base ≤ length (D.bytes disk.old)
        → OnlyAfter (D.ledger disk.old).last (D.bytes disk.old) (D.image disk.old)
        → OnOk result (OnlyAfter era.now.number (D.bytes disk.new) (D.image disk.new)) }
    ensures crash { IsTrue D.is_modelled → base ≤ length (D.bytes disk.old)
        → GateStands base (D.ledger disk.old).last (D.bytes disk.old) (D.image disk.old)
        → Leaves era.now.number (MayShut base) (D.image disk.old) (D.image disk.new) }
    ensures ledger { Uses era.now 1 (base + 1) (D.ledger disk.old) (D.ledger disk.new) }
    ensures bound { IsTrue D.is_modelled → base ≤ length (D.bytes disk.old)
        → (D.ledger disk.new).written ≤ (D.ledger disk.old).written + 1 }
    ensures cause { HasCause (D.ledger disk.old).faults (D.ledger disk.new).faults result }
{
    extend_to(disk, era, base)?;
    close_gate(disk, era, base)
}
