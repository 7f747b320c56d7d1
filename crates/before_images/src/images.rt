// Before-images: pages saved in a region, and put back from it.
ghost use Rattle.std.specs.Prelude.{◌≡◌, ◌+◌, ◌*◌, ◌^◌, ◌<◌, ◌≤◌, length, true, false, IsTrue, IfOk, OnOk};
ghost use Rattle.site_disk.specs.Causes.{HasCause};
ghost use Rattle.site_disk.specs.Gates.{GateStands};
ghost use Rattle.site_disk.specs.Images.{Leaves, OnlyAfter, Unchanged};
ghost use Rattle.site_disk.specs.Ledger.{MayUse, Uses};

use crate::lists::PAGE_LEN;
use crate::putting::put_back_from;
use crate::saving::{REGION_LEN, drop_region, save_pages_in};
use site_disk::{Disk, Era, Failed};
use std::marker::Model;

/// A region of 69,632 bytes that keeps pages as they stood before they were changed.
///
/// Its first byte is a gate. The place of the work stands at byte 16 (a number of eight bytes and one of four), the number
/// of pages, 1 to 16, at byte 28, the pages, each once, from byte 32 on, all big-endian; the bytes between and behind
/// them up to byte 4,096 are 0. The i-th page's image, counted from 0, stands at byte 4,096 × (i + 1).
#[derive(Drop)]
pub struct Images {
    base: u64,
}

impl Model for Images {
    ghost use Rattle.std.specs.Prelude.{◌≤◌, ◌^◌};
    ghost use Rattle.before_images.specs.Saved.{ImagesView};

    ghost Value = { ImagesView };

    ghost view = { λ i. record { base = i.base } };

    ghost invariant = { λ i. i.base ≤ 2 ^ 62 };
}

impl Images {
    ghost use Rattle.before_images.specs.Saved.{are_distinct, saved_at, applies, place_of, restored, Lie, Saves, MaySave, Drops, MayDrop, MayPutBack, Stands};

    /// A region that begins at a place, in bytes.
    pub fn new(base: u64) -> Images
        requires { base ≤ 2 ^ 62 }
        ensures { result.base ≡ base }
    {
        Images { base }
    }

    /// Keeps pages as they stand, for a place of the work. Each image of the disk keeps what was kept before, nothing, or
    /// these pages, and after Ok it keeps these.
    ///
    /// Each page is read and written once; the list of the pages is one write more. Where the disk ends within the region,
    /// zero bytes are written up to its end first, and nothing is said of what a stop leaves.
    pub fn save<D: Disk>(
        &mut self,
        disk: &mut D,
        era: &Era,
        pages_at: u64,
        from: (u64, u32),
        pages: &[u32],
    ) -> Result<(), Failed>
        requires era { MayUse era.now (D.ledger disk.old) }
        requires pages_at { self.old.base + 69632 ≤ pages_at }
        requires fits { pages_at ≤ 2 ^ 63 }
        requires some { 1 ≤ length pages.now }
        requires few { length pages.now ≤ 16 }
        requires distinct { IsTrue (are_distinct pages.now) }

        ensures value { self.new ≡ self.old }
        ensures saved { IsTrue D.is_modelled → Lie pages_at pages.now (D.bytes disk.old)
            → OnOk result (Saves self.old.base pages_at from.0 from.1 pages.now (D.bytes disk.old) (D.bytes disk.new)) }
        ensures durable { IsTrue D.is_modelled → OnOk result (OnlyAfter era.now.number (D.bytes disk.new) (D.image disk.new)) }
        ensures crash { IsTrue D.is_modelled → Lie pages_at pages.now (D.bytes disk.old)
            → GateStands self.old.base (D.ledger disk.old).last (D.bytes disk.old) (D.image disk.old)
            → Leaves era.now.number (MaySave self.old.base pages_at from.0 from.1 pages.now) (D.image disk.old) (D.image disk.new) }

        ensures ledger { Uses era.now (4096 * length pages.now + 1) (self.old.base + 73729 + 4096 * length pages.now)
            (D.ledger disk.old) (D.ledger disk.new) }
        ensures bound { IsTrue D.is_modelled → pages_at ≤ length (D.bytes disk.old)
            → (D.ledger disk.new).written ≤ (D.ledger disk.old).written + 4096 * length pages.now + 4097 }
        ensures cause { HasCause (D.ledger disk.old).faults (D.ledger disk.new).faults result }
    {
        let mut buffer = [0; REGION_LEN];
        let region = &mut buffer[..PAGE_LEN * (pages.len() + 1)];
        save_pages_in(disk, era, self.base, pages_at, from, pages, region)
    }

    /// Puts the pages back that were kept for this place of the work, and syncs. True exactly where the gate is open, the
    /// list is in the grammar with all pages below `pages`, and it is of this place; else nothing is written.
    ///
    /// One that is stopped and done again, or done twice, leaves the same.
    pub fn put_back<D: Disk>(
        &mut self,
        disk: &mut D,
        era: &Era,
        pages_at: u64,
        pages: u32,
        from: (u64, u32),
    ) -> Result<bool, Failed>
        requires era { MayUse era.now (D.ledger disk.old) }
        requires pages_at { self.old.base + 69632 ≤ pages_at }
        requires fits { pages_at ≤ 2 ^ 63 }

        ensures value { self.new ≡ self.old }
        ensures applies { IsTrue D.is_modelled → IfOk result (λ done.
            done ≡ applies pages from.0 from.1 (saved_at self.old.base (D.bytes disk.old))) }
        ensures bytes { IsTrue D.is_modelled → place_of pages_at pages ≤ length (D.bytes disk.old)
            → OnOk result (D.bytes disk.new ≡ restored self.old.base pages_at pages from.0 from.1 (D.bytes disk.old)) }
        // So a second call leaves the same.
        ensures kept { IsTrue D.is_modelled → place_of pages_at pages ≤ length (D.bytes disk.old)
            → OnOk result (MayPutBack self.old.base pages_at pages from.0 from.1 (D.bytes disk.old) (D.bytes disk.new)) }
        ensures durable { IsTrue D.is_modelled → IfOk result (λ done.
            IsTrue done → OnlyAfter era.now.number (D.bytes disk.new) (D.image disk.new)) }
        ensures refused_bytes { IfOk result (λ done. done ≡ false → D.bytes disk.new ≡ D.bytes disk.old) }
        ensures refused_images { IfOk result (λ done. done ≡ false → Unchanged (D.image disk.old) (D.image disk.new)) }
        ensures crash { IsTrue D.is_modelled
            → Stands self.old.base pages_at pages (D.ledger disk.old).last (D.bytes disk.old) (D.image disk.old)
            → Leaves era.now.number (MayPutBack self.old.base pages_at pages from.0 from.1) (D.image disk.old) (D.image disk.new) }

        ensures ledger { Uses era.now 69632 (pages_at + 4096 * 2 ^ 32 + 65536) (D.ledger disk.old) (D.ledger disk.new) }
        ensures bound { IsTrue D.is_modelled → place_of pages_at pages ≤ length (D.bytes disk.old)
            → (D.ledger disk.new).written ≤ (D.ledger disk.old).written + 65536 }
        ensures cause { HasCause (D.ledger disk.old).faults (D.ledger disk.new).faults result }
    {
        let mut region = [0; REGION_LEN];
        put_back_from(disk, era, self.base, pages_at, pages, from, &mut region)
    }

    /// Closes the gate, so that nothing is kept. Where it is closed already, nothing is written.
    pub fn drop_all<D: Disk>(&mut self, disk: &mut D, era: &Era) -> Result<(), Failed>
        requires { MayUse era.now (D.ledger disk.old) }

        ensures value { self.new ≡ self.old }
        ensures dropped { IsTrue D.is_modelled → self.old.base ≤ length (D.bytes disk.old)
            → OnOk result (Drops self.old.base (D.bytes disk.old) (D.bytes disk.new)) }
        ensures durable { IsTrue D.is_modelled → self.old.base ≤ length (D.bytes disk.old)
            → OnlyAfter (D.ledger disk.old).last (D.bytes disk.old) (D.image disk.old)
            → OnOk result (OnlyAfter era.now.number (D.bytes disk.new) (D.image disk.new)) }
        ensures crash { IsTrue D.is_modelled → self.old.base < length (D.bytes disk.old)
            → GateStands self.old.base (D.ledger disk.old).last (D.bytes disk.old) (D.image disk.old)
            → Leaves era.now.number (MayDrop self.old.base) (D.image disk.old) (D.image disk.new) }

        ensures ledger { Uses era.now 1 (self.old.base + 1) (D.ledger disk.old) (D.ledger disk.new) }
        ensures bound { IsTrue D.is_modelled → self.old.base ≤ length (D.bytes disk.old)
            → (D.ledger disk.new).written ≤ (D.ledger disk.old).written + 1 }
        ensures cause { HasCause (D.ledger disk.old).faults (D.ledger disk.new).faults result }
    {
        drop_region(disk, era, self.base)
    }
}
