//! The catalogue's disks formatted.
ghost use Rattle.std.specs.Prelude.{◌≡◌, ◌≤◌, ◌∷◌, length, IsTrue, OnOk};
ghost use Rattle.site_disk.specs.Bytes.{written};
ghost use Rattle.site_disk.specs.Causes.{HasCause};
ghost use Rattle.site_disk.specs.Images.{Leaves, OnlyAfter};
ghost use Rattle.site_disk.specs.Ledger.{MayUse, Uses};
ghost use Rattle.site_disk.specs.Seen.{seen};
ghost use Rattle.gated_slots.specs.Header.{IsClosed, StandsClosed};
ghost use Rattle.gated_slots.specs.Slots.{used};
ghost use Rattle.site_headers.specs.Heads.{IsHead};
ghost use Rattle.site_headers.specs.Headers.{catalogue_tail, spare_tail, HasHeader};
ghost use Rattle.site_headers.specs.Views.{head_of};
ghost use Rattle.catalogue_replay.specs.Contents.{empty};
ghost use Rattle.catalogue_replay.specs.Places.{area_of, NamesArea, Journals};
ghost use Rattle.catalogue_journal.specs.Formats.{MayUnformat, MayFormat, MayPublish};

use catalogue_replay::slots_at;
use gated_slots::{Slots, header_close, header_open};
use site_disk::{Disk, Era, Failed};
use site_headers::{SiteHead, write_catalogue_header, write_spare_header};
use twin_mark::Mark;

/// Writes the catalogue's header over a closed one.
pub(crate) fn write_head<D: Disk>(disk: &mut D, era: &Era, head: &SiteHead) -> Result<(), Failed>
    requires era { MayUse era.now (D.ledger disk.old) }
    requires head { IsHead (head_of head.now) }
    ensures written { IsTrue D.is_modelled → OnOk result (D.bytes disk.new ≡ written 0 (1 ∷ catalogue_tail (head_of head.now)) (D.bytes disk.old)) }
    ensures durable { IsTrue D.is_modelled → OnOk result (OnlyAfter era.now.number (D.bytes disk.new) (D.image disk.new)) }
    ensures crash { IsTrue D.is_modelled → StandsClosed (seen D.Disk disk.old)
        → Leaves era.now.number (MayPublish (catalogue_tail (head_of head.now))) (D.image disk.old) (D.image disk.new) }
    ensures ledger { Uses era.now 0 4097 (D.ledger disk.old) (D.ledger disk.new) }
    ensures cause { HasCause (D.ledger disk.old).faults (D.ledger disk.new).faults result }
{
    let mut page = [0; 4096];
    write_catalogue_header(head, &mut page);
    header_open(disk, era, &page)
}

// Closes the header after a sync, then all gates, with zero bytes up to the slots.
fn close_all<D: Disk>(disk: &mut D, era: &Era, slots: &mut Slots) -> Result<(), Failed>
    requires era { MayUse era.now (D.ledger disk.old) }
    requires area { slots.old.area ≡ area_of slots.old.area.capacity }
    requires few { slots.old.area.capacity ≤ 65536 }
    ensures area { slots.new.area ≡ slots.old.area }
    ensures closed { IsTrue D.is_modelled → OnOk result (IsClosed (D.bytes disk.new)) }
    ensures none { IsTrue D.is_modelled → OnOk result (used slots.old.area (D.bytes disk.new) ≡ 0) }
    ensures long { IsTrue D.is_modelled → OnOk result (73728 ≤ length (D.bytes disk.new)) }
    ensures durable { IsTrue D.is_modelled → OnOk result (OnlyAfter era.now.number (D.bytes disk.new) (D.image disk.new)) }
    ensures crash { IsTrue D.is_modelled → Leaves era.now.number MayUnformat (D.image disk.old) (D.image disk.new) }
    ensures ledger { Uses era.now 1 73729 (D.ledger disk.old) (D.ledger disk.new) }
    ensures cause { HasCause (D.ledger disk.old).faults (D.ledger disk.new).faults result }
{
    disk.sync(era)?;
    header_close(disk, era)?;
    slots.format(disk, era)
}

/// Writes all of an empty catalogue but its header, which is closed first.
pub(crate) fn format_catalogue<D: Disk>(
    disk: &mut D,
    era: &Era,
    slots: &mut Slots,
    mark: &mut Mark,
) -> Result<(), Failed>
    requires era { MayUse era.now (D.ledger disk.old) }
    requires area { slots.old.area ≡ area_of slots.old.area.capacity }
    requires few { slots.old.area.capacity ≤ 65536 }
    requires mark { mark.old.base ≡ 4096 }
    ensures area { slots.new.area ≡ slots.old.area }
    ensures base { mark.new.base ≡ mark.old.base }
    ensures journal { IsTrue D.is_modelled → OnOk result (Journals slots.old.area empty (D.bytes disk.new)) }
    ensures none { IsTrue D.is_modelled → OnOk result (used slots.old.area (D.bytes disk.new) ≡ 0) }
    ensures names { IsTrue D.is_modelled → OnOk result (NamesArea (D.bytes disk.new)) }
    ensures closed { IsTrue D.is_modelled → OnOk result (StandsClosed (seen D.Disk disk.new)) }
    ensures durable { IsTrue D.is_modelled → OnOk result (OnlyAfter era.now.number (D.bytes disk.new) (D.image disk.new)) }
    ensures crash { IsTrue D.is_modelled → Leaves era.now.number MayUnformat (D.image disk.old) (D.image disk.new) }
    ensures ledger { Uses era.now 1 78849 (D.ledger disk.old) (D.ledger disk.new) }
    ensures cause { HasCause (D.ledger disk.old).faults (D.ledger disk.new).faults result }
{
    close_all(disk, era, slots)?;
    mark.format(disk, era, &[0; 255])
}

/// Writes an empty spare disk, its header last.
pub(crate) fn format_spare<D: Disk>(
    disk: &mut D,
    era: &Era,
    capacity: u32,
    site: u64,
) -> Result<(), Failed>
    requires era { MayUse era.now (D.ledger disk.old) }
    requires some { 2 ≤ capacity }
    requires few { capacity ≤ 65536 }
    ensures header { IsTrue D.is_modelled → OnOk result (HasHeader (spare_tail site) (D.bytes disk.new)) }
    ensures journal { IsTrue D.is_modelled → OnOk result (Journals (area_of capacity) empty (D.bytes disk.new)) }
    ensures durable { IsTrue D.is_modelled → OnOk result (OnlyAfter era.now.number (D.bytes disk.new) (D.image disk.new)) }
    ensures crash { IsTrue D.is_modelled → Leaves era.now.number (MayFormat (spare_tail site)) (D.image disk.old) (D.image disk.new) }
    ensures ledger { Uses era.now 1 77826 (D.ledger disk.old) (D.ledger disk.new) }
    ensures cause { HasCause (D.ledger disk.old).faults (D.ledger disk.new).faults result }
{
    let mut page = [0; 4096];
    write_spare_header(site, &mut page);
    let mut slots = slots_at(capacity);
    close_all(disk, era, &mut slots)?;
    header_open(disk, era, &page)
}
