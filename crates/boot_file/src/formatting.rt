//! The boot file's disk formatted, but for its header, which is closed first.
ghost use Rattle.std.specs.Prelude.{◌≡◌, ◌+◌, ◌≤◌, length, IsTrue, Some, None, OnOk};
ghost use Rattle.site_disk.specs.Causes.{HasCause};
ghost use Rattle.site_disk.specs.Images.{Leaves, OnlyAfter};
ghost use Rattle.site_disk.specs.Ledger.{MayUse, Uses};
ghost use Rattle.site_disk.specs.Seen.{seen};
ghost use Rattle.gated_slots.specs.Header.{IsClosed, StandsClosed};
ghost use Rattle.gated_slots.specs.Slots.{used, end_of_gates};
ghost use Rattle.twin_mark.specs.Marks.{record_at, Knows};
ghost use Rattle.boot_lines.specs.MarkLayout.{spelling as mark_spelling};
ghost use Rattle.boot_file.specs.Formats.{MayUnformat};

use boot_lines::BootMark;
use gated_slots::{Slots, header_close};
use site_disk::{Disk, Era, Failed};
use twin_mark::Mark;

/// The record of a site that has had no restore.
const NO_RESTORE: BootMark = BootMark {
    last_number: 0,
    restore: None,
};

// Closes the header after a sync, then all gates.
fn close_all<D: Disk>(disk: &mut D, era: &Era, slots: &mut Slots) -> Result<(), Failed>
    requires era { MayUse era.now (D.ledger disk.old) }
    requires gates { 8192 ≤ slots.old.area.gates }
    ensures none { OnOk result (slots.new ≡ record slots.old { used = 0 }) }
    ensures closed { IsTrue D.is_modelled → OnOk result (IsClosed (D.bytes disk.new)) }
    ensures unused { IsTrue D.is_modelled → OnOk result (used slots.old.area (D.bytes disk.new) ≡ 0) }
    ensures long { IsTrue D.is_modelled → OnOk result (end_of_gates slots.old.area ≤ length (D.bytes disk.new)) }
    ensures durable { IsTrue D.is_modelled → OnOk result (OnlyAfter era.now.number (D.bytes disk.new) (D.image disk.new)) }
    ensures crash { IsTrue D.is_modelled → Leaves era.now.number MayUnformat (D.image disk.old) (D.image disk.new) }
    ensures ledger { Uses era.now 1 (1 + end_of_gates slots.old.area) (D.ledger disk.old) (D.ledger disk.new) }
    ensures cause { HasCause (D.ledger disk.old).faults (D.ledger disk.new).faults result }
{
    disk.sync(era)?;
    header_close(disk, era)?;
    slots.clear(disk, era)
}

/// Writes all of an empty boot file but its header, which is closed first.
pub(crate) fn write_empty<D: Disk>(
    disk: &mut D,
    era: &Era,
    slots: &mut Slots,
    mark: &mut Mark,
) -> Result<(), Failed>
    requires era { MayUse era.now (D.ledger disk.old) }
    requires gates { 8192 ≤ slots.old.area.gates }
    requires base { mark.old.base ≡ 4096 }
    ensures none { OnOk result (slots.new ≡ record slots.old { used = 0 }) }
    ensures base { mark.new.base ≡ mark.old.base }
    ensures stored { IsTrue D.is_modelled → OnOk result (record_at 4096 (D.bytes disk.new) ≡ Some (mark_spelling 0 None)) }
    ensures knows { IsTrue D.is_modelled → OnOk result (Knows mark.new (D.bytes disk.new)) }
    ensures closed { IsTrue D.is_modelled → OnOk result (StandsClosed (seen D.Disk disk.new)) }
    ensures unused { IsTrue D.is_modelled → OnOk result (used slots.old.area (D.bytes disk.new) ≡ 0) }
    ensures long { IsTrue D.is_modelled → OnOk result (end_of_gates slots.old.area ≤ length (D.bytes disk.new)) }
    ensures durable { IsTrue D.is_modelled → OnOk result (OnlyAfter era.now.number (D.bytes disk.new) (D.image disk.new)) }
    ensures crash { IsTrue D.is_modelled → Leaves era.now.number MayUnformat (D.image disk.old) (D.image disk.new) }
    ensures ledger { Uses era.now 1 (5121 + end_of_gates slots.old.area) (D.ledger disk.old) (D.ledger disk.new) }
    ensures cause { HasCause (D.ledger disk.old).faults (D.ledger disk.new).faults result }
{
    let mut bytes = [0; 255];
    NO_RESTORE.encode_into(&mut bytes);
    close_all(disk, era, slots)?;
    mark.format(disk, era, &bytes)
}
