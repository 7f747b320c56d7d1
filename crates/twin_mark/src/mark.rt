// A mark: the record that stands in a region, and the value that knows it.
ghost use Rattle.std.specs.Prelude.{◌≡◌, ◌+◌, ◌^◌, ◌<◌, ◌≤◌, length, IsTrue, Some, None, OnOk, OnErr, IsErrOf};
ghost use Rattle.site_disk.specs.Bytes.{Same, Torn};
ghost use Rattle.site_disk.specs.Causes.{Rose, HasCause};
ghost use Rattle.site_disk.specs.Images.{Leaves, OnlyAfter, IsSynced, Unchanged};
ghost use Rattle.site_disk.specs.Ledger.{MayUse, Uses};
ghost use Rattle.site_disk.specs.Seen.{seen};

use crate::slots::{put_record, read_record, write_region};
use site_disk::{Disk, Era, Failed};
use std::marker::Model;

/// A record of 255 bytes on a disk that changes whole or not at all.
///
/// Its region of 1,024 bytes has two slots that hold the record in sequence: bytes 0 and 1 are their gates, and a sequence and
/// the record stand at byte 256 of the region for slot 0 and at byte 512 for slot 1. A slot is valid where its gate isn't 0,
/// its body lies within the disk and its sequence is 0, 1 or 2. Of two valid ones that counts whose sequence comes after the
/// other's, counted modulo 3, and slot 0 where they are equal.
#[derive(Drop)]
pub struct Mark {
    base: u64,
    slot: u64,
    sequence: u8,
}

impl Model for Mark {
    ghost use Rattle.twin_mark.specs.Marks.{MarkView, IsMark};

    ghost Value = { MarkView };

    ghost view = { λ m. record { base = m.base; slot = m.slot; sequence = m.sequence } };

    ghost invariant = { λ m. IsMark (record { base = m.base; slot = m.slot; sequence = m.sequence }) };
}

/// Why no record was loaded.
#[derive(Clone, Copy, Debug, PartialEq, Eq)]
pub enum MarkFault {
    /// Neither slot is valid.
    NoMark,
    /// The disk failed.
    Failed,
}

impl From<Failed> for MarkFault {
    ghost use Rattle.std.specs.Prelude.{◌≡◌};
    ghost use Rattle.twin_mark.specs.declared.mark.MarkFault.TheVariants.{Failed as DiskFailed};

    ghost from_gives = { λ _ e. e ≡ DiskFailed };

    fn from(_: Failed) -> Self {
        MarkFault::Failed
    }
}

impl Mark {
    ghost use Rattle.twin_mark.specs.Marks.{record_at, Knows, Agrees, Stores, MayStore};

    /// A mark whose region begins at a place, in bytes. It knows no record before `format` or `load`.
    pub fn new(base: u64) -> Mark
        requires { base + 1024 < 2 ^ 64 }
        ensures { result.base ≡ base }
    {
        Mark {
            base,
            slot: 0,
            sequence: 0,
        }
    }

    /// Writes the whole region, with this record. A stop in it may leave any bytes there.
    ///
    /// Where the disk ends before the region, zero bytes are written up to it first, and nothing is said of what a stop
    /// leaves.
    pub fn format<D: Disk>(
        &mut self,
        disk: &mut D,
        era: &Era,
        body: &[u8; 255],
    ) -> Result<(), Failed>
        requires { MayUse era.now (D.ledger disk.old) }

        ensures base { self.new.base ≡ self.old.base }
        ensures value { OnErr result (self.new ≡ self.old) }

        ensures stored { IsTrue D.is_modelled → self.old.base ≤ length (D.bytes disk.old)
            → OnOk result (Stores self.old.base body.now (D.bytes disk.old) (D.bytes disk.new)) }
        ensures new_record { IsTrue D.is_modelled → OnOk result (record_at self.old.base (D.bytes disk.new) ≡ Some body.now) }
        ensures agrees { IsTrue D.is_modelled
            → OnOk result (Agrees self.new (seen D.Disk disk.new)) }
        ensures durable { IsTrue D.is_modelled
            → OnOk result (OnlyAfter era.now.number (D.bytes disk.new) (D.image disk.new)) }
        ensures crash { IsTrue D.is_modelled → self.old.base ≤ length (D.bytes disk.old)
            → Leaves era.now.number (Torn self.old.base 1024) (D.image disk.old) (D.image disk.new) }

        ensures ledger { Uses era.now 0 (self.old.base + 1024) (D.ledger disk.old) (D.ledger disk.new) }
        ensures bound { IsTrue D.is_modelled → self.old.base ≤ length (D.bytes disk.old)
            → (D.ledger disk.new).written ≤ (D.ledger disk.old).written + 1024 }
        ensures cause { HasCause (D.ledger disk.old).faults (D.ledger disk.new).faults result }
    {
        write_region(disk, era, self.base, body)?;
        self.slot = 0;
        self.sequence = 0;
        Ok(())
    }

    /// Reads the record that stands in the region, in one read.
    pub fn load<D: Disk>(
        &mut self,
        disk: &mut D,
        era: &Era,
        body: &mut [u8; 255],
    ) -> Result<(), MarkFault>
        requires { MayUse era.now (D.ledger disk.old) }

        ensures base { self.new.base ≡ self.old.base }
        ensures found { IsTrue D.is_modelled → OnOk result (record_at self.old.base (D.bytes disk.old) ≡ Some body.new) }
        ensures no_mark { IsTrue D.is_modelled
            → IsErrOf result MarkFault.NoMark → record_at self.old.base (D.bytes disk.old) ≡ None }
        ensures value { OnErr result (self.new ≡ self.old) }
        ensures body { OnErr result (body.new ≡ body.old) }

        // Where nothing was written since the last sync.
        ensures agrees { IsTrue D.is_modelled → IsSynced (seen D.Disk disk.old)
            → OnOk result (Agrees self.new (seen D.Disk disk.new)) }
        ensures bytes { OnOk result (D.bytes disk.new ≡ D.bytes disk.old) }
        ensures images { OnOk result (Unchanged (D.image disk.old) (D.image disk.new)) }
        ensures refused_bytes { IsErrOf result MarkFault.NoMark → D.bytes disk.new ≡ D.bytes disk.old }
        ensures refused_images { IsErrOf result MarkFault.NoMark → Unchanged (D.image disk.old) (D.image disk.new) }
        ensures crash { Leaves era.now.number Same (D.image disk.old) (D.image disk.new) }

        ensures ledger { Uses era.now 768 0 (D.ledger disk.old) (D.ledger disk.new) }
        ensures failed { IsErrOf result MarkFault.Failed → Rose (D.ledger disk.old).faults (D.ledger disk.new).faults }
    {
        let mut buffer = [0; 768];
        let Some(at) = read_record(disk, era, self.base, &mut buffer, body)? else {
            return Err(MarkFault::NoMark);
        };
        self.slot = at.slot;
        self.sequence = at.sequence;
        Ok(())
    }

    /// Puts a new record in the place of the old one. Where the mark agrees with the disk, each image has the old record
    /// or the new one, and after Ok the new one.
    ///
    /// Two or three writes, a sync after each. Where the disk ends before the slot's place, zero bytes are written up to
    /// it first, and nothing is said of what a stop leaves. After `Failed` the mark is loaded again.
    pub fn store<D: Disk>(
        &mut self,
        disk: &mut D,
        era: &Era,
        body: &[u8; 255],
    ) -> Result<(), Failed>
        requires { MayUse era.now (D.ledger disk.old) }

        ensures base { self.new.base ≡ self.old.base }
        ensures value { OnErr result (self.new ≡ self.old) }

        ensures stored { IsTrue D.is_modelled → Knows self.old (D.bytes disk.old)
            → OnOk result (Stores self.old.base body.now (D.bytes disk.old) (D.bytes disk.new)) }
        ensures agrees { IsTrue D.is_modelled → Knows self.old (D.bytes disk.old)
            → OnOk result (Agrees self.new (seen D.Disk disk.new)) }
        ensures durable { IsTrue D.is_modelled
            → OnOk result (OnlyAfter era.now.number (D.bytes disk.new) (D.image disk.new)) }
        ensures crash { IsTrue D.is_modelled
            → Agrees self.old (seen D.Disk disk.old)
            → Leaves era.now.number (MayStore self.old.base body.now) (D.image disk.old) (D.image disk.new) }

        ensures ledger { Uses era.now 1 (self.old.base + 770) (D.ledger disk.old) (D.ledger disk.new) }
        ensures bound { IsTrue D.is_modelled → Knows self.old (D.bytes disk.old)
            → (D.ledger disk.new).written ≤ (D.ledger disk.old).written + 258 }
        ensures cause { HasCause (D.ledger disk.old).faults (D.ledger disk.new).faults result }
    {
        let slot = 1 - self.slot;
        let sequence = (self.sequence + 1) % 3;
        let place = self.base + 256 * (slot + 1);
        put_record(disk, era, self.base + slot, place, sequence, body)?;
        self.slot = slot;
        self.sequence = sequence;
        Ok(())
    }
}
