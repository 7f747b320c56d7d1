// An area of gated slots.
ghost use Rattle.std.specs.Prelude.{◌≡◌, ℕ, ◌+◌, ◌-◌, ◌*◌, ◌/◌, ◌%◌, ◌^◌, ◌<◌, ◌≤◌, ◌↔◌, min, length, IsTrue, IfOk, OnOk, OnErr, IsErrOf};
ghost use Rattle.site_disk.specs.Bytes.{extent, Same, Torn};
ghost use Rattle.site_disk.specs.Causes.{Rose, HasCause};
ghost use Rattle.site_disk.specs.Images.{Leaves, OnlyAfter, Unchanged};
ghost use Rattle.site_disk.specs.Ledger.{MayUse, Uses};
ghost use Rattle.site_disk.specs.Seen.{seen};

use crate::reading::count_used;
use crate::writing::{add_batch, zero_up_to};
use site_disk::{Disk, Era, Failed};
use std::marker::Model;

// The gates are read so many at a time.
const BUFFER_LEN: usize = 4096;

/// An area of slots of one size, and how many of them are used: the first ones, up to the last open gate.
///
/// Each slot has a gate byte in a region before the slots. A gate is closed exactly where its byte is 0.
#[derive(Drop)]
pub struct Slots {
    gates: u64,
    slots: u64,
    size: u32,
    capacity: u32,
    used: u32,
}

impl Model for Slots {
    ghost use Rattle.gated_slots.specs.Slots.{SlotsView, IsSlots};

    ghost Value = { SlotsView };

    ghost view = { λ s. record {
      area = record { gates = s.gates; slots = s.slots; size = s.size; capacity = s.capacity };
      used = s.used;
    } };

    ghost invariant = { λ s. IsSlots (record {
      area = record { gates = s.gates; slots = s.slots; size = s.size; capacity = s.capacity };
      used = s.used;
    }) };
}

/// Why a batch was not appended.
#[derive(Clone, Copy, Debug, PartialEq, Eq)]
pub enum AppendFault {
    /// Fewer slots are free than wanted: a refusal, before the disk is used. `wanted` is at most 4,294,967,295.
    Full { used: u32, wanted: u32 },
    /// The disk failed. Open the slots again.
    Failed,
}

impl From<Failed> for AppendFault {
    ghost use Rattle.std.specs.Prelude.{◌≡◌};
    ghost use Rattle.gated_slots.specs.declared.slots.AppendFault.TheVariants.{Failed as DiskFailed};

    ghost from_gives = { λ _ e. e ≡ DiskFailed };

    fn from(_: Failed) -> Self {
        AppendFault::Failed
    }
}

impl Slots {
    ghost use Rattle.gated_slots.specs.Slots.{IsSlots, used, slots_in, place_of, end_of_gates, first_zero, Zeroes, Gains, MayGain, Agrees, Reaches};

    /// An area whose gates begin at one place and whose slots begin at another, both in bytes; each slot has `size`
    /// bytes. No slot counts as used before `open`, `format` or `clear`.
    pub fn new(gates: u64, slots: u64, size: u32, capacity: u32) -> Slots
        requires size { 1 ≤ size }
        requires capacity { 1 ≤ capacity }
        requires gates { gates + capacity ≤ slots }
        requires slots { slots + size * capacity < 2 ^ 64 }
        ensures area { result.area ≡ record { gates = gates; slots = slots; size = size; capacity = capacity } }
        ensures used { result.used ≡ 0 }
    {
        Slots {
            gates,
            slots,
            size,
            capacity,
            used: 0,
        }
    }

    /// The number of slots used.
    pub fn used(&self) -> u32
        ensures used { result ≡ self.now.used }
        ensures within { IsSlots self.now }
    {
        self.used
    }

    /// Appends a batch of whole slots, and answers the first one's number. Each image of the disk has the whole batch
    /// or nothing of it, and after Ok it has the batch.
    ///
    /// Two writes and two syncs. Where the disk ends before the next slot's place, zero bytes are written up to it
    /// first, and nothing is said of what a stop leaves. After `Failed` the slots are opened again.
    pub fn append<D: Disk>(
        &mut self,
        disk: &mut D,
        era: &Era,
        batch: &[u8],
    ) -> Result<u32, AppendFault>
        requires era { MayUse era.now (D.ledger disk.old) }
        requires whole { length batch.now % self.old.area.size ≡ 0 }
        requires some { 0 < length batch.now }

        ensures first { IfOk result (λ first. first ≡ self.old.used) }
        ensures used { OnOk result (self.new ≡ record self.old { used = self.old.used + slots_in self.old.area batch.now }) }
        ensures value { OnErr result (self.new ≡ self.old) }

        ensures gained { IsTrue D.is_modelled → Reaches self.old (D.bytes disk.old)
            → Agrees self.old (seen D.Disk disk.old)
            → OnOk result (Gains self.old.area (slots_in self.old.area batch.now) batch.now
            (D.bytes disk.old) (D.bytes disk.new)) }
        ensures reaches { IsTrue D.is_modelled → OnOk result (Reaches self.new (D.bytes disk.new)) }
        ensures agrees { IsTrue D.is_modelled
            → Agrees self.old (seen D.Disk disk.old)
            → OnOk result (Agrees self.new (seen D.Disk disk.new)) }
        ensures durable { IsTrue D.is_modelled
            → OnOk result (OnlyAfter era.now.number (D.bytes disk.new) (D.image disk.new)) }
        ensures crash { IsTrue D.is_modelled → Reaches self.old (D.bytes disk.old)
            → Agrees self.old (seen D.Disk disk.old)
            → Leaves era.now.number (MayGain self.old.area (slots_in self.old.area batch.now) batch.now)
            (D.image disk.old) (D.image disk.new) }

        ensures ledger { Uses era.now 0 (place_of self.old.area self.old.used + length batch.now + 1)
            (D.ledger disk.old) (D.ledger disk.new) }
        ensures bound { IsTrue D.is_modelled → Reaches self.old (D.bytes disk.old)
            → (D.ledger disk.new).written ≤ (D.ledger disk.old).written + length batch.now + 1 }

        ensures full { self.old.area.capacity < self.old.used + slots_in self.old.area batch.now
            → IsErrOf result (AppendFault.Full self.old.used (min (slots_in self.old.area batch.now) (2 ^ 32 - 1))) }
        ensures full_only { (used wanted : ℕ) → IsErrOf result (AppendFault.Full used wanted)
            → self.old.area.capacity < self.old.used + slots_in self.old.area batch.now }
        ensures refused { (used wanted : ℕ) → IsErrOf result (AppendFault.Full used wanted)
            → disk.new ≡ disk.old }
        ensures failed { IsErrOf result AppendFault.Failed
            → Rose (D.ledger disk.old).faults (D.ledger disk.new).faults }
    {
        let first = self.used;
        let wanted = batch.len() / self.size as usize;
        if wanted > (self.capacity - first) as usize {
            let wanted = wanted.min(u32::MAX as usize) as u32;
            return Err(AppendFault::Full {
                used: first,
                wanted,
            });
        }
        let place = self.slots + self.size as u64 * first as u64;
        let gate = self.gates + first as u64 + wanted as u64 - 1;
        add_batch(disk, era, place, batch, gate)?;
        self.used += wanted as u32;
        Ok(first)
    }

    /// Counts the slots used by the gates on the disk, after a sync.
    pub fn open<D: Disk>(&mut self, disk: &mut D, era: &Era) -> Result<(), Failed>
        requires { MayUse era.now (D.ledger disk.old) }

        ensures area { self.new.area ≡ self.old.area }
        ensures used { IsTrue D.is_modelled → OnOk result (self.new.used ≡ used self.old.area (D.bytes disk.old)) }
        ensures value { OnErr result (self.new ≡ self.old) }

        ensures bytes { OnOk result (D.bytes disk.new ≡ D.bytes disk.old) }
        ensures agrees { IsTrue D.is_modelled
            → OnOk result (Agrees self.new (seen D.Disk disk.new)) }
        ensures durable { IsTrue D.is_modelled
            → OnOk result (OnlyAfter era.now.number (D.bytes disk.new) (D.image disk.new)) }
        ensures crash { Leaves era.now.number Same (D.image disk.old) (D.image disk.new) }

        ensures ledger { Uses era.now self.old.area.capacity 0 (D.ledger disk.old) (D.ledger disk.new) }
        ensures cause { HasCause (D.ledger disk.old).faults (D.ledger disk.new).faults result }
    {
        disk.sync(era)?;
        let mut buffer = [0; BUFFER_LEN];
        self.used = count_used(disk, era, self.gates, self.capacity, &mut buffer)?;
        Ok(())
    }

    /// Reads one of the slots used. False exactly where the disk ends within the slot.
    pub fn read<D: Disk>(
        &self,
        disk: &mut D,
        era: &Era,
        slot: u32,
        into: &mut [u8],
    ) -> Result<bool, Failed>
        requires era { MayUse era.now (D.ledger disk.old) }
        requires slot { slot < self.now.used }
        requires one { length into.old ≡ self.now.area.size }

        ensures whole { IsTrue D.is_modelled → IfOk result (λ whole.
            IsTrue whole ↔ (place_of self.now.area slot + self.now.area.size ≤ length (D.bytes disk.old))) }
        ensures found { IsTrue D.is_modelled → IfOk result (λ whole.
            IsTrue whole → into.new ≡ extent (place_of self.now.area slot) self.now.area.size (D.bytes disk.old)) }

        ensures bytes { OnOk result (D.bytes disk.new ≡ D.bytes disk.old) }
        ensures images { OnOk result (Unchanged (D.image disk.old) (D.image disk.new)) }
        ensures crash { Leaves era.now.number Same (D.image disk.old) (D.image disk.new) }

        ensures ledger { Uses era.now self.now.area.size 0 (D.ledger disk.old) (D.ledger disk.new) }
        ensures cause { HasCause (D.ledger disk.old).faults (D.ledger disk.new).faults result }
    {
        prove!(slot < self.used);
        self.read_run(disk, era, slot, into)
    }

    /// Reads neighbouring slots of those used, as many as the buffer holds, in one read. False exactly where the disk
    /// ends before the last of them does.
    pub fn read_run<D: Disk>(
        &self,
        disk: &mut D,
        era: &Era,
        slot: u32,
        into: &mut [u8],
    ) -> Result<bool, Failed>
        requires era { MayUse era.now (D.ledger disk.old) }
        requires whole { length into.old % self.now.area.size ≡ 0 }
        requires some { 0 < length into.old }
        requires slots { slot + slots_in self.now.area into.old ≤ self.now.used }

        ensures whole { IsTrue D.is_modelled → IfOk result (λ whole.
            IsTrue whole ↔ (place_of self.now.area slot + length into.old ≤ length (D.bytes disk.old))) }
        ensures found { IsTrue D.is_modelled → IfOk result (λ whole.
            IsTrue whole → into.new ≡ extent (place_of self.now.area slot) (length into.old) (D.bytes disk.old)) }

        ensures bytes { OnOk result (D.bytes disk.new ≡ D.bytes disk.old) }
        ensures images { OnOk result (Unchanged (D.image disk.old) (D.image disk.new)) }
        ensures crash { Leaves era.now.number Same (D.image disk.old) (D.image disk.new) }

        ensures ledger { Uses era.now (length into.old) 0 (D.ledger disk.old) (D.ledger disk.new) }
        ensures cause { HasCause (D.ledger disk.old).faults (D.ledger disk.new).faults result }
    {
        let place = self.slots + self.size as u64 * slot as u64;
        let found = disk.read_at(era, place, into)?;
        Ok(found == into.len())
    }

    /// Closes all gates and writes zero bytes up to the slots, from the gates on or from the disk's end where that is
    /// before them.
    ///
    /// A stop in it may leave any gates, so that nothing may name the area meanwhile.
    pub fn format<D: Disk>(&mut self, disk: &mut D, era: &Era) -> Result<(), Failed>
        requires { MayUse era.now (D.ledger disk.old) }

        ensures none { OnOk result (self.new ≡ record self.old { used = 0 }) }
        ensures value { OnErr result (self.new ≡ self.old) }

        ensures zeros { IsTrue D.is_modelled
            → OnOk result (Zeroes (first_zero self.old.area (D.bytes disk.old)) self.old.area.slots
            (D.bytes disk.old) (D.bytes disk.new)) }
        ensures agrees { IsTrue D.is_modelled
            → OnOk result (Agrees self.new (seen D.Disk disk.new)) }
        ensures durable { IsTrue D.is_modelled
            → OnOk result (OnlyAfter era.now.number (D.bytes disk.new) (D.image disk.new)) }
        ensures crash { IsTrue D.is_modelled → let first = first_zero self.old.area (D.bytes disk.old) in
            Leaves era.now.number (Torn first (self.old.area.slots - first))
            (D.image disk.old) (D.image disk.new) }

        ensures ledger { Uses era.now 0 self.old.area.slots (D.ledger disk.old) (D.ledger disk.new) }
        ensures bound { IsTrue D.is_modelled → self.old.area.gates ≤ length (D.bytes disk.old)
            → (D.ledger disk.new).written ≤ (D.ledger disk.old).written + (self.old.area.slots - self.old.area.gates) }
        ensures cause { HasCause (D.ledger disk.old).faults (D.ledger disk.new).faults result }
    {
        zero_up_to(disk, era, self.gates, self.slots)?;
        self.used = 0;
        Ok(())
    }

    /// Closes all gates, and writes nothing else where the disk reaches them.
    ///
    /// A stop in it may leave any gates, so that nothing may name the area meanwhile.
    pub fn clear<D: Disk>(&mut self, disk: &mut D, era: &Era) -> Result<(), Failed>
        requires { MayUse era.now (D.ledger disk.old) }

        ensures none { OnOk result (self.new ≡ record self.old { used = 0 }) }
        ensures value { OnErr result (self.new ≡ self.old) }

        ensures zeros { IsTrue D.is_modelled
            → OnOk result (Zeroes (first_zero self.old.area (D.bytes disk.old)) (end_of_gates self.old.area)
            (D.bytes disk.old) (D.bytes disk.new)) }
        ensures agrees { IsTrue D.is_modelled
            → OnOk result (Agrees self.new (seen D.Disk disk.new)) }
        ensures durable { IsTrue D.is_modelled
            → OnOk result (OnlyAfter era.now.number (D.bytes disk.new) (D.image disk.new)) }
        ensures crash { IsTrue D.is_modelled → let first = first_zero self.old.area (D.bytes disk.old) in
            Leaves era.now.number (Torn first (end_of_gates self.old.area - first))
            (D.image disk.old) (D.image disk.new) }

        ensures ledger { Uses era.now 0 (end_of_gates self.old.area) (D.ledger disk.old) (D.ledger disk.new) }
        ensures bound { IsTrue D.is_modelled → self.old.area.gates ≤ length (D.bytes disk.old)
            → (D.ledger disk.new).written ≤ (D.ledger disk.old).written + self.old.area.capacity }
        ensures cause { HasCause (D.ledger disk.old).faults (D.ledger disk.new).faults result }
    {
        zero_up_to(disk, era, self.gates, self.gates + self.capacity as u64)?;
        self.used = 0;
        Ok(())
    }
}
