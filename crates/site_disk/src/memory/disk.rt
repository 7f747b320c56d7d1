// The disk in memory.
ghost use Rattle.std.specs.Prelude.{◌≡◌, ◌+◌, ◌<◌, ◌≤◌, [], ◌∷◌, ℕ, List, length, take, drop, true, IfOk, OnOk, OnErr};
ghost use Rattle.site_disk.specs.Bytes.{written};
ghost use Rattle.site_disk.specs.Causes.{HasCause, Rose};
ghost use Rattle.site_disk.specs.DiskPlans.{IsFailing, front_of};
ghost use Rattle.site_disk.specs.FaultCounts.{fault_count, CountsFaults};
ghost use Rattle.site_disk.specs.Ledger.{counted, new_ledger};
ghost use Rattle.site_disk.specs.Past.{contents, synced as sync_event, is_in_order, PutsFront};
ghost use Rattle.site_disk.specs.Recording.{first_bytes, past_events, calls_room, bytes_room};

use super::moving::copy_from;
use super::plan::{DiskPlan, FailPlan, Fate, Stop};
use super::recording::Recording;
use crate::{Disk, Era, Failed, OutOfMemory};
use std::alloc::Global;

/// The failures so far: those that the plan named, and those for want of memory.
#[derive(Clone, Copy)]
pub struct FaultCounts {
    pub planned: u64,
    pub starved: u64,
}

impl FaultCounts {
    fn count_planned(&mut self) -> Failed
        ensures planned { self.new.planned ≡ counted self.old.planned 1 }
        ensures starved { self.new.starved ≡ self.old.starved }
        ensures later { fault_count self.old ≤ fault_count self.new }
        ensures rose { Rose (fault_count self.old) (fault_count self.new) }
    {
        self.planned = self.planned.saturating_add(1);
        Failed
    }

    fn count_starved(&mut self) -> Failed
        ensures starved { self.new.starved ≡ counted self.old.starved 1 }
        ensures planned { self.new.planned ≡ self.old.planned }
        ensures later { fault_count self.old ≤ fault_count self.new }
        ensures rose { Rose (fault_count self.old) (fault_count self.new) }
    {
        self.starved = self.starved.saturating_add(1);
        Failed
    }
}

/// Where in its era a crash falls, and what it leaves of the writes that it may tear.
#[derive(Clone, Copy, Debug, PartialEq, Eq)]
pub struct Choice {
    /// After so many of the writes and syncs that the era has recorded, at the last moment where there are fewer.
    pub calls: u64,
    pub seed: u64,
}

/// A disk in memory, which keeps what a crash may leave of it.
#[derive(Drop)]
pub struct MemDisk {
    recording: Recording,
    plan: DiskPlan,
    faults: FaultCounts,
    read: u64,
    written: u64,
    last: u64,
    synced: u64,
    key: u64,
    ghost in_order: { is_in_order last (first_bytes recording) (past_events recording) ≡ true },
}

// A write as the plan has it go: whole, not at all, or a front of it.
fn put_as_planned(
    recording: &mut Recording,
    faults: &mut FaultCounts,
    fate: Fate,
    era: u64,
    at: usize,
    piece: &[u8],
) -> Result<(), Failed>
    requires { at ≤ length (contents (first_bytes recording.old) (past_events recording.old)) }
    ensures start { first_bytes recording.new ≡ first_bytes recording.old }
    ensures puts { PutsFront era at piece.now (front_of fate piece.now) (past_events recording.old) (past_events recording.new) result }
    ensures cause { HasCause (fault_count faults.old) (fault_count faults.new) result }
    ensures faults { CountsFaults (IsFailing fate) faults.old faults.new result }
    ensures calls_room { calls_room recording.old ≤ calls_room recording.new + 1 }
    ensures bytes_room { bytes_room recording.old ≤ bytes_room recording.new + length piece.now }
    ensures within_room { 0 < calls_room recording.old → length piece.now ≤ bytes_room recording.old → OnErr result (IsFailing fate) }
    ensures front { 0 < calls_room recording.old → length piece.now ≤ bytes_room recording.old →
        OnErr result (contents (first_bytes recording.new) (past_events recording.new)
        ≡ written at (front_of fate piece.now) (contents (first_bytes recording.old) (past_events recording.old))) }
{
    match fate {
        Fate::Goes => match recording.put(era, at, piece) {
            Ok(()) => Ok(()),
            Err(_) => Err(faults.count_starved()),
        },
        Fate::Fails => Err(faults.count_planned()),
        Fate::Stops(bytes) => {
            let front = bytes.min(piece.len());
            let _ = recording.put(era, at, &piece[..front]);
            Err(faults.count_planned())
        }
    }
}

// A sync as the plan has it go.
fn sync_as_planned(
    recording: &mut Recording,
    faults: &mut FaultCounts,
    synced: &mut u64,
    fate: Fate,
    era: u64,
) -> Result<(), Failed>
    ensures start { first_bytes recording.new ≡ first_bytes recording.old }
    ensures synced { OnOk result (past_events recording.new ≡ sync_event era ∷ past_events recording.old) }
    ensures failed { OnErr result (past_events recording.new ≡ past_events recording.old) }
    ensures era { OnOk result (synced.new ≡ era) }
    ensures era_kept { OnErr result (synced.new ≡ synced.old) }
    ensures cause { HasCause (fault_count faults.old) (fault_count faults.new) result }
    ensures faults { CountsFaults (IsFailing fate) faults.old faults.new result }
    ensures calls_room { calls_room recording.old ≤ calls_room recording.new + 1 }
    ensures bytes_room { bytes_room recording.new ≡ bytes_room recording.old }
    ensures within_room { 0 < calls_room recording.old → OnErr result (IsFailing fate) }
{
    match fate {
        Fate::Goes => match recording.sync(era) {
            Ok(()) => {
                *synced = era;
                Ok(())
            }
            Err(_) => Err(faults.count_starved()),
        },
        Fate::Fails | Fate::Stops(_) => Err(faults.count_planned()),
    }
}

impl MemDisk {
    ghost use Rattle.site_disk.specs.Images.{Unchanged};
    ghost use Rattle.site_disk.specs.Plans.{planned_from_now};
    ghost use Rattle.site_disk.specs.DiskPlans.{no_failures, stop_from_now};
    ghost use Rattle.site_disk.specs.MemDisk.{disk_bytes, disk_image, disk_left_at, disk_ledger, disk_plan, disk_faults, disk_calls_room, disk_bytes_room, HasRoom};

    /// A disk of these bytes, used last in this era, all of it synced. Takes no memory.
    pub fn new(alloc: Global, era: &Era, bytes: Vec<u8>) -> MemDisk
        ensures bytes { disk_bytes result ≡ bytes.items }
        ensures images { (f : ℕ) (c : List ℕ) → disk_image result f c → c ≡ bytes.items }
        ensures ledger { disk_ledger result ≡ new_ledger era.now.number era.now.key }
        ensures plan { disk_plan result ≡ no_failures }
        ensures faults { disk_faults result ≡ record { planned = 0; starved = 0 } }
    {
        MemDisk::of_bytes(alloc, era.number(), era.key(), bytes)
    }

    fn of_bytes(alloc: Global, last: u64, key: u64, bytes: Vec<u8>) -> MemDisk
        ensures bytes { disk_bytes result ≡ bytes.items }
        ensures images { (f : ℕ) (c : List ℕ) → disk_image result f c → c ≡ bytes.items }
        ensures ledger { disk_ledger result ≡ new_ledger last key }
        ensures plan { disk_plan result ≡ no_failures }
        ensures faults { disk_faults result ≡ record { planned = 0; starved = 0 } }
    {
        MemDisk {
            recording: Recording::new(alloc, bytes),
            plan: DiskPlan::new(alloc),
            faults: FaultCounts {
                planned: 0,
                starved: 0,
            },
            read: 0,
            written: 0,
            last,
            synced: last,
            key,
        }
    }

    /// What a crash in an era leaves, as a disk of its own: each range that wasn't synced at the moment of the crash is
    /// kept, dropped or torn. It is used last in this era, with no call to fail and nothing counted.
    pub fn crash(self, era: &Era, choice: &Choice) -> Result<MemDisk, OutOfMemory>
        ensures moment { IfOk result (λ disk. disk_left_at self era.now.number choice.now.calls (disk_bytes disk)) }
        ensures image { IfOk result (λ disk. disk_image self era.now.number (disk_bytes disk)) }
        ensures images { IfOk result (λ disk. (f : ℕ) (c : List ℕ) → disk_image disk f c → c ≡ disk_bytes disk) }
        ensures ledger { IfOk result (λ disk. disk_ledger disk ≡ new_ledger era.now.number (disk_ledger self).key) }
        ensures plan { IfOk result (λ disk. disk_plan disk ≡ no_failures) }
        ensures faults { IfOk result (λ disk. disk_faults disk ≡ record { planned = 0; starved = 0 }) }
    {
        let bytes = self
            .recording
            .torn(era.number(), choice.calls, choice.seed)?;
        Ok(MemDisk::of_bytes(self.recording.alloc(), era.number(), self.key, bytes))
    }

    /// The calls that fail, counted from 1 from now on, in place of an earlier list. A write that fails so puts nothing.
    pub fn fail_at(&mut self, calls: Vec<u64>)
        ensures plan { disk_plan self.new ≡ record (disk_plan self.old) { fail = planned_from_now calls.items } }
        ensures bytes { disk_bytes self.new ≡ disk_bytes self.old }
        ensures images { Unchanged (disk_image self.old) (disk_image self.new) }
        ensures ledger { disk_ledger self.new ≡ disk_ledger self.old }
        ensures faults { disk_faults self.new ≡ disk_faults self.old }
        ensures calls_room { disk_calls_room self.new ≡ disk_calls_room self.old }
        ensures bytes_room { disk_bytes_room self.new ≡ disk_bytes_room self.old }
    {
        self.plan.fail = FailPlan::new(calls);
    }

    /// Stops at a call, counted from 1 from now on, in place of an earlier stop: it and every later call fail. If it is
    /// a write, its first `bytes` bytes are put. At 0 each call fails.
    pub fn stop_at(&mut self, call: u64, bytes: usize)
        ensures plan { disk_plan self.new ≡ record (disk_plan self.old) { stop = stop_from_now call bytes } }
        ensures bytes { disk_bytes self.new ≡ disk_bytes self.old }
        ensures images { Unchanged (disk_image self.old) (disk_image self.new) }
        ensures ledger { disk_ledger self.new ≡ disk_ledger self.old }
        ensures faults { disk_faults self.new ≡ disk_faults self.old }
        ensures calls_room { disk_calls_room self.new ≡ disk_calls_room self.old }
        ensures bytes_room { disk_bytes_room self.new ≡ disk_bytes_room self.old }
    {
        self.plan.stop_at(call, bytes);
    }

    /// Takes room for so many more writes and syncs, whose writes have together so many bytes. Within that room a call
    /// fails only by plan.
    pub fn reserve(&mut self, calls: u64, bytes: u64) -> Result<(), OutOfMemory>
        ensures room { OnOk result (HasRoom self.new calls bytes) }
        ensures bytes { disk_bytes self.new ≡ disk_bytes self.old }
        ensures images { Unchanged (disk_image self.old) (disk_image self.new) }
        ensures ledger { disk_ledger self.new ≡ disk_ledger self.old }
        ensures plan { disk_plan self.new ≡ disk_plan self.old }
        ensures faults { disk_faults self.new ≡ disk_faults self.old }
    {
        self.recording.reserve(calls as usize, bytes as usize)
    }

    /// How many calls have failed by plan.
    pub fn planned(&self) -> u64
        ensures { result ≡ (disk_faults self.now).planned }
    {
        self.faults.planned
    }

    /// How many calls have failed for want of memory.
    pub fn starved(&self) -> u64
        ensures { result ≡ (disk_faults self.now).starved }
    {
        self.faults.starved
    }

    /// How many bytes reads have given.
    pub fn bytes_read(&self) -> u64
        ensures { result ≡ (disk_ledger self.now).read }
    {
        self.read
    }

    /// How many bytes writes were handed, those that failed too.
    pub fn bytes_written(&self) -> u64
        ensures { result ≡ (disk_ledger self.now).written }
    {
        self.written
    }

    /// What a read gives now.
    pub fn bytes(&self) -> &[u8]
        ensures { result.now ≡ disk_bytes self.now }
    {
        self.recording.bytes()
    }
}

impl Disk for MemDisk {
    ghost use Rattle.site_disk.specs.Bytes.{extent, Torn, Same, MayWrite};
    ghost use Rattle.site_disk.specs.Images.{Leaves, Stays, OnlyAfter, Unchanged};
    ghost use Rattle.site_disk.specs.Ledger.{MayUse, CountsRead, CountsWrite, CountsSync};
    ghost use Rattle.site_disk.specs.DiskPlans.{CallFails, plan_after, front_put};
    ghost use Rattle.site_disk.specs.MemDisk.{disk_bytes, disk_image, disk_ledger, disk_plan, disk_faults, disk_calls_room, disk_bytes_room, HasRoom, disk_now_counts, disk_reads_as};

    ghost is_modelled = { true };

    ghost bytes = { disk_bytes };

    ghost image = { disk_image };

    ghost ledger = { disk_ledger };

    /// Fails exactly where the plan has the call.
    fn len(&mut self) -> Result<u64, Failed>
        ensures found { IfOk result (λ n. n ≡ length (disk_bytes self.old)) }
        ensures bytes { disk_bytes self.new ≡ disk_bytes self.old }
        ensures images { Unchanged (disk_image self.old) (disk_image self.new) }
        ensures ledger { disk_ledger self.new ≡ record (disk_ledger self.old) { faults = (disk_ledger self.new).faults } }
        ensures cause { HasCause (disk_ledger self.old).faults (disk_ledger self.new).faults result }
        ensures failed { OnErr result (CallFails (disk_plan self.old)) }
        ensures faults { CountsFaults (CallFails (disk_plan self.old)) (disk_faults self.old) (disk_faults self.new) result }
        ensures plan { disk_plan self.new ≡ plan_after (disk_plan self.old) }
        ensures calls_room { disk_calls_room self.new ≡ disk_calls_room self.old }
        ensures bytes_room { disk_bytes_room self.new ≡ disk_bytes_room self.old }
    {
        match self.plan.count_call() {
            Fate::Goes => Ok(self.recording.bytes().len() as u64),
            Fate::Fails | Fate::Stops(_) => Err(self.faults.count_planned()),
        }
    }

    /// Fails exactly where the plan has the call.
    fn read_at(&mut self, era: &Era, at: u64, into: &mut [u8]) -> Result<usize, Failed>
        requires { MayUse era.now (disk_ledger self.old) }
        ensures bound { IfOk result (λ n. n ≤ length into.old) }
        ensures count { IfOk result (λ n. n ≡ length (extent at (length into.old) (disk_bytes self.old))) }
        ensures found { IfOk result (λ n. take n into.new ≡ extent at n (disk_bytes self.old)) }
        ensures rest { IfOk result (λ n. drop n into.new ≡ drop n into.old) }
        ensures bytes { disk_bytes self.new ≡ disk_bytes self.old }
        ensures images { Unchanged (disk_image self.old) (disk_image self.new) }
        ensures crash { Leaves era.now.number Same (disk_image self.old) (disk_image self.new) }
        ensures stays { Stays era.now.number (disk_image self.old) (disk_image self.new) }
        ensures ledger { CountsRead era.now (disk_ledger self.old) (disk_ledger self.new) result }
        ensures cause { HasCause (disk_ledger self.old).faults (disk_ledger self.new).faults result }
        ensures failed { OnErr result (CallFails (disk_plan self.old)) }
        ensures faults { CountsFaults (CallFails (disk_plan self.old)) (disk_faults self.old) (disk_faults self.new) result }
        ensures plan { disk_plan self.new ≡ plan_after (disk_plan self.old) }
        ensures calls_room { disk_calls_room self.new ≡ disk_calls_room self.old }
        ensures bytes_room { disk_bytes_room self.new ≡ disk_bytes_room self.old }
    {
        self.last = era.number();
        match self.plan.count_call() {
            Fate::Goes => {
                let n = copy_from(self.recording.bytes(), at, into);
                self.read = self.read.saturating_add(n as u64);
                Ok(n)
            }
            Fate::Fails | Fate::Stops(_) => Err(self.faults.count_planned()),
        }
    }

    /// Fails where the plan has the call, and where memory runs out. Then nothing is written, or what the stop has the
    /// call put.
    fn write_at(&mut self, era: &Era, at: u64, piece: &[u8]) -> Result<(), Failed>
        requires era { MayUse era.now (disk_ledger self.old) }
        requires within { at ≤ length (disk_bytes self.old) }
        ensures bytes { OnOk result (disk_bytes self.new ≡ written at piece.now (disk_bytes self.old)) }
        ensures crash { Leaves era.now.number (Torn at (length piece.now)) (disk_image self.old) (disk_image self.new) }
        ensures stays { Stays era.now.number (disk_image self.old) (disk_image self.new) }
        ensures ledger { CountsWrite era.now (length piece.now) (disk_ledger self.old) (disk_ledger self.new) }
        ensures cause { HasCause (disk_ledger self.old).faults (disk_ledger self.new).faults result }
        ensures front { OnErr result (MayWrite at (front_put (disk_plan self.old).stop piece.now) (disk_bytes self.old) (disk_bytes self.new)) }
        ensures faults { CountsFaults (CallFails (disk_plan self.old)) (disk_faults self.old) (disk_faults self.new) result }
        ensures plan { disk_plan self.new ≡ plan_after (disk_plan self.old) }
        ensures calls_room { disk_calls_room self.old ≤ disk_calls_room self.new + 1 }
        ensures bytes_room { disk_bytes_room self.old ≤ disk_bytes_room self.new + length piece.now }
        ensures within_room { HasRoom self.old 1 (length piece.now) → OnErr result (CallFails (disk_plan self.old)) }
        ensures front_within_room { HasRoom self.old 1 (length piece.now) →
            OnErr result (disk_bytes self.new ≡ written at (front_put (disk_plan self.old).stop piece.now) (disk_bytes self.old)) }
    {
        let now = era.number();
        self.last = now;
        self.written = self.written.saturating_add(piece.len() as u64);
        let fate = self.plan.count_call();
        put_as_planned(
            &mut self.recording,
            &mut self.faults,
            fate,
            now,
            at as usize,
            piece,
        )
    }

    /// Fails where the plan has the call, and where memory runs out.
    fn sync(&mut self, era: &Era) -> Result<(), Failed>
        requires { MayUse era.now (disk_ledger self.old) }
        ensures bytes { disk_bytes self.new ≡ disk_bytes self.old }
        ensures durable { OnOk result (OnlyAfter era.now.number (disk_bytes self.new) (disk_image self.new)) }
        ensures images { OnErr result (Unchanged (disk_image self.old) (disk_image self.new)) }
        ensures crash { Leaves era.now.number Same (disk_image self.old) (disk_image self.new) }
        ensures stays { Stays era.now.number (disk_image self.old) (disk_image self.new) }
        ensures ledger { CountsSync era.now (disk_ledger self.old) (disk_ledger self.new) result }
        ensures cause { HasCause (disk_ledger self.old).faults (disk_ledger self.new).faults result }
        ensures faults { CountsFaults (CallFails (disk_plan self.old)) (disk_faults self.old) (disk_faults self.new) result }
        ensures plan { disk_plan self.new ≡ plan_after (disk_plan self.old) }
        ensures calls_room { disk_calls_room self.old ≤ disk_calls_room self.new + 1 }
        ensures bytes_room { disk_bytes_room self.new ≡ disk_bytes_room self.old }
        ensures within_room { HasRoom self.old 1 0 → OnErr result (CallFails (disk_plan self.old)) }
    {
        let now = era.number();
        self.last = now;
        let fate = self.plan.count_call();
        sync_as_planned(
            &mut self.recording,
            &mut self.faults,
            &mut self.synced,
            fate,
            now,
        )
    }

    ghost now_counts = { λ disk f g c le lt image. disk_now_counts disk f g c le lt image };

    ghost reads_as = { λ disk f tells le. disk_reads_as disk f le };
}
