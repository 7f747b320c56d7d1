// The source and the sink in memory.
ghost use Rattle.std.specs.Prelude.{◌≡◌, ◌↔◌, ◌<◌, ◌≤◌, ◌+◌, ◌++◌, ◌⊎◌, [], length, take, drop, vec_len, true, IsTrue, IsErr, IfOk, OnErr};

use super::moving::move_front;
use super::plan::FailPlan;
use crate::{Failed, Sink, Source};
use std::alloc::Global;

/// A source of bytes that are handed in.
#[derive(Drop)]
pub struct MemSource {
    bytes: Vec<u8>,
    at: usize,
    plan: FailPlan,
    faults: u64,
    ghost within: { at ≤ vec_len bytes },
}

impl MemSource {
    ghost use Rattle.site_disk.specs.Plans.{planned_from_now};
    ghost use Rattle.site_disk.specs.MemStreams.{source_left, source_faults, source_plan};

    /// A source of these bytes, whose calls fail that `fail` numbers, counted from 1.
    pub fn new(_alloc: Global, bytes: Vec<u8>, fail: Vec<u64>) -> MemSource
        ensures left { source_left result ≡ bytes.items }
        ensures faults { source_faults result ≡ 0 }
        ensures plan { source_plan result ≡ planned_from_now fail.items }
    {
        MemSource {
            bytes,
            at: 0,
            plan: FailPlan::new(fail),
            faults: 0,
        }
    }
}

impl Source for MemSource {
    ghost use Rattle.site_disk.specs.Causes.{HasCause};
    ghost use Rattle.site_disk.specs.Streams.{Takes};
    ghost use Rattle.site_disk.specs.Plans.{FailsNext, counted_on};
    ghost use Rattle.site_disk.specs.MemStreams.{source_left, source_faults, source_plan};

    ghost is_modelled = { true };

    ghost left = { source_left };

    ghost faults = { source_faults };

    /// Fails exactly where the plan has the call.
    fn read(&mut self, into: &mut [u8]) -> Result<usize, Failed>
        ensures bound { IfOk result (λ n. n ≤ length into.old) }
        ensures taken { IfOk result (λ n. Takes (source_left self.old) (source_left self.new) into.old into.new n) }
        ensures kept { OnErr result (source_left self.new ≡ source_left self.old) }
        ensures cause { HasCause (source_faults self.old) (source_faults self.new) result }
        ensures failed { IsErr result ↔ FailsNext (source_plan self.old) }
        ensures counted { source_plan self.new ≡ counted_on (source_plan self.old) }
    {
        if self.plan.count_call() {
            self.faults = self.faults.saturating_add(1);
            return Err(Failed);
        }
        let n = move_front(&self.bytes[self.at..], into);
        self.at += n;
        Ok(n)
    }
}

/// A sink that keeps the bytes that it takes.
#[derive(Drop)]
pub struct MemSink {
    taken: Vec<u8>,
    plan: FailPlan,
    faults: u64,
}

impl MemSink {
    ghost use Rattle.site_disk.specs.Plans.{planned_from_now};
    ghost use Rattle.site_disk.specs.MemStreams.{sink_taken, sink_faults, sink_plan};

    /// A sink that has taken nothing, whose calls fail that `fail` numbers, counted from 1.
    pub fn new(alloc: Global, fail: Vec<u64>) -> MemSink
        ensures taken { sink_taken result ≡ [] }
        ensures faults { sink_faults result ≡ 0 }
        ensures plan { sink_plan result ≡ planned_from_now fail.items }
    {
        MemSink {
            taken: Vec::new(alloc),
            plan: FailPlan::new(fail),
            faults: 0,
        }
    }

    /// The bytes taken so far.
    pub fn taken(&self) -> &[u8]
        ensures { result.now ≡ sink_taken self.now }
    {
        &self.taken
    }
}

impl Sink for MemSink {
    ghost use Rattle.site_disk.specs.Causes.{HasCause};
    ghost use Rattle.site_disk.specs.Plans.{FailsNext, counted_on};
    ghost use Rattle.site_disk.specs.MemStreams.{sink_taken, sink_faults, sink_plan, sink_room};

    ghost is_modelled = { true };

    ghost taken = { sink_taken };

    ghost faults = { sink_faults };

    /// Takes the whole piece, unless the plan has the call or memory runs out.
    fn write(&mut self, piece: &[u8]) -> Result<usize, Failed>
        ensures bound { IfOk result (λ n. n ≤ length piece.now) }
        ensures some { IfOk result (λ n. 0 < length piece.now → 0 < n) }
        ensures taken { IfOk result (λ n. sink_taken self.new ≡ sink_taken self.old ++ take n piece.now) }
        ensures kept { OnErr result (sink_taken self.new ≡ sink_taken self.old) }
        ensures cause { HasCause (sink_faults self.old) (sink_faults self.new) result }
        ensures whole { IfOk result (λ n. n ≡ length piece.now) }
        ensures planned { FailsNext (sink_plan self.old) → IsErr result }
        ensures failed { OnErr result (FailsNext (sink_plan self.old) ⊎ (sink_room self.old < length piece.now)) }
        ensures counted { sink_plan self.new ≡ counted_on (sink_plan self.old) }
    {
        if self.plan.count_call() {
            self.faults = self.faults.saturating_add(1);
            return Err(Failed);
        }
        if self.taken.extend_from_slice(piece).is_err() {
            self.faults = self.faults.saturating_add(1);
            return Err(Failed);
        }
        Ok(piece.len())
    }
}
