//! The journal, followed record by record.
ghost use Rattle.std.specs.Prelude.{◌≡◌, ◌+◌, ◌*◌, ◌/◌, ◌%◌, ◌<◌, ◌≤◌, ℕ, List, length, map, IsTrue, Some, None, IfOk, OnOk};
ghost use Rattle.site_disk.specs.Bytes.{extent};
ghost use Rattle.catalogue_slots.specs.Records.{add, more};
ghost use Rattle.catalogue_slots.specs.Views.{object_of, record_of};
ghost use Rattle.catalogue_replay.specs.Journal.{fresh, end_of, begin_of, may_continue, with_runs, continued, taken, Takes, Reads, ReadsOn};
ghost use Rattle.catalogue_replay.specs.Live.{AreBelow, AreBelow-prop, live_below, waiting};

use crate::live::LiveObjects;
use crate::sums::blocks_in;
use block_chain::{Run, blocks_for};
use catalogue_slots::{ObjectEntry, SLOT_LEN, Slot, slots_for};
use std::alloc::{AllocError, Global};

/// The runs that a More has room for.
const MORE_RUNS: usize = 510;

/// An object whose runs aren't all there yet, and the count of all its runs.
#[derive(Drop)]
pub(crate) struct Rest {
    pub(crate) count: u32,
    pub(crate) entry: ObjectEntry,
}

impl Rest {
    ghost use Rattle.catalogue_replay.specs.Replays.{rest_in};

    // Whether these runs may come behind those so far.
    fn may_continue(&self, copy: u64, runs: &[Run]) -> bool
        ensures { result ≡ may_continue (rest_in self.now) copy runs.now }
    {
        let so_far = self.entry.runs.as_slice();
        let wanted = (self.count as usize)
            .saturating_sub(so_far.len())
            .min(MORE_RUNS);
        self.entry.copy == copy && runs.len() == wanted && end_of(so_far) != begin_of(runs)
    }
}

fn behind(run: &Run) -> u64
    ensures { result ≡ run.now.first + run.now.count }
{
    u64::from(run.first) + u64::from(run.count)
}

fn end_of(runs: &[Run]) -> u64
    ensures { result ≡ end_of runs.now }
{
    match runs.last() {
        Some(last) => behind(last),
        None => 0,
    }
}

fn begin_of(runs: &[Run]) -> u64
    ensures { result ≡ begin_of runs.now }
{
    match runs.first() {
        Some(run) => u64::from(run.first),
        None => 0,
    }
}

/// What some of the first slots say.
#[derive(Drop)]
pub(crate) struct Replay {
    /// How many slots they are.
    pub(crate) read: u32,
    /// The last copy id.
    last: u64,
    /// The copy id of the last Add.
    added: u64,
    /// The live objects.
    objects: LiveObjects,
    /// The object whose Mores come next, which is that of the last Add.
    rest: Option<Rest>,
    ghost below: { AreBelow (live_below added rest) objects } by { AreBelow-prop (live_below added rest) objects },
    ghost waits: { waiting added rest ≡ added },
}

impl Replay {
    ghost use Rattle.catalogue_replay.specs.Replays.{state_of};

    pub(crate) fn new(alloc: Global) -> Replay
        ensures { state_of result ≡ fresh }
    {
        Replay {
            read: 0,
            last: 0,
            added: 0,
            objects: LiveObjects::new(alloc),
            rest: None,
        }
    }

    // An object with so many runs in all is live once they are all there, and have the blocks that its bytes take.
    fn with_runs(&mut self, count: u32, entry: ObjectEntry) -> Result<bool, AllocError>
        requires none { self.old.rest ≡ None }
        requires last { entry.copy ≡ self.old.added }
        requires below { AreBelow entry.copy self.old.objects }
        ensures said { IfOk result (Takes (with_runs (state_of self.old) count (object_of entry)) (state_of self.new)) }
        ensures read { self.new.read ≡ self.old.read }
    {
        if entry.runs.len() != count as usize {
            self.rest = Some(Rest { count, entry });
            return Ok(true);
        }
        if blocks_in(&entry.runs) != blocks_for(entry.size) {
            return Ok(false);
        }
        self.objects.push(entry)?;
        Ok(true)
    }

    fn add(&mut self, used: u32, count: u32, entry: ObjectEntry) -> Result<bool, AllocError>
        ensures said { IfOk result (Takes (taken used (state_of self.old) (add count (object_of entry))) (state_of self.new)) }
        ensures read { self.new.read ≡ self.old.read }
    {
        let end = self.read as usize + slots_for(count as usize);
        if self.rest.is_some() || self.added >= entry.copy || end > used as usize {
            return Ok(false);
        }
        self.last = self.last.max(entry.copy);
        self.added = entry.copy;
        self.with_runs(count, entry)
    }

    fn go_on(&mut self, copy: u64, runs: &[Run]) -> Result<bool, AllocError>
        ensures said { IfOk result (Takes (taken 0 (state_of self.old) (more copy runs.now)) (state_of self.new)) }
        ensures read { self.new.read ≡ self.old.read }
    {
        let Some(mut rest) = self.rest.take() else {
            return Ok(false);
        };
        if !rest.may_continue(copy, runs) {
            return Ok(false);
        }
        rest.entry.runs.extend_from_slice(runs)?;
        self.with_runs(rest.count, rest.entry)
    }

    // Whether a record may come next. What it says is taken then.
    fn take(&mut self, used: u32, slot: Slot) -> Result<bool, AllocError>
        ensures said { IfOk result (Takes (taken used (state_of self.old) (record_of slot)) (state_of self.new)) }
        ensures read { self.new.read ≡ self.old.read }
    {
        match slot {
            Slot::Add { count, entry } => self.add(used, count, entry),
            Slot::More { copy, runs } => self.go_on(copy, &runs),
            Slot::Del { copy } => Ok(self.rest.is_none() && self.objects.take_out(copy)),
            Slot::Base { last } => {
                self.last = self.last.max(last);
                Ok(self.read == 0 && self.rest.is_none())
            }
        }
    }

    /// Follows the records in neighbouring slots, up to the first slot that isn't in the grammar. Whether none is.
    pub(crate) fn follow_run(
        &mut self,
        alloc: Global,
        used: u32,
        run: &[u8],
    ) -> Result<bool, AllocError>
        requires whole { length run.now % 4096 ≡ 0 }
        requires within { self.old.read + length run.now / 4096 ≤ used }
        ensures followed { (bytes : List ℕ) → Reads used bytes (state_of self.old)
            → extent (4096 * self.old.read) (length run.now) bytes ≡ run.now
            → IfOk result (ReadsOn used bytes (self.old.read + length run.now / 4096) (state_of self.new)) }
        ensures read { self.new.read ≤ used }
        ensures all { IfOk result (λ all. IsTrue all → self.new.read ≡ self.old.read + length run.now / 4096) }
    {
        for i in 0..run.len() / SLOT_LEN {
            let slot = &run[SLOT_LEN * i..SLOT_LEN * i + SLOT_LEN];
            let Some(found) = Slot::decode(alloc, slot)? else {
                return Ok(false);
            };
            if !self.take(used, found)? {
                return Ok(false);
            }
            self.read += 1;
        }
        Ok(true)
    }

    /// The last copy id, and the live objects in order.
    pub(crate) fn into_parts(self, alloc: Global) -> Result<(u64, Vec<ObjectEntry>), AllocError>
        ensures last { IfOk result (λ parts. parts.0 ≡ self.last) }
        ensures objects { IfOk result (λ parts. map object_of parts.1.items ≡ self.objects) }
    {
        let entries = self.objects.into_entries(alloc)?;
        Ok((self.last, entries))
    }
}
