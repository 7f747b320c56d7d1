//! What the records read so far give.
ghost use Rattle.std.specs.Prelude.{◌≡◌, ◌+◌, ◌*◌, ◌%◌, ◌≤◌, ◌^◌, ℕ, suc, false, List, [], length, map, filter, IfOk, IfErr, IsErrOf, OnOk};
ghost use Rattle.log_history.specs.History.{LogEntry};
ghost use Rattle.log_history.specs.Effects.{change_by};
ghost use Rattle.log_history.specs.Live.{live_by};
ghost use Rattle.log_history.specs.Transactions.{given};
ghost use Rattle.log_record.specs.Entry.{entry_of, history_of};
ghost use Rattle.txn_table.specs.Table.{change_of};
ghost use Rattle.held_laws.specs.Reading.{read_after};
ghost use Rattle.held_log.specs.Strays.{is_stray};
ghost use Rattle.held_log.specs.Readers.{FileIs, HasTaken, IsRefused, Takes, resets_after};

use crate::HeldFault;
use live_positions::{ResetPoint, ResetPoints};
use log_files::place_of;
use log_record::Record;
use std::alloc::Global;
use txn_table::{Change, Open, OrderFault};

/// The transactions that are open at a log's end, and the changes that are in effect there, in order of their commits.
#[derive(Drop)]
pub struct HeldLog {
    pub open: Open,
    pub changes: Vec<Change>,
}

/// The open transactions, the changes of all commits, also of those that a Reset dropped, and the Resets.
#[derive(Drop)]
pub(crate) struct Reader {
    alloc: Global,
    pub open: Open,
    pub changes: Vec<Change>,
    pub resets: ResetPoints,
}

// Lets the open transactions take the record at a position, and answers the changes that it gives. A record of a
// transaction that isn't open is passed over.
fn follow(
    alloc: Global,
    running: &mut Open,
    position: u64,
    slot: u32,
    record: &Record,
) -> Result<Vec<Change>, HeldFault>
    ensures in_order { OnOk result (is_stray (entry_of record.now) running.old ≡ false) }
    ensures table { OnOk result (running.new ≡ read_after position (entry_of record.now) running.old) }
    ensures changes { IfOk result (λ changes. map change_of changes.items ≡ map (change_by position) (given (entry_of record.now) running.old)) }
    ensures refused { IfErr result (IsRefused slot (entry_of record.now) running.old) }
{
    match running.feed(position, record) {
        Ok(changes) => Ok(changes),
        Err(OrderFault::NotOpen) => Ok(Vec::new(alloc)),
        Err(OrderFault::AlreadyOpen | OrderFault::TooManyOpen) => {
            Err(HeldFault::BadRecord { slot })
        }
        Err(OrderFault::OutOfMemory) => Err(HeldFault::OutOfMemory),
    }
}

// Keeps where a Reset at a position goes back to.
fn keep_reset(resets: &mut ResetPoints, position: u64, record: &Record) -> Result<(), HeldFault>
    ensures kept { OnOk result (resets.new ≡ resets_after position (entry_of record.now) resets.old) }
    ensures only { IfErr result (λ fault. fault ≡ HeldFault.OutOfMemory) }
{
    if let Record::Reset { target, .. } = record {
        resets.push(ResetPoint {
            at: position,
            target: *target,
        })?;
    }
    Ok(())
}

impl Reader {
    /// No record was read.
    pub fn new(alloc: Global) -> Reader
        ensures { (before : ℕ) → HasTaken before [] result }
    {
        Reader {
            alloc,
            open: Open::new(alloc),
            changes: Vec::new(alloc),
            resets: ResetPoints::new(alloc),
        }
    }

    // Takes the record at a position, which stands in this slot.
    fn take(&mut self, position: u64, slot: u32, record: &Record) -> Result<(), HeldFault>
        ensures taken { OnOk result (Takes position (entry_of record.now) self.old self.new) }
        ensures refused { IfErr result (IsRefused slot (entry_of record.now) self.old.open) }
    {
        let mut changes = follow(self.alloc, &mut self.open, position, slot, record)?;
        self.changes.append(&mut changes)?;
        keep_reset(&mut self.resets, position, record)
    }

    /// Takes the records of a file, the first of which has this position.
    pub fn take_file(&mut self, file: u64, first: u64, records: &[Record]) -> Result<(), HeldFault>
        requires few { length records.now ≤ 256 }
        requires position { first ≤ 2 ^ 48 + 1 }
        ensures taken { (before : ℕ) (past : List LogEntry) → HasTaken before past self.old → first ≡ before + suc (length past)
            → FileIs before past (256 * (file % 8)) (history_of records.now) self.new result }
        ensures failed { IsErrOf result HeldFault.Failed → ⊥ }
    {
        let slots = 256 * place_of(file) as u32;
        for (i, record) in records.iter().enumerate() {
            self.take(first + i as u64, slots + i as u32, record)?;
        }
        Ok(())
    }

    /// What is in effect at the end.
    pub fn finish(self, end: u64) -> HeldLog
        ensures table { result.open ≡ self.open }
        ensures changes { map change_of result.changes.items ≡ filter (λ change. live_by self.resets end change.commit) (map change_of self.changes.items) }
    {
        let Reader {
            open,
            mut changes,
            resets,
            ..
        } = self;
        changes.retain(|change| resets.is_live(end, change.commit));
        HeldLog { open, changes }
    }
}
