//! The table that records are fed to.
ghost use Rattle.std.specs.Prelude.{◌≡◌, ◌+◌, ◌<◌, [], map, Some, None, IfSome, IfNone, IsOk, IsErrOf, IsOkUnless, IfOk, IfErr, OnOk, OnErr, MatchOption, ◌⊎◌, option_map};
ghost use Rattle.log_history.specs.Transactions.{InOrder, Table, after, given, refusal, table_of};
ghost use Rattle.log_history.specs.Effects.{change_by};
ghost use Rattle.log_record.specs.Entry.{entry_of, history_of};
ghost use Rattle.txn_table.specs.Table.{change_of, fault_of, Grows, oldest, first_refusal};

use crate::running::{self, Running};
use crate::{Change, OrderFault, changes};
use log_record::Record;
use std::alloc::Global;
use std::marker::Model;

/// The transactions that are open, the oldest Begin first.
#[derive(Drop)]
pub struct Open {
    alloc: Global,
    running: Vec<Running>,
}

impl Model for Open {
    ghost use Rattle.log_history.specs.Transactions.{Table};
    ghost use Rattle.txn_table.specs.Table.{table_in};

    ghost Value = { Table };

    ghost view = { λ o. table_in o.running.items };
}

impl Open {
    /// No transaction is open.
    pub fn new(alloc: Global) -> Open
        ensures { result ≡ [] }
    {
        Open {
            alloc,
            running: Vec::new(alloc),
        }
    }

    /// The transactions that are open behind these records, which begin at position 1. The first record that `feed`
    /// refuses is the refusal.
    pub fn replay(alloc: Global, records: &[Record]) -> Result<Open, OrderFault>
        ensures table { IfOk result (λ open_now. open_now ≡ table_of (history_of records.now)) }
        ensures in_order { OnOk result (first_refusal (history_of records.now) ≡ None) }
        ensures cause { IfErr result (λ e. (e ≡ OrderFault.OutOfMemory) ⊎ (option_map fault_of (first_refusal (history_of records.now)) ≡ Some e)) }
        ensures allowed { InOrder (history_of records.now) → IsOkUnless result OrderFault.OutOfMemory }
    {
        let mut table = Open::new(alloc);
        for (i, record) in records.iter().enumerate() {
            table.feed(i as u64 + 1, record)?;
        }
        Ok(table)
    }

    /// The refusal that `feed` has for a record, if any. Takes no memory.
    pub fn check(&self, entry: &Record) -> Result<(), OrderFault>
        ensures refused { MatchOption (refusal (entry_of entry.now) self.now) (IsOk result) (λ r. IsErrOf result (fault_of r)) }
        ensures in_order { OnOk result (refusal (entry_of entry.now) self.now ≡ None) }
    {
        match entry {
            Record::Begin { txn } => running::may_begin(&self.running, *txn),
            Record::Write { txn, .. } | Record::Commit { txn, .. } | Record::Abort { txn } => {
                running::may_go_on(&self.running, *txn)
            }
            Record::Reset { .. } => Ok(()),
        }
    }

    /// Takes the record at a position, and answers the changes that it brings into effect: those of a Commit are its
    /// transaction's Writes in order, and other records bring none. Only a Begin and a Write take memory.
    #[tactic(auto, using(crate::proofs::TableLemmas::nothing_to_end))]
    pub fn feed(&mut self, position: u64, entry: &Record) -> Result<Vec<Change>, OrderFault>
        ensures after { OnOk result (self.new ≡ after position (entry_of entry.now) self.old) }
        ensures changes { IfOk result (λ changes. map change_of changes.items ≡ map (change_by position) (given (entry_of entry.now) self.old)) }
        ensures in_order { OnOk result (refusal (entry_of entry.now) self.old ≡ None) }
        ensures refused { IfSome (refusal (entry_of entry.now) self.old) (λ r. IsErrOf result (fault_of r)) }
        ensures allowed { IfNone (refusal (entry_of entry.now) self.old) (IsOkUnless result OrderFault.OutOfMemory) }
        ensures out_of_memory { IsErrOf result OrderFault.OutOfMemory → Grows (entry_of entry.now) }
        ensures unchanged { OnErr result (self.new ≡ self.old) }
    {
        self.check(entry)?;
        match entry {
            Record::Begin { txn } => {
                running::begin(&mut self.running, self.alloc, *txn, position)?;
            }
            Record::Write {
                txn,
                space,
                page,
                offset,
                bytes,
            } => {
                let change = Change {
                    commit: 0,
                    space: *space,
                    page: *page,
                    offset: *offset,
                    bytes: bytes.clone()?,
                };
                running::write(&mut self.running, *txn, change)?;
            }
            Record::Commit { txn, .. } => {
                if let Some(ended) = running::take(&mut self.running, *txn) {
                    return Ok(changes::brought_by(ended.changes, position));
                }
            }
            Record::Abort { txn } => {
                let _ = running::take(&mut self.running, *txn);
            }
            Record::Reset { .. } => self.running.clear(),
        }
        Ok(Vec::new(self.alloc))
    }

    /// The position of the oldest open Begin, and its transaction.
    pub fn low(&self) -> Option<(u64, u32)>
        ensures { result ≡ oldest self.now }
    {
        let oldest = self.running.first()?;
        Some((oldest.first, oldest.txn))
    }
}
