//! What a run of a script has collected since the last batch.
ghost use Rattle.std.specs.Prelude.{◌≡◌, ◌+◌, ◌<◌, ◌≤◌, ◌^◌, length, [], false, Ok, IsErrOf};
ghost use Rattle.std.specs.List.{AllByRecursion};
ghost use Rattle.log_files.specs.Files.{is_reset};
ghost use Rattle.log_record.specs.Entry.{entry_of};
ghost use Rattle.log_record.specs.Layout.{IsRecord};
ghost use Rattle.onbar_grammar.specs.Script.{entry_of_line};
ghost use Rattle.site_headers.specs.Views.{spaces_of};
ghost use Rattle.script_lines.specs.TxnLine.{line_of_txn};
ghost use Rattle.site_model.specs.Runs.{take_text};
ghost use Rattle.script_steps.specs.Collecting.{collected_of, order_why, TakesAs, JoinsAs, is_ending, IsBounded, limit_after};
ghost use Rattle.site_headers.specs.Heads.{IsSpace};

use log_record::Record;
use onbar_grammar::Why;
use script_lines::{TxnLine, read_txn_line};
use site_headers::SpaceHead;
use std::alloc::Global;
use txn_table::{Open, OrderFault};

/// A batch holds at most so many records.
const BATCH_LIMIT: usize = 32;

/// The records since the last batch, the transactions that are open after them, the time of the last Commit or Reset of
/// the log and of these records.
#[derive(Drop)]
pub struct Collected {
    pub batch: Vec<Record>,
    pub open: Open,
    pub time: u64,
}

/// What a line of the script did.
#[derive(Clone, Copy, Debug, PartialEq, Eq)]
pub enum Taken {
    /// It is empty.
    Nothing,
    /// Its record joined the batch.
    Joined,
    /// Its record joined the batch, which is whole now.
    Whole,
}

/// The record that a line puts into the log.
fn record_of(line: TxnLine, time: u64) -> Record
    ensures entry { entry_of result ≡ entry_of_line time (line_of_txn line) }
    ensures plain { is_reset (entry_of result) ≡ false }
{
    match line {
        TxnLine::Begin { txn } => Record::Begin { txn },
        TxnLine::Write {
            txn,
            space,
            page,
            offset,
            bytes,
        } => Record::Write {
            txn,
            space,
            page,
            offset,
            bytes,
        },
        TxnLine::Commit { txn } => Record::Commit { txn, time },
        TxnLine::Abort { txn } => Record::Abort { txn },
    }
}

fn why_of(fault: OrderFault) -> Why
    ensures { result ≡ order_why fault }
{
    match fault {
        OrderFault::AlreadyOpen => Why::AlreadyOpen,
        OrderFault::NotOpen => Why::NotOpen,
        OrderFault::TooManyOpen => Why::TooManyOpen,
        OrderFault::OutOfMemory => Why::OutOfMemory,
    }
}

/// Whether the record ends a batch.
fn is_end(record: &Record) -> bool
    ensures { result ≡ is_ending (entry_of record.now) }
{
    matches!(record, Record::Commit { .. } | Record::Abort { .. })
}

impl Collected {
    /// Nothing is collected behind a log with these open transactions and this last time.
    pub fn new(alloc: Global, table: Open, time: u64) -> Collected
        ensures batch { result.batch.items ≡ [] }
        ensures table { result.open ≡ table }
        ensures time { result.time ≡ time }
    {
        Collected {
            batch: Vec::new(alloc),
            open: table,
            time,
        }
    }

    /// Takes a line of the script, behind a log of `end` records.
    pub fn take_line(
        &mut self,
        text: &[u8],
        spaces: &[SpaceHead],
        end: u64,
        moment: u64,
    ) -> Result<Taken, Why>
        requires few { length spaces.now ≤ 16 }
        requires spaces { AllByRecursion IsSpace (spaces_of spaces.now) }
        requires end { end ≤ 2 ^ 48 }
        requires moment { moment ≤ 2 ^ 48 }
        requires bounded { IsBounded 31 self.old }
        ensures taken { TakesAs (take_text (spaces_of spaces.now) moment end (collected_of self.old) text.now) result (collected_of self.new) }
        ensures bounded { IsBounded (limit_after result) self.new }
        ensures some { result ≡ Ok Taken.Whole → 0 < length self.new.batch.items }
        ensures nothing { result ≡ Ok Taken.Nothing → collected_of self.new ≡ collected_of self.old }
        ensures refused { (why : Why) → IsErrOf result why → (why ≡ Why.OutOfMemory → ⊥) → collected_of self.new ≡ collected_of self.old }
    {
        let Some(line) = read_txn_line(text, spaces)? else {
            return Ok(Taken::Nothing);
        };
        let record = record_of(line, moment.max(self.time));
        self.join(record, end)
    }

    /// Takes a record into the batch, where the open transactions allow it.
    fn join(&mut self, entry: Record, end: u64) -> Result<Taken, Why>
        requires end { end ≤ 2 ^ 48 }
        requires bounded { IsBounded 31 self.old }
        requires entry { IsRecord (entry_of entry) }
        requires plain { is_reset (entry_of entry) ≡ false }
        ensures taken { JoinsAs (entry_of entry) end (collected_of self.old) result (collected_of self.new) }
        ensures bounded { IsBounded (limit_after result) self.new }
        ensures some { result ≡ Ok Taken.Whole → 0 < length self.new.batch.items }
        ensures not_nothing { result ≡ Ok Taken.Nothing → ⊥ }
        ensures refused { (why : Why) → IsErrOf result why → (why ≡ Why.OutOfMemory → ⊥) → collected_of self.new ≡ collected_of self.old }
    {
        let ends = is_end(&entry);
        let position = end + self.batch.len() as u64 + 1;
        match self.open.feed(position, &entry) {
            Ok(_) => {}
            Err(fault) => return Err(why_of(fault)),
        }
        if let Record::Commit { time, .. } | Record::Reset { time, .. } = &entry {
            self.time = *time;
        }
        if self.batch.push(entry).is_err() {
            return Err(Why::OutOfMemory);
        }
        if ends || self.batch.len() == BATCH_LIMIT {
            Ok(Taken::Whole)
        } else {
            Ok(Taken::Joined)
        }
    }
}
