//! What a run of a script knows.
ghost use Rattle.std.specs.Prelude.{◌≡◌, ◌≤◌, ◌^◌, [], length, count_by};
ghost use Rattle.log_record.specs.Entry.{history_of};
ghost use Rattle.site_model.specs.Texts.{is_commit_entry};
ghost use Rattle.txn_table.specs.Table.{oldest};

use log_record::Record;
use script_lines::Lines;
use script_steps::{Collected, Progress};
use std::alloc::Global;
use txn_table::Open;

/// How many records of a run stand, and how many of them are Commits.
#[derive(Clone, Copy, Debug, PartialEq, Eq)]
pub struct Counts {
    pub lines: u64,
    pub commits: u64,
}

/// A run of a script over an open site.
#[derive(Drop)]
pub struct Work {
    pub progress: Progress,
    /// The oldest Begin that is open before the present batch, and its transaction.
    pub low: Option<(u64, u32)>,
    pub counts: Counts,
}

/// A run at its begin, behind a log with these open transactions and this last time.
pub fn begin_work(alloc: Global, table: Open, time: u64) -> Work
    ensures lines { result.progress.lines ≡ record { begun = 0; line = []; held = [] } }
    ensures line { result.progress.line ≡ 0 }
    ensures batch { result.progress.collected.batch.items ≡ [] }
    ensures open { result.progress.collected.«open» ≡ table }
    ensures time { result.progress.collected.time ≡ time }
    ensures low { result.low ≡ oldest table }
    ensures counts { result.counts ≡ record { lines = 0; commits = 0 } }
{
    let low = table.low();
    Work {
        progress: Progress {
            lines: Lines::new(alloc),
            line: 0,
            collected: Collected::new(alloc, table, time),
        },
        low,
        counts: Counts {
            lines: 0,
            commits: 0,
        },
    }
}

pub fn count_commits(batch: &[Record]) -> u64
    ensures count { result ≡ count_by is_commit_entry (history_of batch.now) }
    ensures bound { result ≤ length batch.now }
{
    batch
        .iter()
        .filter(|record| matches!(record, Record::Commit { .. }))
        .count() as u64
}
