//! The times and the Reset of records.
ghost use Rattle.std.specs.Prelude.{◌≡◌};
ghost use Rattle.log_record.specs.Entry.{entry_of, history_of};
ghost use Rattle.log_files.specs.Files.{time_after, time_at, target_in};

use log_record::Record;

fn time_after(before: u64, entry: &Record) -> u64
    ensures { result ≡ time_after before (entry_of entry.now) }
{
    match entry {
        Record::Commit { time, .. } | Record::Reset { time, .. } => *time,
        _ => before,
    }
}

/// The time of the last Commit or Reset of some records, or else the one before them.
pub fn time_at(before: u64, records: &[Record]) -> u64
    ensures { result ≡ time_at before (history_of records.now) }
{
    let mut time = before;
    for entry in records {
        time = time_after(time, entry);
    }
    time
}

/// Where the first of some records is a Reset, the position that it goes back to.
pub fn target_in(records: &[Record]) -> Option<u64>
    ensures { result ≡ target_in (history_of records.now) }
{
    match records.first()? {
        Record::Reset { target, .. } => Some(*target),
        _ => None,
    }
}
