//! The position that a point comes to.
ghost use Rattle.std.specs.Prelude.{◌≡◌, ◌+◌, ◌^◌, ◌≤◌, length, map};
ghost use Rattle.std.specs.List.{prefix_len};
ghost use Rattle.log_record.specs.Entry.{entry_of, history_of};
ghost use Rattle.backup_lines.specs.Spans.{by_time, end_of_file, find_point, is_by, time_within};
ghost use Rattle.backup_lines.specs.Views.{point_of, span_view};
ghost use Rattle.restore_planner.specs.Views.{found_of};

use backup_lines::{FileSpan, Point};
use log_record::Record;

/// Where a point lies.
#[derive(Clone, Copy, Debug, PartialEq, Eq)]
pub enum Found {
    /// At a position.
    At(u64),
    /// In a file whose records have to be looked at.
    Look { file: u64 },
    /// There is no file with this id.
    NoSuchLog { file: u64 },
}

// The end of a file.
fn end_of_file(file: u64, spans: &[FileSpan]) -> Found
    ensures { found_of result ≡ end_of_file file (map span_view spans.now) }
{
    for span in spans {
        if span.file == file {
            return Found::At(span.last);
        }
    }
    Found::NoSuchLog { file }
}

// Where the first file whose time passes a time has it.
fn by_time(time: u64, spans: &[FileSpan]) -> Found
    ensures { found_of result ≡ by_time time 0 (map span_view spans.now) }
{
    let mut last = 0;
    for span in spans {
        if time < span.time {
            return if time < span.before {
                Found::At(span.first.saturating_sub(1))
            } else {
                Found::Look { file: span.file }
            };
        }
        last = span.last;
    }
    Found::At(last)
}

/// The position of a point, over the spans of the log's files in ascending order. A time lies in the first file whose time
/// passes it: `Look` says which, where only the file's records can tell the position.
pub fn find(point: &Point, spans: &[FileSpan]) -> Found
    ensures { found_of result ≡ find_point (point_of point.now) (map span_view spans.now) }
{
    match point {
        Point::End => Found::At(spans.last().map_or(0, |span| span.last)),
        Point::File { file } => end_of_file(*file, spans),
        Point::Time { time } => by_time(*time, spans),
    }
}

// Whether a record isn't a Commit or Reset that is later than a time.
fn is_by(time: u64, entry: &Record) -> bool
    ensures { result ≡ is_by time (entry_of entry.now) }
{
    match entry {
        Record::Commit { time: at, .. } | Record::Reset { time: at, .. } => *at <= time,
        _ => true,
    }
}

// How many records stand before the first Commit or Reset that is later than a time.
fn count_by(time: u64, records: &[Record]) -> usize
    ensures count { result ≡ prefix_len (is_by time) (history_of records.now) }
    ensures few { result ≤ length records.now }
{
    let mut count = 0;
    for record in records {
        if !is_by(time, record) {
            return count;
        }
        count += 1;
    }
    count
}

/// The position of a time in the file that `find` told to look at: that of the record before the first Commit or Reset that is
/// later. The records are those of the file.
pub fn within(span: &FileSpan, records: &[Record], time: u64) -> u64
    requires fits { span.now.first + length records.now ≤ 2 ^ 64 }
    ensures { result ≡ time_within (span_view span.now) time (history_of records.now) }
{
    span.first.saturating_sub(1) + count_by(time, records) as u64
}
