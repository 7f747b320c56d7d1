//! What is known of the files held.
ghost use Rattle.std.specs.Prelude.{◌≡◌, ◌+◌, ◌-◌, ◌^◌, ◌<◌, ◌≤◌, ◌↔◌, ◌==◌, true, false, ℕ, length, IsTrue, nat_lt, OnOk, Some, None, vec_len, vec_capacity};
ghost use Rattle.log_history.specs.History.{History};
ghost use Rattle.log_record.specs.Entry.{history_of};
ghost use Rattle.log_files.specs.Views.{span_in, longer};
ghost use Rattle.log_files.specs.Files.{LogFiles, AreFiles, end_of, span_of, appended, closed, with_next, with_backed, without_oldest, is_full, new_files};
ghost use Rattle.log_files.specs.Rooms.{room_of, next_room, unless_needed, second_first};

use crate::places::{PLACE_SLOTS, place_of};
use crate::room::{LogFull, Room};
use crate::times::{target_in, time_at};
use backup_lines::FileSpan;
use log_mark::LogMark;
use log_record::Record;
use std::alloc::{AllocError, Global};

/// The greatest position.
const MAX_POSITION: u64 = 1 << 48;

/// The files held: what the log's mark says of them, the spans of those that have records, the position of the current
/// file's first record, that of the next record, and the time of the last Commit or Reset.
#[derive(Drop)]
pub struct HeldFiles {
    pub mark: LogMark,
    pub spans: Vec<FileSpan>,
    pub first: u64,
    pub next: u64,
    pub time: u64,
}

impl HeldFiles {
    ghost use Rattle.log_files.specs.Held.{Tells, IsHeld};

    /// One empty file, which is current and open. Those before it count as backed up.
    pub fn new(alloc: Global, file: u64, first: u64, before: u64) -> HeldFiles
        requires some { 1 ≤ file }
        ensures { Tells (new_files file first before) result }
    {
        let mut firsts = [0; 8];
        firsts[place_of(file) as usize] = first;
        HeldFiles {
            mark: LogMark {
                current: file,
                oldest: file,
                backed_up_to: file - 1,
                before,
                is_closed: false,
                firsts,
            },
            spans: Vec::new(alloc),
            first,
            next: first,
            time: before,
        }
    }

    /// The last position, or the one before the first where none is held.
    pub fn end(&self) -> u64
        requires { IsHeld self.now }
        ensures { (files : LogFiles) → Tells files self.now → result ≡ end_of files }
    {
        self.next - 1
    }

    /// How many records the current file has.
    pub fn used(&self) -> u64
        requires { IsHeld self.now }
        ensures { (files : LogFiles) → Tells files self.now → result ≡ length files.current }
    {
        self.next - self.first
    }

    /// Whether all places are held, so that the next file takes the oldest one's.
    pub fn is_full(&self) -> bool
        requires { IsHeld self.now }
        ensures { (files : LogFiles) → Tells files self.now → result ≡ is_full files }
    {
        self.mark.current - self.mark.oldest == 7
    }

    // Whether the oldest file, which isn't the current one, has this position or one before it is sought.
    fn oldest_reaches(&self, position: u64) -> bool
        requires held { IsHeld self.now }
        requires full { self.now.mark.current ≡ self.now.mark.oldest + 7 }
        ensures { (files : LogFiles) → AreFiles files → Tells files self.now → result ≡ nat_lt position (second_first files.first files.past) }
    {
        position <= self.spans[0].last
    }

    // What a batch finds for which the oldest file has to go.
    fn room_behind_oldest(&self, low: Option<(u64, u32)>) -> Room
        requires held { IsHeld self.now }
        requires full { self.now.mark.current ≡ self.now.mark.oldest + 7 }
        ensures { (files : LogFiles) → AreFiles files → Tells files self.now → result ≡ unless_needed files low }
    {
        let file = self.mark.oldest;
        match low {
            Some((position, txn)) if self.oldest_reaches(position) => {
                Room::Full(LogFull::Needed { file, txn })
            }
            _ => Room::Next { drops: Some(file) },
        }
    }

    // What a batch that needs the next file finds.
    fn next_room(&self, low: Option<(u64, u32)>) -> Room
        requires held { IsHeld self.now }
        ensures { (files : LogFiles) → AreFiles files → Tells files self.now → result ≡ next_room files low }
    {
        if !self.is_full() {
            return Room::Next { drops: None };
        }
        let file = self.mark.oldest;
        if self.mark.backed_up_to < file {
            return Room::Full(LogFull::NotBackedUp { file });
        }
        self.room_behind_oldest(low)
    }

    /// What a batch of so many records finds, with the oldest open Begin at `low` and of that transaction.
    pub fn room(&self, count: u32, low: Option<(u64, u32)>) -> Room
        requires { IsHeld self.now }
        ensures { (files : LogFiles) → AreFiles files → Tells files self.now → result ≡ room_of files count low }
    {
        if self.end() + u64::from(count) > MAX_POSITION {
            return Room::Full(LogFull::Positions { end: self.end() });
        }
        let fits = self.used() + u64::from(count) <= u64::from(PLACE_SLOTS);
        if fits && !self.mark.is_closed {
            return Room::Fits;
        }
        self.next_room(low)
    }

    // The span of the current file, when it gets these as its first records.
    fn new_span(&self, batch: &[Record]) -> FileSpan
        requires held { IsHeld self.now }
        requires some { 1 ≤ length batch.now }
        requires room { self.now.next + length batch.now ≤ 2 ^ 48 + 1 }
        ensures { span_in result ≡ span_of self.now.mark.current self.now.first self.now.time (history_of batch.now) }
    {
        FileSpan {
            file: self.mark.current,
            first: self.first,
            last: self.first + batch.len() as u64 - 1,
            reset: target_in(batch),
            before: self.time,
            time: time_at(self.time, batch),
            copy: 0,
            gone: false,
        }
    }

    // The span of the current file, which has records, when it gets these behind them.
    fn longer_span(&self, span: &FileSpan, batch: &[Record]) -> FileSpan
        requires held { IsHeld self.now }
        requires room { self.now.next + length batch.now ≤ 2 ^ 48 + 1 }
        requires last { span.now.last < self.now.next }
        ensures { span_in result ≡ longer (span_in span.now) (history_of batch.now) }
    {
        FileSpan {
            last: span.last + batch.len() as u64,
            time: time_at(span.time, batch),
            ..*span
        }
    }

    /// Makes room for the span of one file more.
    pub fn reserve(&mut self) -> Result<(), AllocError>
        ensures room { OnOk result (vec_len self.new.spans < vec_capacity self.new.spans) }
        ensures told { (files : LogFiles) → Tells files self.old → Tells files self.new }
    {
        self.spans.reserve(1)
    }

    // Puts records into the current file, which is empty.
    fn begin(&mut self, batch: &[Record])
        requires held { IsHeld self.old }
        requires reserved { vec_len self.old.spans < vec_capacity self.old.spans }
        requires some { 1 ≤ length batch.now }
        requires room { self.old.next + length batch.now ≤ 2 ^ 48 + 1 }
        requires empty { self.old.next ≡ self.old.first }
        ensures { (files : LogFiles) → Tells files self.old → Tells (appended files (history_of batch.now)) self.new }
    {
        let span = self.new_span(batch);
        let _ = self.spans.push(span);
        self.time = time_at(self.time, batch);
        self.next += batch.len() as u64;
    }

    // Puts records into the current file, which has some.
    fn extend(&mut self, batch: &[Record])
        requires held { IsHeld self.old }
        requires room { self.old.next + length batch.now ≤ 2 ^ 48 + 1 }
        requires filled { self.old.first < self.old.next }
        ensures { (files : LogFiles) → Tells files self.old → Tells (appended files (history_of batch.now)) self.new }
    {
        let last = self.spans.len() - 1;
        let span = self.longer_span(&self.spans[last], batch);
        self.spans[last] = span;
        self.time = time_at(self.time, batch);
        self.next += batch.len() as u64;
    }

    /// Puts records into the current file. There is room for the span of one file more.
    pub fn append(&mut self, batch: &[Record])
        requires held { IsHeld self.old }
        requires reserved { vec_len self.old.spans < vec_capacity self.old.spans }
        requires some { 1 ≤ length batch.now }
        requires room { self.old.next + length batch.now ≤ 2 ^ 48 + 1 }
        ensures { (files : LogFiles) → Tells files self.old → Tells (appended files (history_of batch.now)) self.new }
    {
        if self.next == self.first {
            self.begin(batch);
        } else {
            self.extend(batch);
        }
    }

    /// Closes the current file.
    pub fn close(&mut self)
        ensures { (files : LogFiles) → Tells files self.old → Tells (closed files) self.new }
    {
        self.mark.is_closed = true;
    }

    /// A file is the last one that is backed up.
    pub fn back_up(&mut self, file: u64)
        ensures { (files : LogFiles) → Tells files self.old → Tells (with_backed files file) self.new }
    {
        self.mark.backed_up_to = file;
    }

    /// Drops the oldest file.
    pub fn drop_oldest(&mut self)
        requires held { IsHeld self.old }
        requires full { self.old.mark.current ≡ self.old.mark.oldest + 7 }
        ensures { (files : LogFiles) → AreFiles files → Tells files self.old → Tells (without_oldest files) self.new }
    {
        let dropped = self.spans.remove(0);
        self.mark.firsts[place_of(self.mark.oldest) as usize] = 0;
        self.mark.oldest += 1;
        self.mark.before = dropped.time;
    }

    /// The next file becomes the current one, which has records.
    pub fn open_next(&mut self)
        requires held { IsHeld self.old }
        requires some { self.old.first < self.old.next }
        ensures { (files : LogFiles) → Tells files self.old → Tells (with_next files) self.new }
    {
        self.mark.current += 1;
        self.mark.is_closed = false;
        self.mark.firsts[place_of(self.mark.current) as usize] = self.next;
        self.first = self.next;
    }
}
