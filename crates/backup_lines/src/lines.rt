//! The lines of the boot file.

/// One archive of a space: its level image, and what it builds on.
#[derive(Clone, Copy, Debug, PartialEq, Eq)]
pub struct Archive {
    /// The space's number.
    pub space: u16,
    /// 0, 1 or 2.
    pub level: u8,
    /// The position up to which the pages hold the log's commits.
    pub at: u64,
    /// The position of the archive that it builds on, 0 for level 0.
    pub base: u64,
    /// The copy id of that archive, 0 for level 0.
    pub base_copy: u64,
    /// The position from which the log is wanted to go on from here: of the oldest Begin open at `at`, else the one behind it.
    pub low: u64,
    /// The copy id of the image's object.
    pub copy: u64,
}

/// A file of the logical log: the positions that it holds, and where its copy is.
#[derive(Clone, Copy, Debug, PartialEq, Eq)]
pub struct FileSpan {
    /// The file's id, from 1.
    pub file: u64,
    /// The position of its first record.
    pub first: u64,
    /// The position of its last record.
    pub last: u64,
    /// Where its first record is a Reset, the position that the Reset goes back to.
    pub reset: Option<u64>,
    /// The time of the last Commit or Reset before the file.
    pub before: u64,
    /// The time of the last Commit or Reset up to its end.
    pub time: u64,
    /// The copy id of its log object, 0 where there is none.
    pub copy: u64,
    /// Whether the object of that copy is gone.
    pub gone: bool,
}

/// A line of the boot file.
#[derive(Clone, Copy, Debug, PartialEq, Eq)]
pub enum Line {
    /// An archive was made.
    Archive(Archive),
    /// A log file was backed up.
    Log(FileSpan),
    /// The object of a copy id is no longer kept.
    Gone { copy: u64 },
}
