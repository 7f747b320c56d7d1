//! Where a restore goes to.

/// What an operator asks a restore to go to.
#[derive(Clone, Copy, Debug, PartialEq, Eq)]
pub enum Point {
    /// The end of the log.
    End,
    /// The end of a log file.
    File { file: u64 },
    /// A time, in seconds from 1970: all commits up to it.
    Time { time: u64 },
}

/// A restore that is under way.
#[derive(Clone, Copy, Debug, PartialEq, Eq)]
pub struct Restore {
    /// The number of the restore, from 1.
    pub number: u64,
    pub point: Point,
    /// The position that it goes to.
    pub to: u64,
    /// Whether all lanes are prepared: emptied, so that their marks say what is left to do.
    pub prepared: bool,
}
