//! Whether a batch of records has room.

/// Why the log takes no further record.
#[derive(Clone, Copy, Debug, PartialEq, Eq)]
pub enum LogFull {
    /// The oldest file isn't backed up.
    NotBackedUp { file: u64 },
    /// An open transaction needs the oldest file.
    Needed { file: u64, txn: u32 },
    /// No position is left.
    Positions { end: u64 },
}

/// What a batch finds.
#[derive(Clone, Copy, Debug, PartialEq, Eq)]
pub enum Room {
    /// It fits into the current file.
    Fits,
    /// It fits into the next file, for which this file is dropped.
    Next { drops: Option<u64> },
    /// It finds no room.
    Full(LogFull),
}
