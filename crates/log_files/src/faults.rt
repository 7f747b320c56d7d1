//! Why a call of the log failed.
use site_disk::Failed;
use std::alloc::AllocError;

/// Why a call of the log failed.
#[derive(Clone, Copy, Debug, PartialEq, Eq)]
pub enum LogFault {
    /// The log's header isn't valid for the site.
    LogLost,
    /// This is the first slot, in order of file, that isn't in the grammar, numbered 256 × place + slot; 4,294,967,295 where
    /// the mark isn't, or what the gates say of the files that it names.
    BadRecord { slot: u32 },
    /// The disk failed. The log has to be opened again.
    Failed,
    /// There was no memory.
    OutOfMemory,
}

impl From<Failed> for LogFault {
    ghost use Rattle.std.specs.Prelude.{◌≡◌};
    ghost use Rattle.log_files.specs.declared.faults.LogFault.TheVariants.{Failed as DiskFailed};

    ghost from_gives = { λ _ e. e ≡ DiskFailed };

    fn from(_: Failed) -> Self {
        LogFault::Failed
    }
}

impl From<AllocError> for LogFault {
    ghost use Rattle.std.specs.Prelude.{◌≡◌};
    ghost use Rattle.log_files.specs.declared.faults.LogFault.TheVariants.{OutOfMemory as NoMemory};

    ghost from_gives = { λ _ e. e ≡ NoMemory };

    fn from(_: AllocError) -> Self {
        LogFault::OutOfMemory
    }
}
