//! Why the held files aren't read.
ghost use Rattle.std.specs.Prelude.{◌≡◌};
ghost use Rattle.held_log.specs.declared.faults.HeldFault.TheVariants.{OutOfMemory as NoMemory};
ghost use Rattle.held_log.specs.Answers.{held_fault_of};

use log_files::LogFault;
use std::alloc::AllocError;

/// Why the held files aren't read.
#[derive(Clone, Copy, Debug, PartialEq, Eq)]
pub enum HeldFault {
    /// There was no memory.
    OutOfMemory,
    /// The disk failed. The log has to be opened again.
    Failed,
    /// The record of this slot, numbered 256 × place + slot, is the first Begin that the transactions open before it don't
    /// allow; or the slot isn't in the grammar now, which never comes where the disk tells its bytes.
    BadRecord { slot: u32 },
}

impl From<LogFault> for HeldFault {
    ghost from_gives = { λ fault e. e ≡ held_fault_of fault };

    fn from(fault: LogFault) -> HeldFault {
        match fault {
            // A log that is open isn't lost.
            LogFault::LogLost | LogFault::Failed => HeldFault::Failed,
            LogFault::BadRecord { slot } => HeldFault::BadRecord { slot },
            LogFault::OutOfMemory => HeldFault::OutOfMemory,
        }
    }
}

impl From<AllocError> for HeldFault {
    ghost from_gives = { λ _ e. e ≡ NoMemory };

    fn from(_: AllocError) -> HeldFault {
        HeldFault::OutOfMemory
    }
}
