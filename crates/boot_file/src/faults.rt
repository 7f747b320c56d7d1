//! Why a call of the boot file failed.
use site_disk::Failed;
use std::alloc::{AllocError, AllocFailed};

/// Why a call of the boot file failed.
#[derive(Clone, Copy, Debug, PartialEq, Eq)]
pub enum BootFault {
    /// This is the first slot, in order, that is no line's; 4,294,967,295 where the header isn't that of the site's boot
    /// file, the mark isn't in the grammar, or the disk ends before the slots.
    BadRecord { slot: u32 },
    /// There is no room. `used` lines stand there; for lines `wanted` is their count, at most 4,294,967,295, and `number` is 0;
    /// for a restore `wanted` is 0, and `number` its own, which is above 2^48.
    BootFull { used: u32, wanted: u32, number: u64 },
    /// The disk failed. The boot file has to be opened again.
    Failed,
    /// There was no memory.
    OutOfMemory,
}

impl From<Failed> for BootFault {
    ghost use Rattle.std.specs.Prelude.{◌≡◌};
    ghost use Rattle.boot_file.specs.declared.faults.BootFault.TheVariants.{Failed as DiskFailed};

    ghost from_gives = { λ _ e. e ≡ DiskFailed };

    fn from(_: Failed) -> Self {
        BootFault::Failed
    }
}

impl From<AllocError> for BootFault {
    ghost use Rattle.std.specs.Prelude.{◌≡◌};
    ghost use Rattle.boot_file.specs.declared.faults.BootFault.TheVariants.{OutOfMemory as NoMemory};

    ghost from_gives = { λ _ e. e ≡ NoMemory };

    fn from(_: AllocError) -> Self {
        BootFault::OutOfMemory
    }
}

impl<T: Drop> From<AllocFailed<T>> for BootFault {
    ghost use Rattle.std.specs.Prelude.{◌≡◌};
    ghost use Rattle.boot_file.specs.declared.faults.BootFault.TheVariants.{OutOfMemory as NoMemory};

    ghost from_gives = { λ _ e. e ≡ NoMemory };

    fn from(_: AllocFailed<T>) -> Self {
        BootFault::OutOfMemory
    }
}
