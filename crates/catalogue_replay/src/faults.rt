//! Why a call of the catalogue failed.
use std::alloc::{AllocError, AllocFailed};

/// Why a call of the catalogue failed. `spare` tells its spare disk from the other one.
#[derive(Clone, Copy, Debug, PartialEq, Eq)]
pub enum CatFault {
    /// The catalogue's disk has no valid header.
    NotFormatted,
    /// This is the first slot, in order, that isn't in the grammar; 4,294,967,295 where the mark isn't, where the disk
    /// ends before the slots, or where the spare disk has no valid header of the site.
    BadRecord { spare: bool, slot: u32 },
    /// A transaction needs more slots than are left. `wanted` is at most 4,294,967,295.
    CatalogueFull { used: u32, wanted: u32 },
    /// So many objects would be live after the transaction, and this would be the last copy id; more than 16,384, or
    /// above 2^48. `live` is at most 4,294,967,295.
    TooManyObjects { live: u32, last: u64 },
    /// The disk failed. The catalogue has to be opened again.
    Failed { spare: bool },
    /// There was no memory.
    OutOfMemory,
}

impl From<AllocError> for CatFault {
    ghost use Rattle.std.specs.Prelude.{◌≡◌};
    ghost use Rattle.catalogue_replay.specs.declared.faults.CatFault.TheVariants.{OutOfMemory as NoMemory};

    ghost from_gives = { λ _ e. e ≡ NoMemory };

    fn from(_: AllocError) -> Self {
        CatFault::OutOfMemory
    }
}

impl<T: Drop> From<AllocFailed<T>> for CatFault {
    ghost use Rattle.std.specs.Prelude.{◌≡◌};
    ghost use Rattle.catalogue_replay.specs.declared.faults.CatFault.TheVariants.{OutOfMemory as NoMemory};

    ghost from_gives = { λ _ e. e ≡ NoMemory };

    fn from(_: AllocFailed<T>) -> Self {
        CatFault::OutOfMemory
    }
}
