//! Why a record is refused.
ghost use Rattle.std.specs.Prelude.{◌≡◌};
ghost use Rattle.txn_table.specs.declared.faults.OrderFault.TheVariants.{OutOfMemory};

use std::alloc::{AllocError, AllocFailed};

/// Why a record is refused.
#[derive(Clone, Copy, Debug, PartialEq, Eq)]
pub enum OrderFault {
    /// A Begin of a transaction that is open.
    AlreadyOpen,
    /// A Write, Commit or Abort of a transaction that isn't open.
    NotOpen,
    /// A Begin where 64 transactions are open.
    TooManyOpen,
    /// Memory ran out.
    OutOfMemory,
}

impl From<AllocError> for OrderFault {
    ghost from_gives = { λ _ e. e ≡ OutOfMemory };

    fn from(_e: AllocError) -> OrderFault {
        OrderFault::OutOfMemory
    }
}

impl<T: Drop> From<AllocFailed<T>> for OrderFault {
    ghost from_gives = { λ _ e. e ≡ OutOfMemory };

    fn from(_e: AllocFailed<T>) -> OrderFault {
        OrderFault::OutOfMemory
    }
}
