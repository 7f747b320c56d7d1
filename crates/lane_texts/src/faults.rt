//! Why the text of a space, or of a page, wasn't made.
use std::alloc::AllocError;

/// Why the text of a space, or of a page, wasn't made.
#[derive(Clone, Copy, Debug, PartialEq, Eq)]
pub enum ListFault {
    /// There was no memory.
    OutOfMemory,
    /// The disk failed. The lane has to be opened again.
    Failed,
    /// This is the first page whose space, zeros or number aren't as the layout says, or within which the disk ends.
    BadPage { page: u32 },
}

impl From<AllocError> for ListFault {
    ghost use Rattle.std.specs.Prelude.{◌≡◌};
    ghost use Rattle.lane_texts.specs.declared.faults.ListFault.TheVariants.{OutOfMemory as NoMemory};

    ghost from_gives = { λ _ e. e ≡ NoMemory };

    fn from(_: AllocError) -> Self {
        ListFault::OutOfMemory
    }
}
