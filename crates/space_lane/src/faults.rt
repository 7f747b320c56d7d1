//! Why a call of a lane failed.
use site_disk::Failed;

/// Why a call of a lane failed.
#[derive(Clone, Copy, Debug, PartialEq, Eq)]
pub enum LaneFault {
    /// The chunk has no valid header of this site, space and number of pages.
    ChunkLost,
    /// The mark isn't in the grammar.
    BadMark,
    /// The space, the zeros or the number of this page aren't as the layout says, or the disk ends within it.
    BadPage { page: u32 },
    /// The disk failed. The lane has to be opened again.
    Failed,
}

impl From<Failed> for LaneFault {
    ghost use Rattle.std.specs.Prelude.{◌≡◌};
    ghost use Rattle.space_lane.specs.declared.faults.LaneFault.TheVariants.{Failed as DiskFailed};

    ghost from_gives = { λ _ e. e ≡ DiskFailed };

    fn from(_: Failed) -> Self {
        LaneFault::Failed
    }
}
