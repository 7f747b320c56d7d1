//! What a volume answers.
use block_chain::{OutOfMemory, Run};
use site_disk::Failed;

/// Why a volume wasn't opened, or an object wasn't ended.
#[derive(Clone, Copy, Debug, PartialEq, Eq)]
pub enum VolumeFault {
    /// The volume has no valid header of this site with its number.
    NoHeader,
    /// This block stands twice in the lists of live objects, or the volume has no such block.
    Overlap { block: u32 },
    /// The disk failed.
    Failed,
    /// There was no memory for the table of blocks, or for an object's runs.
    OutOfMemory,
}

/// Why a piece wasn't taken.
#[derive(Clone, Copy, Debug, PartialEq, Eq)]
pub enum SendFault {
    /// A free block is lacking for the piece: nothing of it was taken.
    StoreFull,
    /// The disk failed.
    Failed,
}

/// What a check found.
#[derive(Clone, Copy, Debug, PartialEq, Eq)]
pub enum Soundness {
    /// The object has the digest that is kept.
    Sound,
    /// The object has another digest.
    Damaged { found: [u8; 32] },
    /// The volume ends within the object, or its runs do.
    Short,
}

/// An object that was ended: its blocks in order, its bytes, their SHA-256.
#[derive(Debug, Drop)]
pub struct Sent {
    pub runs: Vec<Run>,
    pub size: u64,
    pub digest: [u8; 32],
}

impl From<Failed> for VolumeFault {
    ghost use Rattle.std.specs.Prelude.{◌≡◌};
    ghost use Rattle.object_volume.specs.declared.faults.VolumeFault.TheVariants.{Failed as DiskFailed};

    ghost from_gives = { λ _ e. e ≡ DiskFailed };

    fn from(_: Failed) -> Self {
        VolumeFault::Failed
    }
}

impl From<Failed> for SendFault {
    ghost use Rattle.std.specs.Prelude.{◌≡◌};
    ghost use Rattle.object_volume.specs.declared.faults.SendFault.TheVariants.{Failed as DiskFailed};

    ghost from_gives = { λ _ e. e ≡ DiskFailed };

    fn from(_: Failed) -> Self {
        SendFault::Failed
    }
}

impl From<OutOfMemory> for VolumeFault {
    ghost use Rattle.std.specs.Prelude.{◌≡◌};
    ghost use Rattle.object_volume.specs.declared.faults.VolumeFault.TheVariants.{OutOfMemory as NoMemory};

    ghost from_gives = { λ _ e. e ≡ NoMemory };

    fn from(_: OutOfMemory) -> Self {
        VolumeFault::OutOfMemory
    }
}
