//! Why a call of a whole store failed.
ghost use Rattle.std.specs.Prelude.{◌≡◌};
ghost use Rattle.store_opening.specs.Faults.{disk_of_catalogue, fault_of_catalogue, fault_of_volume};

use catalogue_journal::CatFault;
use catalogue_replay::NO_SLOT;
use object_volume::VolumeFault;

/// A disk of the store.
#[derive(Clone, Copy, Debug, PartialEq, Eq)]
pub enum StoreDisk {
    Cat,
    Spare,
    Volume(u16),
}

/// Why a call of a whole store failed.
#[derive(Clone, Copy, Debug, PartialEq, Eq)]
pub enum StoreFault {
    /// There was no memory.
    OutOfMemory,
    /// This disk failed.
    DiskFault(StoreDisk),
    /// The catalogue has no valid header.
    NotFormatted,
    /// This is the first place, of the catalogue, the spare disk and the volumes in order, that isn't as it should be. The
    /// slot is 4,294,967,295 where it is none of the catalogue's slots: its mark, or where its disk ends before the slots;
    /// the header of the spare disk or of a volume; or a volume that has no room for its live objects apart.
    BadRecord { disk: StoreDisk, slot: u32 },
}

// The disk that a fault of the catalogue names.
fn catalogue_disk(spare: bool) -> StoreDisk
    ensures { result ≡ disk_of_catalogue spare }
{
    if spare {
        StoreDisk::Spare
    } else {
        StoreDisk::Cat
    }
}

/// A fault of the catalogue as one of the store. Of a transaction there is none when the catalogue is opened.
pub(crate) fn catalogue_fault(fault: CatFault) -> StoreFault
    ensures { result ≡ fault_of_catalogue fault }
{
    match fault {
        CatFault::OutOfMemory => StoreFault::OutOfMemory,
        CatFault::Failed { spare } => StoreFault::DiskFault(catalogue_disk(spare)),
        CatFault::NotFormatted => StoreFault::NotFormatted,
        CatFault::BadRecord { spare, slot } => StoreFault::BadRecord {
            disk: catalogue_disk(spare),
            slot,
        },
        CatFault::CatalogueFull { .. } | CatFault::TooManyObjects { .. } => StoreFault::BadRecord {
            disk: StoreDisk::Cat,
            slot: NO_SLOT,
        },
    }
}

/// A fault of this volume as one of the store.
pub(crate) fn volume_fault(number: u16, fault: VolumeFault) -> StoreFault
    ensures { result ≡ fault_of_volume number fault }
{
    let disk = StoreDisk::Volume(number);
    match fault {
        VolumeFault::OutOfMemory => StoreFault::OutOfMemory,
        VolumeFault::Failed => StoreFault::DiskFault(disk),
        VolumeFault::NoHeader | VolumeFault::Overlap { .. } => StoreFault::BadRecord {
            disk,
            slot: NO_SLOT,
        },
    }
}
