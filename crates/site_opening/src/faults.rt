//! Faults of the parts of a site as those of the site.
ghost use Rattle.std.specs.Prelude.{◌≡◌};
ghost use Rattle.site_opening.specs.Faults.{disk_of_catalogue, disk_of_store, fault_of_boot, fault_of_catalogue, fault_of_store};

use boot_file::{BootFault, NO_SLOT};
use catalogue_journal::CatFault;
use site_core::SiteFault;
use site_model::DiskName;
use store_opening::{StoreDisk, StoreFault};

// The disk that a fault of the catalogue names.
fn catalogue_disk(spare: bool) -> DiskName
    ensures { result ≡ disk_of_catalogue spare }
{
    if spare {
        DiskName::Spare
    } else {
        DiskName::Cat
    }
}

/// A fault of the catalogue. Of a transaction there is none when it is opened.
pub(crate) fn catalogue_fault(fault: CatFault) -> SiteFault
    ensures { result ≡ fault_of_catalogue fault }
{
    match fault {
        CatFault::OutOfMemory => SiteFault::OutOfMemory,
        CatFault::Failed { spare } => SiteFault::DiskFault(catalogue_disk(spare)),
        CatFault::NotFormatted => SiteFault::NotFormatted,
        CatFault::BadRecord { spare, slot } => SiteFault::BadRecord {
            disk: catalogue_disk(spare),
            slot,
        },
        CatFault::CatalogueFull { .. } | CatFault::TooManyObjects { .. } => SiteFault::BadRecord {
            disk: DiskName::Cat,
            slot: NO_SLOT,
        },
    }
}

/// A fault of the boot file. It isn't full when it is opened.
pub(crate) fn boot_fault(fault: BootFault) -> SiteFault
    ensures { result ≡ fault_of_boot fault }
{
    let disk = DiskName::Boot;
    match fault {
        BootFault::OutOfMemory => SiteFault::OutOfMemory,
        BootFault::Failed => SiteFault::DiskFault(disk),
        BootFault::BadRecord { slot } => SiteFault::BadRecord { disk, slot },
        BootFault::BootFull { .. } => SiteFault::BadRecord {
            disk,
            slot: NO_SLOT,
        },
    }
}

// The name of a disk of the store.
fn store_disk(disk: StoreDisk) -> DiskName
    ensures { result ≡ disk_of_store disk }
{
    match disk {
        StoreDisk::Cat => DiskName::Cat,
        StoreDisk::Spare => DiskName::Spare,
        StoreDisk::Volume(number) => DiskName::Volume(number),
    }
}

/// A fault of the store.
pub(crate) fn store_fault(fault: StoreFault) -> SiteFault
    ensures { result ≡ fault_of_store fault }
{
    match fault {
        StoreFault::OutOfMemory => SiteFault::OutOfMemory,
        StoreFault::DiskFault(disk) => SiteFault::DiskFault(store_disk(disk)),
        StoreFault::NotFormatted => SiteFault::NotFormatted,
        StoreFault::BadRecord { disk, slot } => SiteFault::BadRecord {
            disk: store_disk(disk),
            slot,
        },
    }
}
