//! A failure of the store as one of its site.
ghost use Rattle.std.specs.Prelude.{◌≡◌};
ghost use Rattle.site_formatting.specs.Faults.{fault_of_store, name_of};

use site_core::SiteFault;
use site_model::DiskName;
use store_opening::{StoreDisk, StoreFault};

// The disk of the store by its name in the site.
fn disk_name(disk: StoreDisk) -> DiskName
    ensures { result ≡ name_of disk }
{
    match disk {
        StoreDisk::Cat => DiskName::Cat,
        StoreDisk::Spare => DiskName::Spare,
        StoreDisk::Volume(number) => DiskName::Volume(number),
    }
}

/// A fault of the store as one of the site.
pub(crate) fn store_fault(fault: StoreFault) -> SiteFault
    ensures { result ≡ fault_of_store fault }
{
    match fault {
        StoreFault::OutOfMemory => SiteFault::OutOfMemory,
        StoreFault::DiskFault(disk) => SiteFault::DiskFault(disk_name(disk)),
        StoreFault::NotFormatted => SiteFault::NotFormatted,
        StoreFault::BadRecord { disk, slot } => SiteFault::BadRecord {
            disk: disk_name(disk),
            slot,
        },
    }
}
