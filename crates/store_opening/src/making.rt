//! A store over its disks.
ghost use Rattle.std.specs.Prelude.{◌≡◌, ◌≤◌, length, map, IfOk};
ghost use Rattle.catalogue_journal.specs.Catalogues.{cat_of, spare_of};
ghost use Rattle.object_volume.specs.Volumes.{disk_of, number_of};
ghost use Rattle.object_store.specs.Stores.{OfEach};
ghost use Rattle.store_opening.specs.Disks.{IsMadeStore};

use catalogue_journal::Catalogue;
use object_store::Store;
use object_volume::Volume;
use site_disk::{Disk, OutOfMemory};
use std::alloc::Global;

/// How many volumes a store has: 16 for spaces and one for the log.
pub const VOLUMES: u16 = 17;

/// The store over these disks, each volume with its place as its number. It is closed.
pub fn new_store<D: Disk>(
    alloc: Global,
    cat: D,
    spare: D,
    volumes: Vec<D>,
) -> Result<Store<D>, OutOfMemory>
    requires { length volumes.items ≡ 17 }
    ensures made { IfOk result (λ store. IsMadeStore store) }
    ensures cat { IfOk result (λ store. cat_of store.cat ≡ cat) }
    ensures spare { IfOk result (λ store. spare_of store.cat ≡ spare) }
    ensures disks { IfOk result (λ store. map disk_of store.volumes.items ≡ volumes.items) }
{
    let cat = Catalogue::new(alloc, cat, spare);
    let volumes = volumes_over(alloc, volumes)?;
    Ok(Store { cat, volumes })
}

// A volume over each disk.
fn volumes_over<D: Disk>(alloc: Global, disks: Vec<D>) -> Result<Vec<Volume<D>>, OutOfMemory>
    requires { length disks.items ≤ 17 }
    ensures numbers { IfOk result (λ volumes. OfEach (λ place volume. number_of volume ≡ place) volumes.items) }
    ensures disks { IfOk result (λ volumes. map disk_of volumes.items ≡ disks.items) }
{
    let mut volumes = Vec::with_capacity(alloc, disks.len())?;
    let mut number = 0;
    for disk in disks {
        volumes.push(Volume::new(alloc, disk, number))?;
        number += 1;
    }
    Ok(volumes)
}
