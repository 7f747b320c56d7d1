//! The disks of one site, and the values over them.
ghost use Rattle.std.specs.Prelude.{◌≡◌, ◌≤◌, length, map, IfOk};
ghost use Rattle.object_volume.specs.Volumes.{disk_of as volume_disk};
ghost use Rattle.space_lane.specs.Lanes.{disk_of as lane_disk};
ghost use Rattle.site_model.specs.declared.disk_name.DiskName.{DiskName};
ghost use Rattle.site_core.specs.Disks.{disk_named, disk_given};
ghost use Rattle.site_core.specs.Made.{AreMade, IsMadeSite};

use boot_file::Boot;
use logical_log::LogRing;
use object_store::Store;
use object_volume::Volume;
use site_disk::{Disk, OutOfMemory};
use space_lane::Lane;
use std::alloc::Global;
use store_opening::new_store;

/// The disks of a site: 17 volumes and 16 chunks.
#[derive(Drop)]
pub struct SiteDisks<D> {
    pub cat: D,
    pub spare: D,
    pub boot: D,
    pub log: D,
    pub volumes: Vec<D>,
    pub chunks: Vec<D>,
}

/// A site: its store, its boot file, its log, and a lane for each of the 16 chunks, in order of their spaces.
#[derive(Drop)]
pub struct Site<D> {
    pub store: Store<D>,
    pub boot: Boot<D>,
    pub log: LogRing<D>,
    pub lanes: Vec<Lane<D>>,
}

// A lane over each chunk.
fn lanes_over<D: Disk>(alloc: Global, chunks: Vec<D>) -> Result<Vec<Lane<D>>, OutOfMemory>
    requires { length chunks.items ≤ 16 }
    ensures made { IfOk result (λ lanes. AreMade lanes.items) }
    ensures disks { IfOk result (λ lanes. map lane_disk lanes.items ≡ chunks.items) }
{
    let mut lanes = Vec::with_capacity(alloc, chunks.len())?;
    let mut space = 0;
    for chunk in chunks {
        lanes.push(Lane::new(chunk, space))?;
        space += 1;
    }
    Ok(lanes)
}

// The disk of each volume.
fn volume_disks<D: Disk>(alloc: Global, volumes: Vec<Volume<D>>) -> Result<Vec<D>, OutOfMemory>
    ensures { IfOk result (λ disks. map volume_disk volumes.items ≡ disks.items) }
{
    let mut disks = Vec::with_capacity(alloc, volumes.len())?;
    for volume in volumes {
        disks.push(volume.into_disk())?;
    }
    Ok(disks)
}

// The disk of each lane.
fn lane_disks<D: Disk>(alloc: Global, lanes: Vec<Lane<D>>) -> Result<Vec<D>, OutOfMemory>
    ensures { IfOk result (λ disks. map lane_disk lanes.items ≡ disks.items) }
{
    let mut disks = Vec::with_capacity(alloc, lanes.len())?;
    for lane in lanes {
        disks.push(lane.into_disk())?;
    }
    Ok(disks)
}

impl<D: Disk> Site<D> {
    /// A site over its disks, nothing of it opened yet.
    pub fn new(alloc: Global, disks: SiteDisks<D>) -> Result<Site<D>, OutOfMemory>
        requires volumes { length disks.volumes.items ≡ 17 }
        requires chunks { length disks.chunks.items ≡ 16 }
        ensures made { IfOk result (λ site. IsMadeSite site) }
        // Each disk, by its name, is the one that was handed in.
        ensures disks { IfOk result (λ site. (name : DiskName) → disk_named site name ≡ disk_given disks name) }
    {
        let store = new_store(alloc, disks.cat, disks.spare, disks.volumes)?;
        let lanes = lanes_over(alloc, disks.chunks)?;
        Ok(Site {
            store,
            boot: Boot::new(alloc, disks.boot),
            log: LogRing::new(alloc, disks.log),
            lanes,
        })
    }

    /// Its disks, each by its name.
    pub fn into_disks(self, alloc: Global) -> Result<SiteDisks<D>, OutOfMemory>
        ensures { IfOk result (λ disks. (name : DiskName) → disk_named self name ≡ disk_given disks name) }
    {
        let Site {
            store: Store { cat, volumes },
            boot,
            log,
            lanes,
        } = self;
        let (cat, spare) = cat.into_disks();
        Ok(SiteDisks {
            cat,
            spare,
            boot: boot.into_disk(),
            log: log.into_disk(),
            volumes: volume_disks(alloc, volumes)?,
            chunks: lane_disks(alloc, lanes)?,
        })
    }
}
