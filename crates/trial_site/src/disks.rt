//! The disks of a site in memory, and how they fail.
ghost use Rattle.std.specs.Prelude.{◌≡◌, ◌<◌, length, All, IfOk};
ghost use Rattle.site_disk.specs.Ledger.{MayUse};
ghost use Rattle.site_disk.specs.MemDisk.{disk_ledger};
ghost use Rattle.site_core.specs.Disks.{MayUseAll};
ghost use Rattle.site_core.specs.Made.{IsMadeSite};

use crate::bytes::{Bytes, DISKS};
use site_core::{Site, SiteDisks};
use site_disk::{Choice, Disk, Era, MemDisk, OutOfMemory};
use site_model::DiskName;
use std::alloc::{AllocError, Global};

/// The moment at which commands run, in seconds from 1970; the identifier of a site that one of them formats.
pub const MOMENT: u64 = 0x0102_0304;

const VOLUMES: u16 = 17;

const CHUNKS: u16 = 16;

/// How a disk fails: at one call, or from a call on, whose write puts so many bytes.
#[derive(Clone, Copy, Debug)]
pub enum Trouble {
    Fails(u64),
    Stops(u64, usize),
}

/// The disks that fail. With a seed all crash behind the command.
#[derive(Clone, Copy)]
pub struct Plan<'a> {
    pub troubles: &'a [(DiskName, Trouble)],
    pub crash: Option<u64>,
}

impl Plan<'_> {
    /// No disk fails.
    pub const NONE: Plan<'static> = Plan {
        troubles: &[],
        crash: None,
    };
}

fn befall(alloc: Global, trouble: Trouble, disk: &mut MemDisk) -> Result<(), AllocError>
    ensures { disk_ledger disk.new ≡ disk_ledger disk.old }
{
    match trouble {
        Trouble::Fails(call) => disk.fail_at(Vec::from_slice(alloc, &[call])?),
        Trouble::Stops(call, bytes) => disk.stop_at(call, bytes),
    }
    Ok(())
}

// A disk of these bytes, with what the plan has for it.
fn disk_of(
    alloc: Global,
    era: &Era,
    bytes: &Bytes,
    plan: &Plan<'_>,
    name: DiskName,
) -> Result<MemDisk, OutOfMemory>
    ensures { IfOk result (λ disk. MayUse era.now (disk_ledger disk)) }
{
    let mut disk = MemDisk::new(alloc, era, Vec::from_slice(alloc, bytes.of(name))?);
    for (at, trouble) in plan.troubles {
        if *at == name {
            befall(alloc, *trouble, &mut disk)?;
        }
    }
    Ok(disk)
}

fn volumes_of(
    alloc: Global,
    era: &Era,
    bytes: &Bytes,
    plan: &Plan<'_>,
) -> Result<Vec<MemDisk>, OutOfMemory>
    ensures may { IfOk result (λ disks. All (λ disk. MayUse era.now (disk_ledger disk)) disks.items) }
    ensures count { IfOk result (λ disks. length disks.items ≡ 17) }
{
    let mut disks = Vec::new(alloc);
    for n in 0..VOLUMES {
        disks.push(disk_of(alloc, era, bytes, plan, DiskName::Volume(n))?)?;
    }
    Ok(disks)
}

fn chunks_of(
    alloc: Global,
    era: &Era,
    bytes: &Bytes,
    plan: &Plan<'_>,
) -> Result<Vec<MemDisk>, OutOfMemory>
    ensures may { IfOk result (λ disks. All (λ disk. MayUse era.now (disk_ledger disk)) disks.items) }
    ensures count { IfOk result (λ disks. length disks.items ≡ 16) }
{
    let mut disks = Vec::new(alloc);
    for n in 0..CHUNKS {
        disks.push(disk_of(alloc, era, bytes, plan, DiskName::Chunk(n))?)?;
    }
    Ok(disks)
}

/// A site over disks of these bytes.
pub fn site_of(
    alloc: Global,
    era: &Era,
    bytes: &Bytes,
    plan: &Plan<'_>,
) -> Result<Site<MemDisk>, OutOfMemory>
    ensures may { IfOk result (λ site. MayUseAll ⟦<MemDisk as Disk>⟧ era.now site) }
    ensures made { IfOk result (λ site. IsMadeSite site) }
{
    let disks = SiteDisks {
        cat: disk_of(alloc, era, bytes, plan, DiskName::Cat)?,
        spare: disk_of(alloc, era, bytes, plan, DiskName::Spare)?,
        boot: disk_of(alloc, era, bytes, plan, DiskName::Boot)?,
        log: disk_of(alloc, era, bytes, plan, DiskName::Log)?,
        volumes: volumes_of(alloc, era, bytes, plan)?,
        chunks: chunks_of(alloc, era, bytes, plan)?,
    };
    Site::new(alloc, disks)
}

// The disks of a site in the order of their places.
fn in_order(alloc: Global, disks: SiteDisks<MemDisk>) -> Result<Vec<MemDisk>, AllocError> {
    let mut all = Vec::with_capacity(alloc, DISKS)?;
    all.push(disks.cat)?;
    all.push(disks.spare)?;
    all.push(disks.boot)?;
    all.push(disks.log)?;
    for volume in disks.volumes {
        all.push(volume)?;
    }
    for chunk in disks.chunks {
        all.push(chunk)?;
    }
    Ok(all)
}

fn bytes_of(alloc: Global, disk: &MemDisk) -> Result<Vec<u8>, OutOfMemory> {
    Ok(Vec::from_slice(alloc, disk.bytes())?)
}

// The bytes that a disk has, or that a crash leaves of it.
fn bytes_left(
    alloc: Global,
    disk: MemDisk,
    era: &Era,
    crash: Option<u64>,
) -> Result<Vec<u8>, OutOfMemory> {
    match crash {
        Some(seed) => {
            let calls = u64::MAX;
            bytes_of(alloc, &disk.crash(era, &Choice { calls, seed })?)
        }
        None => bytes_of(alloc, &disk),
    }
}

/// What a command leaves: the bytes of its disks, and whether a call of one came, or failed by plan.
pub fn leave(
    alloc: Global,
    site: Site<MemDisk>,
    era: &Era,
    crash: Option<u64>,
) -> Result<(Bytes, bool), OutOfMemory> {
    let mut all = Vec::with_capacity(alloc, DISKS)?;
    let mut is_touched = false;
    let mut place = 0;
    for disk in in_order(alloc, site.into_disks(alloc)?)? {
        is_touched |= disk.planned() > 0 || disk.bytes_read() > 0 || disk.bytes_written() > 0;
        // Each disk has its own part of the choice.
        let crash = crash.map(|seed| seed.wrapping_mul(64).wrapping_add(place));
        all.push(bytes_left(alloc, disk, era, crash)?)?;
        place = place.wrapping_add(1);
    }
    Ok((Bytes::in_order(all), is_touched))
}
