// The site in the current folder.
ghost use Rattle.std.specs.Prelude.{◌≡◌, length, All, IfOk};
ghost use Rattle.host_disk.specs.Files.{file_ledger};
ghost use Rattle.site_disk.specs.Ledger.{MayUse, new_ledger};
ghost use Rattle.site_core.specs.Disks.{MayUseAll};
ghost use Rattle.site_core.specs.Made.{IsMadeSite};

use crate::ending::StartFault;
use host_disk::{FileDisk, Folder};
use site_core::{Site, SiteDisks};
use site_disk::{Disk, Era};
use site_model::DiskName;
use std::alloc::Global;
use std::fs::File;
use std::rt::Files;

const VOLUMES: u16 = 17;

const CHUNKS: u16 = 16;

/// The current folder, which is opened before the disks.
pub fn open_folder<R: Files<File = File>>(rt: &R) -> Result<Folder, StartFault> {
    match Folder::open(rt, ".") {
        Ok(folder) => Ok(folder),
        Err(error) => Err(StartFault::Folder(error)),
    }
}

fn open_disk<R: Files<File = File>>(
    rt: &R,
    alloc: Global,
    era: &Era,
    name: DiskName,
) -> Result<FileDisk, StartFault>
    ensures { IfOk result (λ disk. file_ledger disk ≡ new_ledger era.now.number era.now.key) }
{
    let path = format!(in alloc; "{name}")?;
    match FileDisk::open(rt, era, path.as_str()) {
        Ok(disk) => Ok(disk),
        Err(fault) => Err(StartFault::of_disk(name, fault)),
    }
}

// The catalogue's file, which a command holds: two commands in one folder would write over each other.
fn open_held<R: Files<File = File>>(
    rt: &R,
    alloc: Global,
    era: &Era,
) -> Result<FileDisk, StartFault>
    ensures { IfOk result (λ disk. file_ledger disk ≡ new_ledger era.now.number era.now.key) }
{
    let cat = open_disk(rt, alloc, era, DiskName::Cat)?;
    match cat.hold() {
        Ok(()) => Ok(cat),
        Err(fault) => Err(StartFault::of_disk(DiskName::Cat, fault)),
    }
}

fn open_volumes<R: Files<File = File>>(
    rt: &R,
    alloc: Global,
    era: &Era,
) -> Result<Vec<FileDisk>, StartFault>
    ensures may { IfOk result (λ disks. All (λ disk. MayUse era.now (file_ledger disk)) disks.items) }
    ensures count { IfOk result (λ disks. length disks.items ≡ 17) }
{
    let mut disks = Vec::new(alloc);
    for n in 0..VOLUMES {
        disks.push(open_disk(rt, alloc, era, DiskName::Volume(n))?)?;
    }
    Ok(disks)
}

fn open_chunks<R: Files<File = File>>(
    rt: &R,
    alloc: Global,
    era: &Era,
) -> Result<Vec<FileDisk>, StartFault>
    ensures may { IfOk result (λ disks. All (λ disk. MayUse era.now (file_ledger disk)) disks.items) }
    ensures count { IfOk result (λ disks. length disks.items ≡ 16) }
{
    let mut disks = Vec::new(alloc);
    for n in 0..CHUNKS {
        disks.push(open_disk(rt, alloc, era, DiskName::Chunk(n))?)?;
    }
    Ok(disks)
}

// The catalogue's file is held before any other is opened.
fn open_files<R: Files<File = File>>(
    rt: &R,
    alloc: Global,
    era: &Era,
) -> Result<Site<FileDisk>, StartFault>
    ensures may { IfOk result (λ site. MayUseAll ⟦<FileDisk as Disk>⟧ era.now site) }
    ensures made { IfOk result (λ site. IsMadeSite site) }
{
    let disks = SiteDisks {
        cat: open_held(rt, alloc, era)?,
        spare: open_disk(rt, alloc, era, DiskName::Spare)?,
        boot: open_disk(rt, alloc, era, DiskName::Boot)?,
        log: open_disk(rt, alloc, era, DiskName::Log)?,
        volumes: open_volumes(rt, alloc, era)?,
        chunks: open_chunks(rt, alloc, era)?,
    };
    Ok(Site::new(alloc, disks)?)
}

/// The site over the files `cat`, `spare`, `boot`, `log`, `vol00` to `vol16` and `chunk00` to `chunk15` of the current folder,
/// which are opened, and made where they aren't there, empty. They may be used from this era on.
///
/// The folder is synced at each start: the command that made a file may have been killed before it came to that.
pub fn open_site<R: Files<File = File>>(
    rt: &R,
    alloc: Global,
    era: &Era,
    folder: &Folder,
) -> Result<Site<FileDisk>, StartFault>
    ensures may { IfOk result (λ site. MayUseAll ⟦<FileDisk as Disk>⟧ era.now site) }
    ensures made { IfOk result (λ site. IsMadeSite site) }
{
    let site = open_files(rt, alloc, era)?;
    match folder.sync() {
        Ok(()) => Ok(site),
        Err(error) => Err(StartFault::Folder(error)),
    }
}
