//! A site in memory that is formatted.
ghost use Rattle.std.specs.Prelude.{◌≡◌, length, All, IfOk, IfSome};
ghost use Rattle.site_disk.specs.Ledger.{MayUse};
ghost use Rattle.site_disk.specs.MemDisk.{disk_ledger};
ghost use Rattle.site_headers.specs.Heads.{IsHead};
ghost use Rattle.site_headers.specs.Views.{head_of};
ghost use Rattle.site_model.specs.declared.disk_name.DiskName.{DiskName};
ghost use Rattle.site_core.specs.Disks.{disk_named};
ghost use Rattle.site_core.specs.Made.{IsMadeSite};

use crate::init_site;
use site_core::{Site, SiteDisks};
use site_disk::{Era, MemDisk};
use site_forms::Report;
use site_headers::{SiteHead, read_catalogue_header};
use site_model::Status;
use std::alloc::Global;
use std::test::Fail;

/// The header of site 100, with one space of four pages, `A`, and volumes of eight blocks, by hand.
fn head(alloc: Global) -> Result<SiteHead, Fail>
    ensures { IfOk result (λ head. IsHead (head_of head)) }
{
    let mut page = [0; 4096];
    page[..16].copy_from_slice(b"\x01OBS\x01\x01\0\0\0\0\0\0\0\0\0\x64");
    page[17] = 1;
    page[27] = 8;
    page[32] = b'A';
    page[55] = 4;
    Ok(read_catalogue_header(alloc, &page)?.ok_or("no header")?)
}

fn empty_disk(alloc: Global, era: &Era) -> MemDisk
    ensures { MayUse era.now (disk_ledger result) }
{
    MemDisk::new(alloc, era, Vec::new(alloc))
}

fn empty_disks(alloc: Global, era: &Era, count: usize) -> Result<Vec<MemDisk>, Fail>
    ensures count { IfOk result (λ disks. length disks.items ≡ count) }
    ensures may { IfOk result (λ disks. All (λ disk. MayUse era.now (disk_ledger disk)) disks.items) }
{
    let mut disks = Vec::new(alloc);
    for _ in 0..count {
        disks.push(empty_disk(alloc, era))?;
    }
    Ok(disks)
}

fn empty_site(alloc: Global, era: &Era) -> Result<Site<MemDisk>, Fail>
    ensures made { IfOk result IsMadeSite }
    ensures may { IfOk result (λ site. (name : DiskName) → IfSome (disk_named site name) (λ disk. MayUse era.now (disk_ledger disk))) }
{
    let disks = SiteDisks {
        cat: empty_disk(alloc, era),
        spare: empty_disk(alloc, era),
        boot: empty_disk(alloc, era),
        log: empty_disk(alloc, era),
        volumes: empty_disks(alloc, era, 17)?,
        chunks: empty_disks(alloc, era, 16)?,
    };
    Ok(Site::new(alloc, disks)?)
}

#[test]
fn a_site_is_formatted_once(rt: HostRuntime) -> Result<(), Fail> {
    let alloc = rt.alloc();
    let mut era = Era::first();
    let mut site = empty_site(alloc, &era)?;
    let SiteHead {
        site: moment,
        blocks,
        spaces,
    } = head(alloc)?;
    let done = init_site(alloc, &mut site, &mut era, blocks, spaces, moment);
    assert!(rt; matches!(done, Ok(Report::Formatted { .. })));
    let SiteHead {
        site: moment,
        blocks,
        spaces,
    } = head(alloc)?;
    let again = init_site(alloc, &mut site, &mut era, blocks, spaces, moment);
    assert!(rt; matches!(again, Err(Status::AlreadyFormatted)));
    Ok(())
}
