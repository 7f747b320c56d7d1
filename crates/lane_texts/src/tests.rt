//! A small lane, told whole and by a page, with a digest from another program; a page whose number is another's.
ghost use Rattle.std.specs.Prelude.{◌≡◌, ◌<◌, IfOk};
ghost use Rattle.site_disk.specs.Ledger.{MayUse};
ghost use Rattle.site_disk.specs.MemDisk.{disk_ledger};
ghost use Rattle.space_lane.specs.Chunks.{IsPage};
ghost use Rattle.space_lane.specs.Lanes.{disk_of, space_of, count_of, with_disk};

use crate::{ListFault, page_text, space_text};
use byte_fields::write_bytes;
use site_disk::{Era, Failed, MemDisk};
use space_lane::{Lane, LaneState};
use std::alloc::Global;
use std::test::Fail;

const SITE: u64 = 9;

const SPACE: u16 = 2;

/// Writes the space and the number of page 1 into its bytes.
fn write_name(page: &mut [u8; 4096])
    ensures { IsPage SPACE 1 page.new }
{
    write_bytes(page, 8, &[0, 2, 0, 0, 0, 0, 0, 1]);
}

/// Page 1 with a byte at either end of its payload, by the Commit at 7.
fn written_page() -> [u8; 4096]
    ensures { IsPage SPACE 1 result }
{
    let mut page = [0; 4096];
    page[7] = 7;
    page[16] = b'A';
    page[4095] = b'Z';
    write_name(&mut page);
    page
}

/// A lane of three pages that were never written.
fn formatted(alloc: Global, era: &Era) -> Result<Lane<MemDisk>, Fail>
    ensures may { IfOk result (λ lane. MayUse era.now (disk_ledger (disk_of lane))) }
    ensures space { IfOk result (λ lane. space_of lane ≡ SPACE) }
    ensures count { IfOk result (λ lane. count_of lane ≡ 3) }
{
    let mut lane = Lane::new(MemDisk::new(alloc, era, Vec::new(alloc)), SPACE);
    lane.format(era, SITE, 3, &LaneState::At { upto: 0, part: 0 })?;
    Ok(lane)
}

/// Writes page 1.
fn put_written(lane: &mut Lane<MemDisk>, era: &Era) -> Result<(), Failed>
    requires may { MayUse era.now (disk_ledger (disk_of lane.old)) }
    requires space { space_of lane.old ≡ SPACE }
    requires count { 1 < count_of lane.old }
    ensures may { MayUse era.now (disk_ledger (disk_of lane.new)) }
    ensures value { lane.new ≡ with_disk lane.old (disk_of lane.new) }
{
    lane.put_page(era, 1, &written_page())
}

/// A lane of three pages, one of which was written.
fn small_lane(alloc: Global, era: &Era) -> Result<Lane<MemDisk>, Fail>
    ensures may { IfOk result (λ lane. MayUse era.now (disk_ledger (disk_of lane))) }
    ensures count { IfOk result (λ lane. count_of lane ≡ 3) }
{
    let mut lane = formatted(alloc, era)?;
    put_written(&mut lane, era)?;
    Ok(lane)
}

#[test]
fn a_small_lane(rt: HostRuntime) -> Result<(), Fail> {
    let alloc = rt.alloc();
    let era = Era::first();
    let mut lane = small_lane(alloc, &era)?;
    assert_eq!(rt;
        space_text(alloc, &mut lane, &era, "A", 3)?.as_str(),
        "page A 1 stamp 7\nspace A pages 3 used 1 digest 076c45acb6d3b0befbc86465b5ebabdfa0e526040f00baad1fcc55777fcb8b75\n"
    );
    assert_eq!(rt;
        page_text(alloc, &mut lane, &era, "A", 1)?.as_str(),
        "page A 1 stamp 7\n0000 41000000000000000000000000000000\n0fe0 0000000000000000000000000000005a\n"
    );
    Ok(())
}

#[test]
fn a_page_with_the_number_of_another(rt: HostRuntime) -> Result<(), Fail> {
    let alloc = rt.alloc();
    let era = Era::first();
    let disk = small_lane(alloc, &era)?.into_disk();
    let mut bytes = Vec::from_slice(alloc, disk.bytes())?;
    if let Some(number) = bytes.get_mut(77_824 + 4096 + 15) {
        *number = 2;
    }
    let mut lane = Lane::new(MemDisk::new(alloc, &era, bytes), SPACE);
    lane.open(&era, SITE, 3)?;
    let refused = Some(ListFault::BadPage { page: 1 });
    assert_eq!(rt; space_text(alloc, &mut lane, &era, "A", 3).err(), refused);
    assert_eq!(rt; page_text(alloc, &mut lane, &era, "A", 1).err(), refused);
    assert_eq!(rt;
        page_text(alloc, &mut lane, &era, "A", 2)?.as_str(),
        "page A 2 stamp 0\n"
    );
    Ok(())
}
