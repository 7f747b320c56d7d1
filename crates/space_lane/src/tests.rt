//! Chunks in memory, call by call.
ghost use Rattle.std.specs.Prelude.{◌≡◌, ◌<◌, IfOk};
ghost use Rattle.site_disk.specs.Ledger.{MayUse};
ghost use Rattle.site_disk.specs.MemDisk.{disk_ledger};
ghost use Rattle.space_lane.specs.Chunks.{IsPage};
ghost use Rattle.space_lane.specs.Lanes.{disk_of, space_of, count_of, with_disk, IsMade, IsOpen};

use crate::pages::name_of;
use crate::{Lane, LaneFault, LaneState};
use byte_fields::write_bytes;
use site_disk::{Choice, Era, Failed, MemDisk};
use std::alloc::Global;
use std::test::Fail;

const SITE: u64 = 7;

const SPACE: u16 = 2;

const START: LaneState = LaneState::At { upto: 0, part: 0 };

const NEXT: LaneState = LaneState::At { upto: 5, part: 1 };

// Writes the name of a page into its bytes.
fn write_name(page: u32, bytes: &mut [u8; 4096])
    ensures { IsPage SPACE page bytes.new }
{
    write_bytes(bytes, 8, &name_of(SPACE, page));
}

// A page filled with a byte, but for its name.
fn filled(page: u32, byte: u8) -> [u8; 4096]
    ensures { IsPage SPACE page result }
{
    let mut bytes = [byte; 4096];
    write_name(page, &mut bytes);
    bytes
}

// A new chunk of 3 pages.
fn formatted(alloc: Global, era: &Era) -> Result<Lane<MemDisk>, Fail>
    ensures may { IfOk result (λ lane. MayUse era.now (disk_ledger (disk_of lane))) }
    ensures opened { IfOk result (λ lane. IsOpen lane) }
    ensures space { IfOk result (λ lane. space_of lane ≡ SPACE) }
    ensures count { IfOk result (λ lane. count_of lane ≡ 3) }
{
    let mut lane = Lane::new(MemDisk::new(alloc, era, Vec::new(alloc)), SPACE);
    lane.format(era, SITE, 3, &START)?;
    Ok(lane)
}

// A chunk that was lost, emptied again with 2 pages.
fn emptied(alloc: Global, era: &Era) -> Result<Lane<MemDisk>, Fail>
    ensures may { IfOk result (λ lane. MayUse era.now (disk_ledger (disk_of lane))) }
    ensures made { IfOk result (λ lane. IsMade lane) }
    ensures space { IfOk result (λ lane. space_of lane ≡ SPACE) }
    ensures count { IfOk result (λ lane. count_of lane ≡ 2) }
{
    let mut lane = Lane::new(MemDisk::new(alloc, era, Vec::new(alloc)), SPACE);
    lane.lose(era)?;
    lane.empty(era, 2)?;
    Ok(lane)
}

// Puts a page filled with a byte.
fn put(lane: &mut Lane<MemDisk>, era: &Era, page: u32, byte: u8) -> Result<(), Failed>
    requires may { MayUse era.now (disk_ledger (disk_of lane.old)) }
    requires space { space_of lane.old ≡ SPACE }
    requires page { page < count_of lane.old }
    ensures may { MayUse era.now (disk_ledger (disk_of lane.new)) }
    ensures value { lane.new ≡ with_disk lane.old (disk_of lane.new) }
{
    lane.put_page(era, page, &filled(page, byte))
}

// Sets the next state, and syncs.
fn set_next(lane: &mut Lane<MemDisk>, era: &Era) -> Result<(), Failed>
    requires may { MayUse era.now (disk_ledger (disk_of lane.old)) }
    requires opened { IsOpen lane.old }
    ensures may { MayUse era.now (disk_ledger (disk_of lane.new)) }
{
    lane.set_state(era, &NEXT)?;
    lane.sync(era)
}

#[test]
fn a_formatted_chunk(rt: HostRuntime) -> Result<(), Fail> {
    let alloc = rt.alloc();
    let era = Era::first();
    let mut lane = Lane::new(MemDisk::new(alloc, &era, Vec::new(alloc)), SPACE);
    lane.format(&era, SITE, 3, &START)?;
    assert_eq!(rt; *lane.state(), START);
    // 3 pages behind the header, the mark and the before-images; each page is written once.
    assert_eq!(rt; lane.disk.bytes().len(), 77_824 + 3 * 4096);
    assert_eq!(rt;
        lane.disk.bytes_written(),
        1 + 77_823 + 3 * 4096 + 1024 + 4096
    );
    let mut page = [1; 4096];
    lane.read_page(&era, 2, &mut page)?;
    let mut empty = [0; 4096];
    empty[9] = 2;
    empty[15] = 2;
    assert_eq!(rt; page, empty);
    Ok(())
}

#[test]
fn a_page_is_put_and_a_state_set(rt: HostRuntime) -> Result<(), Fail> {
    let alloc = rt.alloc();
    let era = Era::first();
    let mut lane = formatted(alloc, &era)?;
    put(&mut lane, &era, 2, 9)?;
    set_next(&mut lane, &era)?;
    let mut lane = Lane::new(lane.into_disk(), SPACE);
    lane.open(&era, SITE, 3)?;
    assert_eq!(rt; *lane.state(), NEXT);
    let mut page = [0; 4096];
    lane.read_page(&era, 2, &mut page)?;
    assert_eq!(rt; page, filled(2, 9));
    Ok(())
}

#[test]
fn a_lost_lane_is_not_opened(rt: HostRuntime) -> Result<(), Fail> {
    let alloc = rt.alloc();
    let era = Era::first();
    let mut lane = formatted(alloc, &era)?;
    lane.lose(&era)?;
    assert_eq!(rt; lane.open(&era, SITE, 3), Err(LaneFault::ChunkLost));
    Ok(())
}

#[test]
fn a_lost_lane_is_emptied_and_reopened(rt: HostRuntime) -> Result<(), Fail> {
    let alloc = rt.alloc();
    let era = Era::first();
    let mut lane = emptied(alloc, &era)?;
    put(&mut lane, &era, 1, 8)?;
    lane.reopen(&era, SITE, 2, &LaneState::Blank { restore: 4 })?;
    lane.open(&era, SITE, 2)?;
    assert_eq!(rt; *lane.state(), LaneState::Blank { restore: 4 });
    let mut page = [0; 4096];
    lane.read_page(&era, 1, &mut page)?;
    assert_eq!(rt; page, filled(1, 8));
    Ok(())
}

// How a chunk of 3 pages is changed and opened, and what the opening answers: a length, a byte at a place, the site, the
// space, the number of pages.
static OPENINGS: [(usize, usize, u8, u64, u16, u32, Option<LaneFault>); 13] = [
    (90_112, 0, 1, 7, 2, 3, None),
    (90_112, 0, 9, 7, 2, 3, None),
    (0, 0, 0, 7, 2, 3, Some(LaneFault::ChunkLost)),
    (4095, 0, 1, 7, 2, 3, Some(LaneFault::ChunkLost)),
    (90_112, 0, 0, 7, 2, 3, Some(LaneFault::ChunkLost)),
    (90_112, 4, 5, 7, 2, 3, Some(LaneFault::ChunkLost)),
    (90_112, 4095, 1, 7, 2, 3, Some(LaneFault::ChunkLost)),
    (90_112, 0, 1, 8, 2, 3, Some(LaneFault::ChunkLost)),
    (90_112, 0, 1, 7, 1, 3, Some(LaneFault::ChunkLost)),
    (90_112, 0, 1, 7, 2, 4, Some(LaneFault::ChunkLost)),
    (90_112, 4096, 0, 7, 2, 3, Some(LaneFault::BadMark)),
    (90_112, 4353, 9, 7, 2, 3, Some(LaneFault::BadMark)),
    (4096, 0, 1, 7, 2, 3, Some(LaneFault::BadMark)),
];

fn front(bytes: &[u8], len: usize) -> &[u8] {
    &bytes[..len.min(bytes.len())]
}

// A chunk of 3 pages, cut off, with one byte changed.
fn changed(alloc: Global, len: usize, at: usize, byte: u8) -> Result<Vec<u8>, Fail> {
    let era = Era::first();
    let mut lane = Lane::new(MemDisk::new(alloc, &era, Vec::new(alloc)), SPACE);
    lane.format(&era, SITE, 3, &START)?;
    let disk = lane.into_disk();
    let mut bytes = Vec::from_slice(alloc, front(disk.bytes(), len))?;
    if let Some(place) = bytes.get_mut(at) {
        *place = byte;
    }
    Ok(bytes)
}

#[test]
fn chunks_that_are_opened(rt: HostRuntime) -> Result<(), Fail> {
    let alloc = rt.alloc();
    for (len, at, byte, site, space, pages, fault) in OPENINGS {
        let era = Era::first();
        let bytes = changed(alloc, len, at, byte)?;
        let mut lane = Lane::new(MemDisk::new(alloc, &era, bytes), space);
        let opened = lane.open(&era, site, pages);
        assert_eq!(rt; opened.err(), fault, "{len} bytes, {byte} at {at}");
    }
    Ok(())
}

#[test]
fn a_page_of_another_space_or_number_is_bad(rt: HostRuntime) -> Result<(), Fail> {
    let alloc = rt.alloc();
    for at in 8..16 {
        let era = Era::first();
        let bytes = changed(alloc, 90_112, 77_824 + 4096 + at, 9)?;
        let mut lane = Lane::new(MemDisk::new(alloc, &era, bytes), SPACE);
        lane.open(&era, SITE, 3)?;
        let mut page = [0; 4096];
        assert_eq!(rt;
            lane.read_page(&era, 1, &mut page),
            Err(LaneFault::BadPage { page: 1 }),
            "at {at}"
        );
        lane.read_page(&era, 2, &mut page)?;
    }
    Ok(())
}

// The chunk that a crash leaves, opened.
fn opened_after_crash(lane: Lane<MemDisk>, era: &Era, seed: u64) -> Result<Lane<MemDisk>, Fail>
    requires { MayUse era.now (disk_ledger (disk_of lane)) }
    ensures may { IfOk result (λ left. MayUse era.now (disk_ledger (disk_of left))) }
    ensures opened { IfOk result (λ left. IsOpen left) }
    ensures count { IfOk result (λ left. count_of left ≡ 3) }
{
    let choice = Choice {
        calls: u64::MAX,
        seed,
    };
    let left = lane.into_disk().crash(era, &choice)?;
    let mut lane = Lane::new(left, SPACE);
    lane.open(era, SITE, 3)?;
    Ok(lane)
}

// A state set behind a page that was put, stopped at a call: the state that an image has then.
fn left_after_stop(alloc: Global, call: u64, bytes: usize, seed: u64) -> Result<LaneState, Fail> {
    let mut era = Era::first();
    let mut lane = formatted(alloc, &era)?;
    era.next();
    put(&mut lane, &era, 1, 9)?;
    lane.disk.stop_at(call, bytes);
    let _ = lane.set_state(&era, &NEXT);
    let mut lane = opened_after_crash(lane, &era, seed)?;
    let mut page = [0; 4096];
    let read = lane.read_page(&era, 1, &mut page);
    // Behind the new state stands the new page.
    if *lane.state() == NEXT && (read != Ok(()) || page != filled(1, 9)) {
        return Ok(LaneState::Blank { restore: 1 });
    }
    Ok(*lane.state())
}

// The calls of a set: a sync, two that find nothing kept, two of the other gate, the body, a sync, the gate, a sync.
#[test]
fn a_stop_leaves_the_old_state_or_the_new_one(rt: HostRuntime) -> Result<(), Fail> {
    let alloc = rt.alloc();
    for call in 1..11 {
        for bytes in [0, 1, 128] {
            for seed in 0..3 {
                let state = left_after_stop(alloc, call, bytes, seed)?;
                assert!(rt;
                    state == START || state == NEXT,
                    "at call {call}, byte {bytes}, seed {seed}"
                );
                assert!(rt; call > 7 || state == START, "at call {call}");
                assert!(rt; call < 10 || state == NEXT, "at call {call}");
            }
        }
    }
    Ok(())
}
