ghost use Rattle.std.specs.Prelude.{◌<◌, true, IfOk, OnOk};
ghost use Rattle.site_disk.specs.Ledger.{MayUse};
ghost use Rattle.site_disk.specs.MemDisk.{disk_bytes, disk_ledger};
ghost use Rattle.site_headers.specs.Headers.{IsVolumeSize};
ghost use Rattle.object_volume.specs.Volumes.{disk_of, IsOpen, IsIdle, IsSending, IsLive};

use crate::{Cursor, SendFault, Sent, Soundness, Volume, VolumeFault};
use block_chain::Run;
use sha2::{Digest, Sha256};
use site_disk::{Choice, Era, Failed, MemDisk};
use std::alloc::Global;
use std::test::Fail;

const SITE: u64 = 7;

// The calls of the disk in which a second object is sent and ended, with the opening before it.
const CALLS: u64 = 8;

// The SHA-256 of `abc`, from the standard.
const ABC: [u8; 32] = [
    0xba, 0x78, 0x16, 0xbf, 0x8f, 0x01, 0xcf, 0xea, 0x41, 0x41, 0x40, 0xde, 0x5d, 0xae, 0x22, 0x23,
    0xb0, 0x03, 0x61, 0xa3, 0x96, 0x17, 0x7a, 0x9c, 0xb4, 0x10, 0xff, 0x61, 0xf2, 0x00, 0x15, 0xad,
];

// The SHA-256 of `xbc`, from another program.
const XBC: [u8; 32] = [
    0x11, 0xf9, 0x95, 0x63, 0x54, 0x83, 0xd6, 0x3d, 0x73, 0x61, 0x1c, 0x51, 0x4d, 0xba, 0x73, 0x4e,
    0x51, 0xe4, 0x5a, 0x04, 0xab, 0x45, 0xb7, 0xf2, 0x9c, 0xbb, 0x1e, 0xe0, 0x31, 0x27, 0x74, 0x8f,
];

#[test]
fn an_object_is_found_again(rt: HostRuntime) -> Result<(), Fail> {
    let alloc = rt.alloc();
    let era = Era::first();
    let live = Vec::new(alloc);
    let disk = MemDisk::new(alloc, &era, Vec::new(alloc));
    let mut volume = Volume::new(alloc, disk, 3);
    volume.format(&era, SITE, 2)?;
    volume.open(&era, SITE, &live)?;
    volume.begin();
    volume.send(&era, b"abc")?;
    let Sent { runs, size, digest } = volume.end(&era)?;
    assert_eq!(rt; runs.as_slice(), [Run { first: 0, count: 1 }].as_slice());
    assert_eq!(rt; (size, digest), (3, ABC));
    let mut bytes = [0; 4];
    assert_eq!(rt; volume.get(&era, &runs, size, 1, &mut bytes), Ok(2));
    assert_eq!(rt; bytes, *b"bc\0\0");
    assert_eq!(rt;
        volume.check(&era, &runs, size, &digest),
        Ok(Soundness::Sound)
    );
    let damaged = Soundness::Damaged { found: ABC };
    assert_eq!(rt; volume.check(&era, &runs, size, &[0; 32]), Ok(damaged));
    assert_eq!(rt;
        volume.check(&era, &runs, 4097, &digest),
        Ok(Soundness::Short)
    );
    Ok(())
}

// A new volume of so many blocks.
fn formatted(alloc: Global, era: &Era, blocks: u32) -> Result<Volume<MemDisk>, Fail>
    requires { IsVolumeSize blocks }
    ensures may { IfOk result (λ volume. MayUse era.now (disk_ledger (disk_of volume))) }
    ensures opened { IfOk result IsOpen }
    ensures idle { IfOk result IsIdle }
{
    let live = Vec::new(alloc);
    let disk = MemDisk::new(alloc, era, Vec::new(alloc));
    let mut volume = Volume::new(alloc, disk, 3);
    volume.format(era, SITE, blocks)?;
    volume.open(era, SITE, &live)?;
    Ok(volume)
}

// Sends a piece; want of a block counts as a failure.
fn add(volume: &mut Volume<MemDisk>, era: &Era, bytes: &[u8]) -> Result<(), VolumeFault>
    requires may { MayUse era.now (disk_ledger (disk_of volume.old)) }
    requires opened { IsOpen volume.old }
    requires begun { IsSending true disk_bytes volume.old }
    ensures may { MayUse era.now (disk_ledger (disk_of volume.new)) }
    ensures opened { OnOk result (IsOpen volume.new) }
    ensures begun { OnOk result (IsSending true disk_bytes volume.new) }
{
    match volume.send(era, bytes) {
        Ok(()) => Ok(()),
        Err(_) => Err(VolumeFault::Failed),
    }
}

// Sends a piece for which a block is lacking; any other answer counts as a failure.
fn refuse(volume: &mut Volume<MemDisk>, era: &Era, bytes: &[u8]) -> Result<(), VolumeFault>
    requires may { MayUse era.now (disk_ledger (disk_of volume.old)) }
    requires opened { IsOpen volume.old }
    requires begun { IsSending true disk_bytes volume.old }
    ensures may { MayUse era.now (disk_ledger (disk_of volume.new)) }
    ensures opened { OnOk result (IsOpen volume.new) }
    ensures begun { OnOk result (IsSending true disk_bytes volume.new) }
{
    match volume.send(era, bytes) {
        Err(SendFault::StoreFull) => Ok(()),
        _ => Err(VolumeFault::Failed),
    }
}

// Sends an object in two pieces and ends it.
fn put(
    volume: &mut Volume<MemDisk>,
    era: &Era,
    front: &[u8],
    rest: &[u8],
) -> Result<Sent, VolumeFault>
    requires may { MayUse era.now (disk_ledger (disk_of volume.old)) }
    requires opened { IsOpen volume.old }
    requires idle { IsIdle volume.old }
    ensures may { MayUse era.now (disk_ledger (disk_of volume.new)) }
    ensures opened { OnOk result (IsOpen volume.new) }
    ensures idle { OnOk result (IsIdle volume.new) }
    ensures live { IfOk result (λ sent. IsLive volume.new sent.runs.items) }
{
    volume.begin();
    add(volume, era, front)?;
    add(volume, era, rest)?;
    volume.end(era)
}

// Sends an object in pieces of so many bytes and ends it.
fn put_in_pieces(
    volume: &mut Volume<MemDisk>,
    era: &Era,
    bytes: &[u8],
    len: usize,
) -> Result<Sent, VolumeFault>
    requires may { MayUse era.now (disk_ledger (disk_of volume.old)) }
    requires opened { IsOpen volume.old }
    requires idle { IsIdle volume.old }
    requires some { 0 < len }
    ensures may { MayUse era.now (disk_ledger (disk_of volume.new)) }
{
    volume.begin();
    for piece in bytes.chunks(len) {
        add(volume, era, piece)?;
    }
    volume.end(era)
}

// Sends an object in pieces of so many bytes, and answers what is read of it then.
fn found_again(alloc: Global, bytes: &[u8], len: usize) -> Result<Vec<u8>, Fail>
    requires { 0 < len }
{
    let era = Era::first();
    let mut volume = formatted(alloc, &era, 2)?;
    let sent = put_in_pieces(&mut volume, &era, bytes, len)?;
    let mut into = vec![in alloc; 0; 4098]?;
    let n = volume.get(&era, &sent.runs, sent.size, 0, &mut into)?;
    into.truncate(n);
    Ok(into)
}

#[test]
fn pieces_of_every_kind_are_one_object(rt: HostRuntime) -> Result<(), Fail> {
    let alloc = rt.alloc();
    let era = Era::first();
    let bytes = [0xa5; 4097];
    for size in [0, 1, 4095, 4096, 4097] {
        for cut in [0, 1, 4095, 4096] {
            let mut volume = formatted(alloc, &era, 3)?;
            let (front, rest) = bytes[..size].split_at(cut.min(size));
            let sent = put(&mut volume, &era, front, rest)?;
            assert_eq!(rt; sent.size, size as u64, "{size} bytes cut at {cut}");
            assert_eq!(rt;
                sent.digest,
                Sha256::digest(&bytes[..size]),
                "{size} bytes cut at {cut}"
            );
            let sound = volume.check(&era, &sent.runs, sent.size, &sent.digest);
            assert_eq!(rt; sound, Ok(Soundness::Sound), "{size} bytes cut at {cut}");
        }
    }
    Ok(())
}

#[test]
fn pieces_of_one_length_are_one_object(rt: HostRuntime) -> Result<(), Fail> {
    let alloc = rt.alloc();
    let mut bytes = [0; 4097];
    for (i, byte) in bytes.iter_mut().enumerate() {
        *byte = (i % 251) as u8;
    }
    for size in [0, 1, 4095, 4096, 4097] {
        for len in [1, 4095, 4096, 4097] {
            let found = found_again(alloc, &bytes[..size], len)?;
            assert_eq!(rt; found.as_slice(), &bytes[..size], "{size} bytes by {len}");
        }
    }
    Ok(())
}

#[test]
fn a_piece_that_lacks_a_block_is_refused(rt: HostRuntime) -> Result<(), Fail> {
    let era = Era::first();
    let mut volume = formatted(rt.alloc(), &era, 2)?;
    put(&mut volume, &era, b"a", b"bc")?;
    volume.begin();
    refuse(&mut volume, &era, &[9; 4097])?;
    add(&mut volume, &era, &[9; 4096])?;
    let sent = volume.end(&era)?;
    assert_eq!(rt;
        sent.runs.as_slice(),
        [Run { first: 1, count: 1 }].as_slice()
    );
    assert_eq!(rt; sent.size, 4096);
    assert_eq!(rt; sent.digest, Sha256::digest(&[9; 4096]));
    Ok(())
}

#[test]
fn a_released_block_is_taken_again(rt: HostRuntime) -> Result<(), Fail> {
    let era = Era::first();
    let mut volume = formatted(rt.alloc(), &era, 2)?;
    let first = put(&mut volume, &era, b"a", b"bc")?;
    assert_eq!(rt;
        first.runs.as_slice(),
        [Run { first: 0, count: 1 }].as_slice()
    );
    volume.release(&first.runs);
    volume.begin();
    refuse(&mut volume, &era, &[7; 8193])?;
    add(&mut volume, &era, &[7; 8192])?;
    let sent = volume.end(&era)?;
    assert_eq!(rt;
        sent.runs.as_slice(),
        [Run { first: 1, count: 1 }, Run { first: 0, count: 1 }].as_slice()
    );
    Ok(())
}

#[test]
fn reads_go_on_from_a_cursor_over_two_runs(rt: HostRuntime) -> Result<(), Fail> {
    let era = Era::first();
    let mut bytes = [0; 8192];
    for (i, byte) in bytes.iter_mut().enumerate() {
        *byte = (i % 251) as u8;
    }
    let mut volume = formatted(rt.alloc(), &era, 2)?;
    let first = put(&mut volume, &era, b"a", b"bc")?;
    volume.release(&first.runs);
    let (front, rest) = bytes.split_at(5000);
    let Sent { runs, size, .. } = put(&mut volume, &era, front, rest)?;
    let mut cursor = Cursor::at(0);
    let mut into = [0; 3000];
    let got = volume.get_next(&era, &runs, size, &mut cursor, &mut into)?;
    assert_eq!(rt; into.get(..got), bytes.get(..3000));
    let got = volume.get_next(&era, &runs, size, &mut cursor, &mut into)?;
    assert_eq!(rt; into.get(..got), bytes.get(3000..6000));
    let got = volume.get_next(&era, &runs, size, &mut cursor, &mut into)?;
    assert_eq!(rt; into.get(..got), bytes.get(6000..));
    let got = volume.get_next(&era, &runs, size, &mut cursor, &mut into)?;
    assert_eq!(rt; got, 0);
    Ok(())
}

#[test]
fn cancelling_gives_the_blocks_back(rt: HostRuntime) -> Result<(), Fail> {
    let era = Era::first();
    let mut volume = formatted(rt.alloc(), &era, 2)?;
    volume.begin();
    add(&mut volume, &era, &[7; 8192])?;
    refuse(&mut volume, &era, b"z")?;
    volume.cancel();
    let sent = put(&mut volume, &era, &[8; 4096], &[8; 4096])?;
    assert_eq!(rt;
        sent.runs.as_slice(),
        [Run { first: 0, count: 2 }].as_slice()
    );
    Ok(())
}

// The bytes of a volume whose first object is `abc`.
fn volume_of_abc(alloc: Global, era: &Era) -> Result<Vec<u8>, Fail> {
    let mut volume = formatted(alloc, era, 2)?;
    put(&mut volume, era, b"a", b"bc")?;
    Ok(Vec::from_slice(alloc, volume.into_disk().bytes())?)
}

// What a check says of `abc` on a disk of these bytes.
fn soundness_of_abc(alloc: Global, era: &Era, bytes: Vec<u8>) -> Result<Soundness, Failed> {
    let runs = [Run { first: 0, count: 1 }];
    let mut volume = Volume::new(alloc, MemDisk::new(alloc, era, bytes), 3);
    volume.check(era, &runs, 3, &ABC)
}

#[test]
fn a_changed_byte_is_damaged(rt: HostRuntime) -> Result<(), Fail> {
    let alloc = rt.alloc();
    let era = Era::first();
    let mut bytes = volume_of_abc(alloc, &era)?;
    if let Some(byte) = bytes.get_mut(4096) {
        *byte = b'x';
    }
    let damaged = Soundness::Damaged { found: XBC };
    assert_eq!(rt; soundness_of_abc(alloc, &era, bytes), Ok(damaged));
    Ok(())
}

#[test]
fn a_volume_cut_short_is_short(rt: HostRuntime) -> Result<(), Fail> {
    let alloc = rt.alloc();
    let era = Era::first();
    let mut bytes = volume_of_abc(alloc, &era)?;
    bytes.truncate(4098);
    assert_eq!(rt; soundness_of_abc(alloc, &era, bytes), Ok(Soundness::Short));
    let whole = volume_of_abc(alloc, &era)?;
    assert_eq!(rt; soundness_of_abc(alloc, &era, whole), Ok(Soundness::Sound));
    Ok(())
}

#[test]
fn a_volume_is_formatted_again(rt: HostRuntime) -> Result<(), Fail> {
    let alloc = rt.alloc();
    let era = Era::first();
    let mut volume = formatted(alloc, &era, 1)?;
    volume.format(&era, SITE, 3)?;
    volume.open(&era, SITE, &Vec::new(alloc))?;
    let sent = put(&mut volume, &era, &[8; 8192], b"abc")?;
    assert_eq!(rt;
        sent.runs.as_slice(),
        [Run { first: 0, count: 3 }].as_slice()
    );
    Ok(())
}

// Opens the volume and sends a second object, as far as the disk goes. True where it was ended.
fn interrupted(volume: &mut Volume<MemDisk>, era: &Era, live: &[Vec<Run>]) -> bool
    requires { MayUse era.now (disk_ledger (disk_of volume.old)) }
    ensures { MayUse era.now (disk_ledger (disk_of volume.new)) }
{
    match volume.open(era, SITE, live) {
        Ok(()) => put(volume, era, &[6; 5000], b"more").is_ok(),
        Err(_) => false,
    }
}

// Stops the sending of a second object at a call, and checks the first one in an image that a crash leaves then. With it,
// whether the second one was ended.
fn first_after_stop(
    alloc: Global,
    call: u64,
    bytes: usize,
    seed: u64,
) -> Result<(Soundness, bool), Fail> {
    let mut era = Era::first();
    let mut volume = formatted(alloc, &era, 4)?;
    let Sent { runs, size, digest } = put(&mut volume, &era, &[5; 4100], b"end")?;
    let mut live = Vec::new(alloc);
    live.push(runs)?;
    era.next();
    let mut disk = volume.into_disk();
    disk.stop_at(call, bytes);
    let mut volume = Volume::new(alloc, disk, 3);
    let ended = interrupted(&mut volume, &era, &live);
    let choice = Choice {
        calls: u64::MAX,
        seed,
    };
    let left = volume.into_disk().crash(&era, &choice)?;
    let mut volume = Volume::new(alloc, left, 3);
    volume.open(&era, SITE, &live)?;
    let runs = live.first().ok_or("no runs")?;
    Ok((volume.check(&era, runs, size, &digest)?, ended))
}

#[test]
fn a_stop_leaves_the_first_object(rt: HostRuntime) -> Result<(), Fail> {
    let alloc = rt.alloc();
    for call in 1..=CALLS {
        for bytes in [0, 1, 4096] {
            for seed in 0..4 {
                let found = first_after_stop(alloc, call, bytes, seed)?;
                assert_eq!(rt;
                    found,
                    (Soundness::Sound, false),
                    "call {call}, byte {bytes}, seed {seed}"
                );
            }
        }
    }
    let found = first_after_stop(alloc, CALLS + 1, 0, 0)?;
    assert_eq!(rt; found, (Soundness::Sound, true));
    Ok(())
}
