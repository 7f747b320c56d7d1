ghost use Rattle.std.specs.Prelude.{◌<◌};

use crate::{Choice, Disk, Era, Failed, MemDisk, MemSink, MemSource, Sink, Source, write_and_sync};
use std::alloc::Global;
use std::test::Fail;

#[test]
fn a_source_gives_its_bytes_in_pieces_and_then_the_end(rt: HostRuntime) -> Result<(), Fail> {
    let alloc = rt.alloc();
    let mut source = MemSource::new(
        alloc,
        Vec::from_slice(alloc, b"abcde")?,
        Vec::from_slice(alloc, &[2, 4])?,
    );
    let mut buffer = [0u8; 3];
    assert_eq!(rt; source.read(&mut buffer), Ok(3));
    assert_eq!(rt; buffer, [97, 98, 99]);
    assert_eq!(rt; source.read(&mut buffer), Err(Failed));
    assert_eq!(rt; source.read(&mut []), Ok(0));
    assert_eq!(rt; source.read(&mut buffer), Err(Failed));
    assert_eq!(rt; source.read(&mut buffer), Ok(2));
    assert_eq!(rt; buffer, [100, 101, 99]);
    assert_eq!(rt; source.read(&mut buffer), Ok(0));
    Ok(())
}

#[test]
fn a_sink_keeps_what_it_takes(rt: HostRuntime) -> Result<(), Fail> {
    let alloc = rt.alloc();
    let mut sink = MemSink::new(alloc, Vec::from_slice(alloc, &[2])?);
    assert_eq!(rt; sink.write(b"ab"), Ok(2));
    assert_eq!(rt; sink.write(b"lost"), Err(Failed));
    assert_eq!(rt; sink.write(b""), Ok(0));
    assert_eq!(rt; sink.write(b"cd"), Ok(2));
    assert_eq!(rt; sink.taken(), b"abcd".as_slice());
    Ok(())
}

#[test]
fn a_disk_reads_as_it_was_written(rt: HostRuntime) -> Result<(), Fail> {
    let alloc = rt.alloc();
    let era = Era::first();
    let mut disk = MemDisk::new(alloc, &era, Vec::from_slice(alloc, b"abcdef")?);
    disk.reserve(5, 7)?;
    for (at, piece, want) in [
        (0, b"AB".as_slice(), b"ABcdef".as_slice()),
        (5, b"xyz".as_slice(), b"ABcdexyz".as_slice()),
        (8, b"!".as_slice(), b"ABcdexyz!".as_slice()),
        (3, b"".as_slice(), b"ABcdexyz!".as_slice()),
    ] {
        if at <= disk.bytes().len() {
            assert_eq!(rt; disk.write_at(&era, at as u64, piece), Ok(()), "at {at}");
        }
        assert_eq!(rt; disk.bytes(), want, "at {at}");
    }
    assert_eq!(rt; disk.sync(&era), Ok(()));
    assert_eq!(rt; disk.len(), Ok(9));
    let mut buffer = [0u8; 4];
    for (at, want) in [(0, 4), (6, 3), (9, 0), (u64::MAX, 0)] {
        assert_eq!(rt; disk.read_at(&era, at, &mut buffer), Ok(want), "from {at}");
    }
    assert_eq!(rt; buffer, [121, 122, 33, 100]);
    Ok(())
}

#[test]
fn listed_calls_fail_and_write_nothing(rt: HostRuntime) -> Result<(), Fail> {
    let alloc = rt.alloc();
    let era = Era::first();
    let mut disk = MemDisk::new(alloc, &era, Vec::from_slice(alloc, b"abc")?);
    disk.fail_at(Vec::from_slice(alloc, &[2, 3, 5])?);
    assert_eq!(rt; disk.write_at(&era, 0, b"A"), Ok(()));
    assert_eq!(rt; disk.write_at(&era, 1, b"B"), Err(Failed));
    assert_eq!(rt; disk.sync(&era), Err(Failed));
    assert_eq!(rt; disk.sync(&era), Ok(()));
    assert_eq!(rt; disk.len(), Err(Failed));
    assert_eq!(rt; disk.bytes(), b"Abc".as_slice());
    assert_eq!(rt; (disk.planned(), disk.starved()), (3, 0));
    assert_eq!(rt; (disk.bytes_read(), disk.bytes_written()), (0, 2));
    Ok(())
}

#[test]
fn a_stop_cuts_a_write_short_and_all_later_calls_fail(rt: HostRuntime) -> Result<(), Fail> {
    let alloc = rt.alloc();
    let era = Era::first();
    let mut disk = MemDisk::new(alloc, &era, Vec::from_slice(alloc, b"abc")?);
    disk.fail_at(Vec::from_slice(alloc, &[2])?);
    disk.stop_at(2, 3);
    assert_eq!(rt; disk.write_at(&era, 0, b"A"), Ok(()));
    assert_eq!(rt; disk.write_at(&era, 1, b"BCDEF"), Err(Failed));
    assert_eq!(rt; disk.sync(&era), Err(Failed));
    assert_eq!(rt; disk.read_at(&era, 0, &mut [0; 2]), Err(Failed));
    assert_eq!(rt; disk.bytes(), b"ABCD".as_slice());
    assert_eq!(rt; (disk.planned(), disk.starved()), (3, 0));
    assert_eq!(rt; (disk.bytes_read(), disk.bytes_written()), (0, 6));
    Ok(())
}

// Ten bytes, of which two are written and synced, three written over and three put behind the end, in era 1.
fn disk_to_crash(alloc: Global, era: &mut Era) -> Result<MemDisk, Fail>
    requires { era.old.number < 10 }
{
    let mut disk = MemDisk::new(alloc, era, Vec::from_slice(alloc, b"0123456789")?);
    era.next();
    disk.write_at(era, 2, b"AB")?;
    disk.sync(era)?;
    disk.write_at(era, 6, b"xyz")?;
    disk.write_at(era, 10, b"+++")?;
    Ok(disk)
}

#[test]
fn a_crash_changes_no_byte_outside_of_what_was_pending(rt: HostRuntime) -> Result<(), Fail> {
    let mut kept = false;
    let mut dropped = false;
    let mut torn = false;
    for seed in 0..40 {
        let mut era = Era::first();
        let disk = disk_to_crash(rt.alloc(), &mut era)?;
        let after = disk.crash(&era, &Choice { calls: 9, seed })?;
        let bytes = after.bytes();
        assert!(rt; bytes.len() >= 10 && bytes.len() <= 13, "seed {seed}");
        assert!(rt; bytes.starts_with(b"01AB45"), "seed {seed}");
        assert!(rt; bytes[9..].starts_with(b"9"), "seed {seed}");
        match &bytes[6..9] {
            b"xyz" => kept = true,
            b"678" => dropped = true,
            _ => torn = true,
        }
    }
    assert!(rt; kept && dropped && torn);
    Ok(())
}

#[test]
fn a_crash_falls_after_the_first_calls_of_its_era(rt: HostRuntime) -> Result<(), Fail> {
    for seed in 0..40 {
        for (calls, front, end) in [
            (0, b"0123".as_slice(), b"456789".as_slice()),
            (1, b"01".as_slice(), b"456789".as_slice()),
            (2, b"01AB".as_slice(), b"456789".as_slice()),
            (3, b"01AB45".as_slice(), b"9".as_slice()),
        ] {
            let mut era = Era::first();
            let disk = disk_to_crash(rt.alloc(), &mut era)?;
            let after = disk.crash(&era, &Choice { calls, seed })?;
            let bytes = after.bytes();
            assert!(rt; bytes.starts_with(front), "{calls} calls, seed {seed}");
            assert!(rt; bytes.ends_with(end), "{calls} calls, seed {seed}");
            assert_eq!(rt; bytes.len(), 10, "{calls} calls, seed {seed}");
        }
    }
    Ok(())
}

#[test]
fn what_was_written_and_synced_stands_in_later_eras(rt: HostRuntime) -> Result<(), Fail> {
    let alloc = rt.alloc();
    let mut era = Era::first();
    let mut disk = MemDisk::new(alloc, &era, Vec::from_slice(alloc, b"abc")?);
    write_and_sync(&mut disk, &era, 1, b"XYZ")?;
    era.next();
    let after = disk.crash(&era, &Choice { calls: 0, seed: 7 })?;
    assert_eq!(rt; after.bytes(), b"aXYZ".as_slice());
    Ok(())
}

fn pass_to_a_thread<D: Disk + Send>(_disk: D) {}

fn share<T: Sync>(_value: &T) {}

#[test]
fn disks_go_to_threads_and_eras_are_shared(rt: HostRuntime) {
    let era = Era::first();
    share(&era);
    pass_to_a_thread(MemDisk::new(rt.alloc(), &era, Vec::new(rt.alloc())));
}
