//! A byte of a disk is another: what a script and a page are refused for.
use site_disk::OutOfMemory;
use site_model::DiskName;
use std::alloc::Global;
use std::test::Fail;
use std::thread::Threads;
use trial_site::{Bytes, INIT, Plan, WRITTEN, command, extend, run_steps};

// A disk, a place on it and a byte there, and the text.
static DAMAGES: [(DiskName, usize, u8, &str); 18] = [
    (DiskName::Cat, 0, 0, "not formatted\n"),
    (DiskName::Cat, 4, 4, "not formatted\n"),
    (
        DiskName::Cat,
        4_096,
        0,
        "bad record in cat at slot 4294967295\n",
    ),
    (DiskName::Cat, 8_194, 1, "bad record in cat at slot 0\n"),
    (
        DiskName::Spare,
        0,
        0,
        "bad record in spare at slot 4294967295\n",
    ),
    (
        DiskName::Spare,
        15,
        9,
        "bad record in spare at slot 4294967295\n",
    ),
    (
        DiskName::Boot,
        0,
        0,
        "bad record in boot at slot 4294967295\n",
    ),
    (
        DiskName::Boot,
        4_096,
        0,
        "bad record in boot at slot 4294967295\n",
    ),
    (DiskName::Boot, 8_195, 1, "bad record in boot at slot 0\n"),
    (
        DiskName::Volume(3),
        0,
        0,
        "bad record in vol03 at slot 4294967295\n",
    ),
    (
        DiskName::Volume(16),
        7,
        1,
        "bad record in vol16 at slot 4294967295\n",
    ),
    (DiskName::Log, 0, 0, "log lost\n"),
    (DiskName::Log, 15, 9, "log lost\n"),
    (
        DiskName::Log,
        4_096,
        0,
        "bad record in log at slot 4294967295\n",
    ),
    (DiskName::Log, 41_600, 9, "bad record in log at slot 257\n"),
    (DiskName::Log, 0, 7, "lines 0 commits 0 end 3\nok\n"),
    (DiskName::Log, 41_218, 0, "lines 0 commits 0 end 0\nok\n"),
    (
        DiskName::Volume(3),
        5_000,
        7,
        "lines 0 commits 0 end 3\nok\n",
    ),
];

#[test]
fn a_damaged_place_is_told(rt: HostRuntime) -> Result<(), Fail> {
    let alloc = rt.alloc();
    let whole = run_steps(&rt, alloc, &[INIT, WRITTEN])?.ok_or("another end")?;
    for (name, at, byte, text) in DAMAGES {
        let damaged = whole.with(alloc, name, at, &[byte])?;
        let ended = extend(&rt, alloc, &damaged, b"")?;
        assert!(rt; ended.tells(text), "{byte} at {at} of {name}");
        assert!(rt; ended.bytes == damaged, "{byte} at {at} of {name}");
    }
    Ok(())
}

/// Whether a script and a page are refused with this text where the headers of two disks are closed.
fn is_told<R: Threads + Sync>(
    rt: &R,
    alloc: Global,
    whole: &Bytes,
    one: DiskName,
    other: DiskName,
    text: &str,
) -> Result<bool, OutOfMemory> {
    let damaged = whole
        .with(alloc, one, 0, &[0])?
        .with(alloc, other, 0, &[0])?;
    let script = extend(rt, alloc, &damaged, b"begin 1\n")?;
    let page = command(rt, alloc, "-D A 0", &damaged, &Plan::NONE, b"")?;
    Ok(script.tells(text) && page.tells(text) && script.bytes == damaged && page.bytes == damaged)
}

/// Catalogue, spare disk, boot file, volumes, log: the first that isn't as it should be is named.
#[test]
fn the_first_disk_is_named(rt: HostRuntime) -> Result<(), Fail> {
    let alloc = rt.alloc();
    let whole = run_steps(&rt, alloc, &[INIT, WRITTEN])?.ok_or("another end")?;
    for (one, other, text) in [
        (DiskName::Spare, DiskName::Cat, "not formatted\n"),
        (
            DiskName::Boot,
            DiskName::Spare,
            "bad record in spare at slot 4294967295\n",
        ),
        (
            DiskName::Volume(0),
            DiskName::Boot,
            "bad record in boot at slot 4294967295\n",
        ),
        (
            DiskName::Volume(7),
            DiskName::Volume(6),
            "bad record in vol06 at slot 4294967295\n",
        ),
        (
            DiskName::Log,
            DiskName::Volume(16),
            "bad record in vol16 at slot 4294967295\n",
        ),
        (DiskName::Chunk(0), DiskName::Log, "log lost\n"),
    ] {
        assert!(rt; is_told(&rt, alloc, &whole, one, other, text)?, "{text}");
    }
    Ok(())
}

/// What the words ask for comes before the log, and behind the volumes.
#[test]
fn a_space_is_looked_for_before_the_log(rt: HostRuntime) -> Result<(), Fail> {
    let alloc = rt.alloc();
    let whole = run_steps(&rt, alloc, &[INIT, WRITTEN])?.ok_or("another end")?;
    for (name, words, text) in [
        (DiskName::Log, "-D C", "no such space C\n"),
        (DiskName::Log, "-D A 9", "no such page 9\n"),
        (DiskName::Log, "-D A", "log lost\n"),
        (
            DiskName::Boot,
            "-D C",
            "bad record in boot at slot 4294967295\n",
        ),
        (
            DiskName::Volume(2),
            "-D C",
            "bad record in vol02 at slot 4294967295\n",
        ),
    ] {
        let damaged = whole.with(alloc, name, 0, &[0])?;
        let ended = command(&rt, alloc, words, &damaged, &Plan::NONE, b"")?;
        assert!(rt; ended.tells(text), "{words}");
        assert!(rt; ended.bytes == damaged, "{words}");
    }
    Ok(())
}
