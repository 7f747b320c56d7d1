//! Chunks that are lost or damaged.
use site_disk::OutOfMemory;
use site_model::DiskName;
use std::alloc::Global;
use std::test::Fail;
use std::thread::Threads;
use trial_site::{Bytes, Plan, command, extend, formatted};

/// A site with two spaces, both shown at the end of the log.
fn shown_site<R: Threads + Sync>(rt: &R, alloc: Global) -> Result<Bytes, OutOfMemory> {
    let mut site = formatted(rt, alloc, "-init A:4 B:2")?;
    let script = b"begin 1\nwrite 1 A 0 0 41\nwrite 1 B 0 0 42\ncommit 1\n";
    site = extend(rt, alloc, &site, script)?.bytes;
    site = command(rt, alloc, "-D A", &site, &Plan::NONE, b"")?.bytes;
    Ok(command(rt, alloc, "-D B", &site, &Plan::NONE, b"")?.bytes)
}

const LOST_A: &str = "chunk of A lost\n";

const LOST_B: &str = "chunk of B lost\n";

const BAD_MARK: &str = "bad record in chunk00 at slot 4294967295\n";

const EMPTY_SCRIPT: &str = "lines 0 commits 0 end 4\nok\n";

const PAGE_41: &str = "page A 0 stamp 4\n0000 41000000000000000000000000000000\nok\n";

// A place of the first chunk and bytes there, and the texts of an empty script and of its first page.
static DAMAGES: [(usize, &[u8], &str, &str); 9] = [
    (0, &[0], LOST_A, LOST_A),
    (4, &[5], LOST_A, LOST_A),
    // Another space, another site, another count of pages.
    (7, &[1], LOST_A, LOST_A),
    (15, &[9], LOST_A, LOST_A),
    (19, &[5], LOST_A, LOST_A),
    // No slot of the mark is valid.
    (4_096, &[0, 0], BAD_MARK, BAD_MARK),
    // Pages of another number, of another space.
    (
        77_839,
        &[1],
        EMPTY_SCRIPT,
        "bad record in chunk00 at slot 0\n",
    ),
    (
        77_833,
        &[1],
        EMPTY_SCRIPT,
        "bad record in chunk00 at slot 0\n",
    ),
    (81_935, &[0], EMPTY_SCRIPT, PAGE_41),
];

/// What a script and the show of a page print, and whether they leave these disks as they are.
fn print<R: Threads + Sync>(
    rt: &R,
    alloc: Global,
    bytes: &Bytes,
    script_text: &str,
    page_text: &str,
) -> Result<bool, OutOfMemory> {
    let script = extend(rt, alloc, bytes, b"")?;
    let page = command(rt, alloc, "-D A 0", bytes, &Plan::NONE, b"")?;
    Ok(
        script.tells(script_text)
            && page.tells(page_text)
            && script.bytes == *bytes
            && page.bytes == *bytes,
    )
}

#[test]
fn a_damaged_chunk_is_told(rt: HostRuntime) -> Result<(), Fail> {
    let alloc = rt.alloc();
    let site = shown_site(&rt, alloc)?;
    for (at, piece, script, page) in DAMAGES {
        let damaged = site.with(alloc, DiskName::Chunk(0), at, piece)?;
        assert!(rt; print(&rt, alloc, &damaged, script, page)?, "at {at}");
    }
    Ok(())
}

// Where the first chunk ends, and the same texts.
static ENDS: [(usize, &str, &str); 5] = [
    (0, LOST_A, LOST_A),
    (4_095, LOST_A, LOST_A),
    (4_200, BAD_MARK, BAD_MARK),
    (81_919, EMPTY_SCRIPT, "bad record in chunk00 at slot 0\n"),
    (81_920, EMPTY_SCRIPT, PAGE_41),
];

#[test]
fn a_short_chunk_is_told(rt: HostRuntime) -> Result<(), Fail> {
    let alloc = rt.alloc();
    let site = shown_site(&rt, alloc)?;
    for (len, script, page) in ENDS {
        let front = site.of(DiskName::Chunk(0)).get(..len).ok_or("a front")?;
        let damaged = site.with_disk(alloc, DiskName::Chunk(0), front)?;
        assert!(rt; print(&rt, alloc, &damaged, script, page)?, "at {len}");
    }
    Ok(())
}

/// A script needs all chunks, and a space its own alone. The lowest lost one is named, before a bad mark.
#[test]
fn a_lost_chunk_is_named(rt: HostRuntime) -> Result<(), Fail> {
    let alloc = rt.alloc();
    let site = shown_site(&rt, alloc)?;
    let lost = site.with_disk(alloc, DiskName::Chunk(1), b"")?;
    let both = lost.with(alloc, DiskName::Chunk(0), 4_096, &[0, 0])?;
    for (bytes, words, text) in [
        (&lost, "-D A 0", PAGE_41),
        (&lost, "-D B 0", LOST_B),
        (&lost, "-T", LOST_B),
        (&both, "-T", LOST_B),
        (&both, "-D A 0", BAD_MARK),
    ] {
        let ended = command(&rt, alloc, words, bytes, &Plan::NONE, b"begin 1\n")?;
        assert!(rt; ended.tells(text), "{words}");
        assert!(rt; ended.bytes == *bytes, "{words}");
    }
    Ok(())
}
