//! A lane that is stopped on its way to the end of the log, in steps of 16 pages.
use site_disk::OutOfMemory;
use site_model::DiskName;
use std::alloc::{AllocError, Global};
use std::test::Fail;
use std::thread::Threads;
use trial_site::{Bytes, Ended, Plan, Trouble, command, extend, formatted};

/// A transaction that writes all of 40 pages.
fn forty_writes(alloc: Global) -> Result<Vec<u8>, AllocError> {
    let mut script = Vec::from_slice(alloc, b"begin 1\n")?;
    for page in 0..40 {
        let line = format!(in alloc; "write 1 A {page} 0 41\n")?;
        script.extend_from_slice(line.as_bytes())?;
    }
    script.extend_from_slice(b"commit 1\n")?;
    Ok(script)
}

/// A site with that transaction in its log, and all pages of its chunk empty.
fn written_site<R: Threads + Sync>(rt: &R, alloc: Global) -> Result<Bytes, OutOfMemory> {
    let site = formatted(rt, alloc, "-init A:40")?;
    Ok(extend(rt, alloc, &site, &forty_writes(alloc)?)?.bytes)
}

/// Whether a command showed 40 pages with stamp 42.
fn shows_all(alloc: Global, ended: &Ended) -> Result<bool, AllocError> {
    let mut want = Vec::new(alloc);
    for page in 0..40 {
        let line = format!(in alloc; "page A {page} stamp 42\n")?;
        want.extend_from_slice(line.as_bytes())?;
    }
    want.extend_from_slice(b"space A pages 40 used 40 digest ")?;
    Ok(ended.status.as_str() == "Ok" && ended.text.starts_with(&want))
}

/// Shows the space with a chunk that stops, and crashes where a seed is given.
fn stopped<R: Threads + Sync>(
    rt: &R,
    alloc: Global,
    site: &Bytes,
    trouble: Trouble,
    crash: Option<u64>,
) -> Result<Ended, OutOfMemory> {
    let troubles = [(DiskName::Chunk(0), trouble)];
    let plan = Plan {
        troubles: &troubles,
        crash,
    };
    command(rt, alloc, "-D A", site, &plan, b"")
}

/// The write of the 17th page is the chunk's call 94. The mark stands behind the first 16 Writes, and the pages behind
/// those are put back.
#[test]
fn a_stop_within_the_17th_page(rt: HostRuntime) -> Result<(), Fail> {
    let alloc = rt.alloc();
    let site = written_site(&rt, alloc)?;
    let cut = stopped(&rt, alloc, &site, Trouble::Stops(94, 2_048), None)?;
    assert!(rt; cut.is("", "DiskFault(Chunk(0))"));
    let chunk = cut.bytes.of(DiskName::Chunk(0));
    // The gates, and the place in the newer slot: position 0, and the Writes laid of the commit behind it.
    assert_eq!(rt; chunk.get(4_096..4_098), Some([1, 1].as_slice()));
    assert_eq!(rt;
        chunk.get(4_625..4_637),
        Some([0, 0, 0, 0, 0, 0, 0, 0, 0, 0, 0, 16].as_slice())
    );
    // A front of the 17th page.
    let page = 77_824 + 16 * 4_096;
    assert_eq!(rt;
        chunk.get(page..page + 8),
        Some([0, 0, 0, 0, 0, 0, 0, 42].as_slice())
    );
    let next = command(&rt, alloc, "-D A", &cut.bytes, &Plan::NONE, b"")?;
    assert!(rt; shows_all(alloc, &next)?);
    Ok(())
}

/// The 16 pages of the second step are written at every other call from 94 on. Whatever a crash leaves of one of them, by a seed of its own, the
/// mark stands before the step, and what was kept is put back.
#[test]
fn a_stop_within_each_page_of_a_step(rt: HostRuntime) -> Result<(), Fail> {
    let alloc = rt.alloc();
    let site = written_site(&rt, alloc)?;
    for call in (94..=124).step_by(2) {
        let left = stopped(
            &rt,
            alloc,
            &site,
            Trouble::Stops(call, 33 * call as usize),
            Some(call),
        )?;
        assert!(rt; left.is("", "DiskFault(Chunk(0))"), "call {call}");
        let chunk = left.bytes.of(DiskName::Chunk(0));
        assert_eq!(rt;
            chunk.get(4_625..4_637),
            Some([0, 0, 0, 0, 0, 0, 0, 0, 0, 0, 0, 16].as_slice()),
            "call {call}"
        );
        let next = command(&rt, alloc, "-D A", &left.bytes, &Plan::NONE, b"")?;
        assert!(rt; shows_all(alloc, &next)?, "call {call}");
    }
    Ok(())
}

/// The chunk's calls are 215, some of them reads of the pages that are shown.
#[test]
fn a_stop_anywhere_is_made_good(rt: HostRuntime) -> Result<(), Fail> {
    let alloc = rt.alloc();
    let site = written_site(&rt, alloc)?;
    for call in (1..=217).step_by(6) {
        let left = stopped(&rt, alloc, &site, Trouble::Stops(call, 900), Some(call))?;
        assert!(rt;
            (left.status.as_str() == "Ok") == (call > 215),
            "call {call}"
        );
        let next = command(&rt, alloc, "-D A", &left.bytes, &Plan::NONE, b"")?;
        assert!(rt; shows_all(alloc, &next)?, "call {call}");
    }
    Ok(())
}

/// A script puts back what was kept of a step that was stopped, and the show behind it is whole.
#[test]
fn a_script_behind_a_stop_is_shown(rt: HostRuntime) -> Result<(), Fail> {
    let alloc = rt.alloc();
    let site = written_site(&rt, alloc)?;
    let script = b"begin 1\nwrite 1 A 39 0 42\ncommit 1\n";
    for call in [31, 61, 65, 67, 94, 129, 131, 173] {
        let left = stopped(&rt, alloc, &site, Trouble::Stops(call, 900), Some(call))?;
        let more = extend(&rt, alloc, &left.bytes, script)?;
        assert!(rt; more.tells("lines 3 commits 1 end 45\nok\n"), "call {call}");
        for (words, text) in [
            (
                "-D A 38",
                "page A 38 stamp 42\n0000 41000000000000000000000000000000\nok\n",
            ),
            (
                "-D A 39",
                "page A 39 stamp 45\n0000 42000000000000000000000000000000\nok\n",
            ),
        ] {
            let shown = command(&rt, alloc, words, &more.bytes, &Plan::NONE, b"")?;
            assert!(rt; shown.is(text, "Ok"), "{words} at call {call}");
        }
    }
    Ok(())
}
