//! A log whose disk fails or stops while a script extends it.
use site_disk::OutOfMemory;
use site_model::DiskName;
use std::alloc::Global;
use std::test::Fail;
use std::thread::Threads;
use trial_site::{Bytes, Ended, INIT, Plan, Trouble, begins, command, end_of, extend, formatted};

/// The calls of the log: six until it is open, and for each of two batches the length, the batch, a sync, the gate and a sync.
const CALLS: u64 = 16;

/// Runs a script over a site whose log fails.
fn troubled<R: Threads + Sync>(
    rt: &R,
    alloc: Global,
    site: &Bytes,
    trouble: Trouble,
    crash: Option<u64>,
    script: &[u8],
) -> Result<Ended, OutOfMemory> {
    let troubles = [(DiskName::Log, trouble)];
    let plan = Plan {
        troubles: &troubles,
        crash,
    };
    command(rt, alloc, "-T", site, &plan, script)
}

#[test]
fn a_call_that_fails_leaves_whole_batches(rt: HostRuntime) -> Result<(), Fail> {
    let alloc = rt.alloc();
    let site = formatted(&rt, alloc, INIT.words)?;
    let script = begins(alloc, 40)?;
    for call in 1..=CALLS + 1 {
        let ended = troubled(&rt, alloc, &site, Trouble::Fails(call), None, &script)?;
        if call > CALLS {
            assert!(rt;
                ended.is("lines 40 commits 0 end 40\nok\n", "Ok"),
                "at {call}"
            );
        } else {
            assert!(rt; ended.is("", "DiskFault(Log)"), "at {call}");
        }
        // The gate stands where only the sync behind it fails.
        let want = match call {
            0..11 => 0,
            11..16 => 32,
            _ => 40,
        };
        let end = end_of(&rt, alloc, &ended.bytes)?;
        assert_eq!(rt; end, Some(want), "at {call}");
    }
    Ok(())
}

/// Runs a script over a log that stops and crashes, and answers where it ends then.
fn end_of_stopped<R: Threads + Sync>(
    rt: &R,
    alloc: Global,
    site: &Bytes,
    script: &[u8],
    trouble: Trouble,
    seed: u64,
) -> Result<u64, Fail> {
    let left = troubled(rt, alloc, site, trouble, Some(seed), script)?;
    let end = end_of(rt, alloc, &left.bytes)?;
    Ok(end.ok_or("another end")?)
}

/// Where a log may end whose disk stopped at a call. The gates are the calls 10 and 15.
fn ends_at(call: u64) -> (u64, u64) {
    match call {
        0..10 => (0, 0),
        10..12 => (0, 32),
        12..15 => (32, 32),
        15..17 => (32, 40),
        _ => (40, 40),
    }
}

#[test]
fn a_stop_and_a_crash_leave_whole_batches(rt: HostRuntime) -> Result<(), Fail> {
    let alloc = rt.alloc();
    let site = formatted(&rt, alloc, INIT.words)?;
    let script = begins(alloc, 40)?;
    let mut found = [false; 3];
    for call in 6..=CALLS + 1 {
        let (least, most) = ends_at(call);
        for seed in 0..8 {
            let trouble = Trouble::Stops(call, 1);
            let end = end_of_stopped(&rt, alloc, &site, &script, trouble, seed)?;
            assert!(rt; end == least || end == most, "{end} at {call}, {seed}");
            found[0] |= call == 11 && end == 0;
            found[1] |= call == 11 && end == 32;
            found[2] |= call == 16 && end == 40;
        }
    }
    assert_eq!(rt; found, [true; 3]);
    Ok(())
}

/// The last sync fails with the gate written: nothing is printed, and the next command finds the records.
#[test]
fn a_last_sync_that_fails_is_told(rt: HostRuntime) -> Result<(), Fail> {
    let alloc = rt.alloc();
    let site = formatted(&rt, alloc, INIT.words)?;
    let script = b"begin 1\nwrite 1 A 0 0 41\ncommit 1\n";
    let ended = troubled(&rt, alloc, &site, Trouble::Fails(11), None, script)?;
    assert!(rt; ended.is("", "DiskFault(Log)"));
    let next = extend(&rt, alloc, &ended.bytes, b"")?;
    assert!(rt; next.is("lines 0 commits 0 end 3\nok\n", "Ok"));
    Ok(())
}

/// A disk that fails is named.
#[test]
fn each_disk_that_fails_is_named(rt: HostRuntime) -> Result<(), Fail> {
    let alloc = rt.alloc();
    let site = formatted(&rt, alloc, INIT.words)?;
    for (name, status) in [
        (DiskName::Cat, "DiskFault(Cat)"),
        (DiskName::Spare, "DiskFault(Spare)"),
        (DiskName::Boot, "DiskFault(Boot)"),
        (DiskName::Volume(16), "DiskFault(Volume(16))"),
        (DiskName::Chunk(0), "DiskFault(Chunk(0))"),
    ] {
        let troubles = [(name, Trouble::Fails(1))];
        let plan = Plan {
            troubles: &troubles,
            crash: None,
        };
        let ended = command(&rt, alloc, "-T", &site, &plan, b"begin 1\n")?;
        assert!(rt; ended.is("", status), "{status}");
        assert!(rt; ended.bytes == site, "{status}");
    }
    Ok(())
}
