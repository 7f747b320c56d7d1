//! The log's files: where records stand, and the log full.
use site_disk::OutOfMemory;
use site_model::DiskName;
use std::alloc::{AllocError, Global};
use std::test::Fail;
use std::thread::Threads;
use trial_site::{INIT, MOMENT, NOTHING, Plan, WRITTEN, command, extend, formatted, run_steps};

/// The gates of the log's first file, whose place is the second of eight, and its slots.
const GATES: usize = 8_192 + 33_024;

const SLOTS: usize = GATES + 256;

#[test]
fn records_stand_in_the_first_file(rt: HostRuntime) -> Result<(), Fail> {
    let alloc = rt.alloc();
    let left = run_steps(&rt, alloc, &[INIT, WRITTEN, NOTHING])?.ok_or("another end")?;
    let log = left.of(DiskName::Log);
    let mut slots = [0; 3 * 128];
    slots[..8].copy_from_slice(b"\x01\0\0\0\0\0\0\x01");
    slots[128..142].copy_from_slice(b"\x02\x01\0\0\0\0\0\x01\0\0\0\0\0\0");
    slots[160] = 0x41;
    slots[256..264].copy_from_slice(b"\x03\0\0\0\0\0\0\x01");
    slots[272..280].copy_from_slice(&MOMENT.to_be_bytes());
    assert_eq!(rt; log.get(SLOTS..SLOTS + 3 * 128), Some(slots.as_slice()));
    let mut gates = [0; 256];
    gates[2] = 1;
    assert_eq!(rt; log.get(GATES..SLOTS), Some(gates.as_slice()));
    Ok(())
}

/// Transactions of three lines, each of which writes a page of four in turn.
fn transactions(alloc: Global, count: u32) -> Result<Vec<u8>, AllocError> {
    let mut script = Vec::new(alloc);
    for txn in 1..=count {
        let page = txn % 4;
        let lines = format!(in alloc; "begin {txn}\nwrite {txn} A {page} 0 41\ncommit {txn}\n")?;
        script.extend_from_slice(lines.as_bytes())?;
    }
    Ok(script)
}

/// No file is backed up, so that the ninth can't be opened: 85 batches stand in each of eight.
#[test]
fn a_full_log_keeps_what_stands(rt: HostRuntime) -> Result<(), Fail> {
    let alloc = rt.alloc();
    let site = formatted(&rt, alloc, INIT.words)?;
    let full = extend(&rt, alloc, &site, &transactions(alloc, 681)?)?;
    let text = "lines 2040 commits 680 end 2040\nlog full: file 1 not backed up\n";
    assert!(rt; full.is(text, "LogFull(NotBackedUp { file: 1 })"));
    let next = extend(&rt, alloc, &full.bytes, b"")?;
    assert!(rt; next.is("lines 0 commits 0 end 2040\nok\n", "Ok"));
    // A batch of one record has room, and a page shows the last of its commits.
    let one = extend(&rt, alloc, &next.bytes, b"begin 1\n")?;
    assert!(rt; one.is("lines 1 commits 0 end 2041\nok\n", "Ok"));
    let shown = command(&rt, alloc, "-D A 3", &one.bytes, &Plan::NONE, b"")?;
    let text = "page A 3 stamp 2037\n0000 41000000000000000000000000000000\nok\n";
    assert!(rt; shown.is(text, "Ok"));
    Ok(())
}

/// How a script ends over a log that has so many records.
fn ends_behind<R: Threads + Sync>(
    rt: &R,
    alloc: Global,
    count: u32,
    script: &[u8],
    text: &str,
) -> Result<bool, OutOfMemory> {
    let site = formatted(rt, alloc, INIT.words)?;
    let before = extend(rt, alloc, &site, &transactions(alloc, count)?)?;
    Ok(extend(rt, alloc, &before.bytes, script)?.tells(text))
}

/// A batch that its file can't take goes on whole in the next one.
#[test]
fn a_batch_stands_in_one_file(rt: HostRuntime) -> Result<(), Fail> {
    let alloc = rt.alloc();
    let script = b"begin 1\nwrite 1 A 0 0 42\ncommit 1\nbegin 2\n";
    let text = "lines 4 commits 1 end 259\nok\n";
    assert!(rt; ends_behind(&rt, alloc, 85, script, text)?);
    Ok(())
}
