//! Logs that are refused at a place.
use site_model::DiskName;
use std::alloc::Global;
use std::test::Fail;
use trial_site::{Bytes, INIT, WRITTEN, extend, formatted, run_steps};

/// Where the slots of the log's first file begin.
const SLOTS: usize = 8_192 + 33_024 + 256;

// A Begin, a Write and a Commit are the slots of the log; here a slot for each letter stands in their place: a record by its
// initial, and `0` for zero bytes.
fn slots_of(alloc: Global, log: &[u8], letters: &str) -> Result<Vec<u8>, Fail> {
    let mut slots = Vec::new(alloc);
    for letter in letters.bytes() {
        let at = match letter {
            b'b' => SLOTS,
            b'w' => SLOTS + 128,
            b'c' => SLOTS + 256,
            _ => 8_192,
        };
        slots.extend_from_slice(log.get(at..at + 128).ok_or("a slot")?)?;
    }
    Ok(slots)
}

// The slots, and what the next command prints. Records of a transaction that isn't open are passed over, and a slot that
// can't be read is told before a Begin that isn't allowed.
static SLOT_ROWS: [(&str, &str); 7] = [
    ("bwc", "lines 0 commits 0 end 3\nok\n"),
    ("cwc", "lines 0 commits 0 end 3\nok\n"),
    ("bcw", "lines 0 commits 0 end 3\nok\n"),
    ("bbc", "bad record in log at slot 257\n"),
    ("wbb", "bad record in log at slot 258\n"),
    ("bb0", "bad record in log at slot 258\n"),
    ("0bb", "bad record in log at slot 256\n"),
];

#[test]
fn the_place_of_a_bad_record_is_told(rt: HostRuntime) -> Result<(), Fail> {
    let alloc = rt.alloc();
    let whole = run_steps(&rt, alloc, &[INIT, WRITTEN])?.ok_or("another end")?;
    for (letters, text) in SLOT_ROWS {
        let slots = slots_of(alloc, whole.of(DiskName::Log), letters)?;
        let damaged = whole.with(alloc, DiskName::Log, SLOTS, &slots)?;
        let ended = extend(&rt, alloc, &damaged, b"")?;
        assert!(rt; ended.tells(text), "{letters}");
        assert!(rt; ended.bytes == damaged, "{letters}");
    }
    Ok(())
}

// Where the log's disk ends, and what the next command prints.
static ENDS: [(usize, &str); 7] = [
    (0, "log lost\n"),
    (4_095, "log lost\n"),
    (5_000, "bad record in log at slot 4294967295\n"),
    (SLOTS - 254, "bad record in log at slot 4294967295\n"),
    (SLOTS, "bad record in log at slot 256\n"),
    (SLOTS + 129, "bad record in log at slot 257\n"),
    (SLOTS + 384, "lines 0 commits 0 end 3\nok\n"),
];

#[test]
fn a_log_that_ends_early_is_told(rt: HostRuntime) -> Result<(), Fail> {
    let alloc = rt.alloc();
    let whole = run_steps(&rt, alloc, &[INIT, WRITTEN])?.ok_or("another end")?;
    for (len, text) in ENDS {
        let front = whole.of(DiskName::Log).get(..len).ok_or("a front")?;
        let damaged = whole.with_disk(alloc, DiskName::Log, front)?;
        let ended = extend(&rt, alloc, &damaged, b"")?;
        assert!(rt; ended.tells(text), "{len}");
        assert!(rt; ended.bytes == damaged, "{len}");
    }
    Ok(())
}

/// The same disks, with the log of another one.
fn with_log_of(alloc: Global, site: &Bytes, other: &Bytes) -> Result<Bytes, Fail> {
    Ok(site.with_disk(alloc, DiskName::Log, other.of(DiskName::Log))?)
}

/// Records that the site can't have are passed over: a log with another site's records under the right header.
#[test]
fn records_of_other_spaces_are_passed_over(rt: HostRuntime) -> Result<(), Fail> {
    let alloc = rt.alloc();
    let larger = formatted(&rt, alloc, "-init A:9 B:4")?;
    let script = b"begin 1\nwrite 1 B 0 0 41\nwrite 1 A 8 0 41\ncommit 1\n";
    let larger = extend(&rt, alloc, &larger, script)?.bytes;
    let site = formatted(&rt, alloc, INIT.words)?;
    let mixed = with_log_of(alloc, &site, &larger)?;
    let ended = extend(&rt, alloc, &mixed, b"")?;
    assert!(rt; ended.is("lines 0 commits 0 end 4\nok\n", "Ok"));
    Ok(())
}
