//! Pages shown. The digests were worked out by another program.
use site_disk::OutOfMemory;
use std::alloc::Global;
use std::test::Fail;
use std::thread::Threads;
use trial_site::{Bytes, Plan, command, extend, formatted};

// A site with two spaces, over which a script is run.
fn extended<R: Threads + Sync>(rt: &R, alloc: Global, script: &str) -> Result<Bytes, OutOfMemory> {
    let site = formatted(rt, alloc, "-init A:4 B:2")?;
    Ok(extend(rt, alloc, &site, script.as_bytes())?.bytes)
}

const WRITTEN: &str = "begin 1\nwrite 1 A 0 0 41\ncommit 1\n";

// A script, the words of a show behind it, and the text.
static PAGES: [(&str, &str, &str); 7] = [
    (
        WRITTEN,
        "-D A 0",
        "page A 0 stamp 3\n0000 41000000000000000000000000000000\nok\n",
    ),
    (WRITTEN, "-D A 3", "page A 3 stamp 0\nok\n"),
    // Two transactions at once.
    (
        "begin 1\nbegin 2\nwrite 1 A 0 0 aabb\nwrite 2 A 0 1 ccdd\ncommit 2\ncommit 1\n",
        "-D A 0",
        "page A 0 stamp 6\n0000 aabbdd00000000000000000000000000\nok\n",
    ),
    // A byte at the end of a page; the other transaction isn't committed.
    (
        "begin 1\nwrite 1 A 0 4079 ff\ncommit 1\nbegin 2\nwrite 2 A 0 0 11\n",
        "-D A 0",
        "page A 0 stamp 3\n0fe0 000000000000000000000000000000ff\nok\n",
    ),
    // A page that three commits write.
    (
        "begin 1\nwrite 1 A 0 0 41\ncommit 1\nbegin 1\nwrite 1 A 0 1 42\ncommit 1\nbegin 1\nwrite 1 A 0 2 43\ncommit 1\n",
        "-D A 0",
        "page A 0 stamp 9\n0000 41424300000000000000000000000000\nok\n",
    ),
    // A commit that writes nothing into the space, between two that do.
    (
        "begin 1\nwrite 1 A 0 0 41\ncommit 1\nbegin 1\nwrite 1 B 1 0 42\ncommit 1\nbegin 1\nwrite 1 A 0 1 43\ncommit 1\n",
        "-D A 0",
        "page A 0 stamp 9\n0000 41430000000000000000000000000000\nok\n",
    ),
    (
        "begin 1\nwrite 1 A 0 0 41\ncommit 1\nbegin 1\nwrite 1 B 1 0 42\ncommit 1\nbegin 1\ncommit 1\n",
        "-D B 1",
        "page B 1 stamp 6\n0000 42000000000000000000000000000000\nok\n",
    ),
];

/// The lane goes to the end of the log at the first show, and stays there at the second.
#[test]
fn a_page_is_shown(rt: HostRuntime) -> Result<(), Fail> {
    let alloc = rt.alloc();
    for (script, words, text) in PAGES {
        let site = extended(&rt, alloc, script)?;
        let first = command(&rt, alloc, words, &site, &Plan::NONE, b"")?;
        assert!(rt; first.is(text, "Ok"), "{text}");
        let again = command(&rt, alloc, words, &first.bytes, &Plan::NONE, b"")?;
        assert!(rt; again.is(text, "Ok"), "{text}");
        assert!(rt; again.bytes == first.bytes, "{text}");
    }
    Ok(())
}

/// A lane that was brought to the end is brought further.
#[test]
fn a_page_is_shown_further_on(rt: HostRuntime) -> Result<(), Fail> {
    let alloc = rt.alloc();
    let site = extended(&rt, alloc, WRITTEN)?;
    let shown = command(&rt, alloc, "-D A", &site, &Plan::NONE, b"")?;
    let script = b"begin 1\nwrite 1 A 0 1 42\ncommit 1\n";
    let further = extend(&rt, alloc, &shown.bytes, script)?;
    assert!(rt; further.tells("lines 3 commits 1 end 6\nok\n"));
    let shown = command(&rt, alloc, "-D A 0", &further.bytes, &Plan::NONE, b"")?;
    let text = "page A 0 stamp 6\n0000 41420000000000000000000000000000\nok\n";
    assert!(rt; shown.is(text, "Ok"));
    Ok(())
}

#[test]
fn a_space_is_shown(rt: HostRuntime) -> Result<(), Fail> {
    let alloc = rt.alloc();
    for (script, text) in [
        (
            "",
            "space A pages 4 used 0 digest c9d98b3a88b8f2930869f8a2ba7115f1df59dc9826948382e7089550e65a1cf5\nok\n",
        ),
        (
            WRITTEN,
            "page A 0 stamp 3\nspace A pages 4 used 1 digest 48e4058869b202f4d55ec28427f860889c84a9df91b5b0b1e2f32521c8868b77\nok\n",
        ),
    ] {
        let site = extended(&rt, alloc, script)?;
        let shown = command(&rt, alloc, "-D A", &site, &Plan::NONE, b"")?;
        assert!(rt; shown.is(text, "Ok"), "{text}");
    }
    Ok(())
}

#[test]
fn what_a_site_does_not_have_is_refused(rt: HostRuntime) -> Result<(), Fail> {
    let alloc = rt.alloc();
    let site = extended(&rt, alloc, WRITTEN)?;
    for (words, text, status) in [
        ("-D C 9", "no such space C\n", "NoSuchSpace"),
        ("-D A 4", "no such page 4\n", "NoSuchPage(4)"),
        (
            "-D A 4294967295",
            "no such page 4294967295\n",
            "NoSuchPage(4294967295)",
        ),
    ] {
        let ended = command(&rt, alloc, words, &site, &Plan::NONE, b"")?;
        assert!(rt; ended.tells(text), "{text}");
        assert!(rt; ended.status.as_str().starts_with(status), "{text}");
    }
    Ok(())
}
