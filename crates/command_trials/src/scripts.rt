//! Scripts of transactions: their texts, and what stands behind them.
use std::alloc::{AllocError, Global};
use std::test::Fail;
use trial_site::{INIT, Step, begins, extend, formatted, run_steps};

#[test]
fn two_transactions_are_open(rt: HostRuntime) -> Result<(), Fail> {
    let alloc = rt.alloc();
    let both = Step {
        words: "-T",
        script: "begin 1\nbegin 2\nwrite 1 A 0 0 aabb\nwrite 2 A 0 1 ccdd\ncommit 2\ncommit 1\n",
        text: "lines 6 commits 2 end 6\nok\n",
        status: "Ok",
    };
    assert!(rt; run_steps(&rt, alloc, &[INIT, both])?.is_some());
    Ok(())
}

#[test]
fn a_script_goes_on_with_what_stands(rt: HostRuntime) -> Result<(), Fail> {
    let alloc = rt.alloc();
    let begun = Step {
        words: "-T",
        script: "begin 1\nwrite 1 A 0 4079 ff\nwrite 1 A 0 4079 ffff\n",
        text: "lines 2 commits 0 end 2\nscript fault at line 3: range\n",
        status: "ScriptFault { line: 3, why: Range }",
    };
    let ended = Step {
        words: "-T",
        script: "commit 1\n",
        text: "lines 1 commits 1 end 3\nok\n",
        status: "Ok",
    };
    assert!(rt; run_steps(&rt, alloc, &[INIT, begun, ended])?.is_some());
    Ok(())
}

// The second line of a script, and why it is refused.
static REASONS: [(&str, &str); 10] = [
    ("write 2 B 4 4080 4", "words"),
    ("write 2 B 4 4080 41", "no space"),
    ("write 2 A 4 4080 41", "no page"),
    ("write 2 A 3 4080 41", "range"),
    ("write 2 A 3 4079 41", "not open"),
    ("commit 2", "not open"),
    ("abort 2", "not open"),
    ("begin 1", "already open"),
    ("begin 0", "words"),
    ("abort  1", "words"),
];

/// The first line stands, and the second is refused or the last.
#[test]
fn the_first_reason_is_told(rt: HostRuntime) -> Result<(), Fail> {
    let alloc = rt.alloc();
    let site = formatted(&rt, alloc, INIT.words)?;
    for (line, why) in REASONS {
        let script = format!(in alloc; "begin 1\n{line}")?;
        let ended = extend(&rt, alloc, &site, script.as_bytes())?;
        let want = format!(in alloc; "lines 1 commits 0 end 1\nscript fault at line 2: {why}\n")?;
        assert!(rt; ended.tells(want.as_str()), "{line}");
    }
    Ok(())
}

// A script, its text, and its status.
static ENDS: [(&str, &str, &str); 4] = [
    ("", "lines 0 commits 0 end 0\nok\n", "Ok"),
    ("begin 1\nabort 1", "lines 2 commits 0 end 2\nok\n", "Ok"),
    (
        "\nbegin 1\n\ncommit 1\ncommit 1\nbegin 2\n",
        "lines 2 commits 1 end 2\nscript fault at line 5: not open\n",
        "ScriptFault { line: 5, why: NotOpen }",
    ),
    (
        "begin 1\nabort 1\nbegin 1\nbegin 1",
        "lines 3 commits 0 end 3\nscript fault at line 4: already open\n",
        "ScriptFault { line: 4, why: AlreadyOpen }",
    ),
];

#[test]
fn the_place_of_a_fault_is_told(rt: HostRuntime) -> Result<(), Fail> {
    let alloc = rt.alloc();
    let site = formatted(&rt, alloc, INIT.words)?;
    for (script, text, status) in ENDS {
        let ended = extend(&rt, alloc, &site, script.as_bytes())?;
        assert!(rt; ended.is(text, status), "{script}");
    }
    Ok(())
}

/// A script whose second line is this front, and so many digits.
fn long_line(alloc: Global, front: &str, digits: usize) -> Result<Vec<u8>, AllocError> {
    let mut script = Vec::from_slice(alloc, b"begin 1\n")?;
    script.extend_from_slice(front.as_bytes())?;
    for _ in 0..digits {
        script.push(b'4')?;
    }
    Ok(script)
}

// The front of a line, its digits, and the text.
static LONG_LINES: [(&str, usize, &str); 4] = [
    ("write 1 A 0 0 ", 128, "lines 2 commits 0 end 2\nok\n"),
    (
        "write 1 A 0 0 ",
        130,
        "lines 1 commits 0 end 1\nscript fault at line 2: words\n",
    ),
    (
        "",
        8_256,
        "lines 1 commits 0 end 1\nscript fault at line 2: words\n",
    ),
    (
        "",
        8_257,
        "lines 1 commits 0 end 1\nscript fault at line 2: line too long\n",
    ),
];

#[test]
fn the_longest_line_is_taken(rt: HostRuntime) -> Result<(), Fail> {
    let alloc = rt.alloc();
    let site = formatted(&rt, alloc, INIT.words)?;
    for (front, digits, text) in LONG_LINES {
        let script = long_line(alloc, front, digits)?;
        let ended = extend(&rt, alloc, &site, &script)?;
        assert!(rt; ended.tells(text), "{digits}");
    }
    Ok(())
}

// What follows 64 Begins, and the text.
static BEHIND_64: [(&str, &str); 5] = [
    ("", "lines 64 commits 0 end 64\nok\n"),
    (
        "begin 65",
        "lines 64 commits 0 end 64\nscript fault at line 65: too many open\n",
    ),
    (
        "begin 64",
        "lines 64 commits 0 end 64\nscript fault at line 65: already open\n",
    ),
    (
        "commit 65",
        "lines 64 commits 0 end 64\nscript fault at line 65: not open\n",
    ),
    ("abort 64\nbegin 65", "lines 66 commits 0 end 66\nok\n"),
];

#[test]
fn no_more_than_64_transactions_are_open(rt: HostRuntime) -> Result<(), Fail> {
    let alloc = rt.alloc();
    let site = formatted(&rt, alloc, INIT.words)?;
    for (line, text) in BEHIND_64 {
        let mut script = begins(alloc, 64)?;
        script.extend_from_slice(line.as_bytes())?;
        let ended = extend(&rt, alloc, &site, &script)?;
        assert!(rt; ended.tells(text), "{line}");
    }
    Ok(())
}
