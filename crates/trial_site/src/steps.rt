//! Commands one after another.
use crate::bytes::Bytes;
use crate::commands::{Ended, command};
use crate::disks::Plan;
use site_disk::OutOfMemory;
use std::alloc::Global;
use std::thread::Threads;

/// A command, its words parted by a space, its script, and its text and status.
#[derive(Clone, Copy)]
pub struct Step<'a> {
    pub words: &'a str,
    pub script: &'a str,
    pub text: &'a str,
    pub status: &'a str,
}

/// Runs commands in order, and answers the bytes that they leave, or nothing where one of them ends otherwise.
pub fn go_on<R: Threads + Sync>(
    rt: &R,
    alloc: Global,
    bytes: &Bytes,
    steps: &[Step],
) -> Result<Option<Bytes>, OutOfMemory> {
    let mut last = bytes.copy(alloc)?;
    for step in steps {
        let script = step.script.as_bytes();
        let ended = command(rt, alloc, step.words, &last, &Plan::NONE, script)?;
        if !ended.is(step.text, step.status) {
            return Ok(None);
        }
        last = ended.bytes;
    }
    Ok(Some(last))
}

/// The same over disks that are blank at first.
pub fn run_steps<R: Threads + Sync>(
    rt: &R,
    alloc: Global,
    steps: &[Step],
) -> Result<Option<Bytes>, OutOfMemory> {
    go_on(rt, alloc, &Bytes::blank(alloc), steps)
}

/// What a command leaves that formats a blank site.
pub fn formatted<R: Threads + Sync>(
    rt: &R,
    alloc: Global,
    words: &str,
) -> Result<Bytes, OutOfMemory> {
    let blank = Bytes::blank(alloc);
    Ok(command(rt, alloc, words, &blank, &Plan::NONE, b"")?.bytes)
}

pub const INIT: Step<'static> = Step {
    words: "-init A:4",
    script: "",
    text: "space A pages 4\nok\n",
    status: "Ok",
};

/// A transaction of three records.
pub const WRITTEN: Step<'static> = Step {
    words: "-T",
    script: "begin 1\nwrite 1 A 0 0 41\ncommit 1\n",
    text: "lines 3 commits 1 end 3\nok\n",
    status: "Ok",
};

/// An empty script behind it.
pub const NOTHING: Step<'static> = Step {
    words: "-T",
    script: "",
    text: "lines 0 commits 0 end 3\nok\n",
    status: "Ok",
};
