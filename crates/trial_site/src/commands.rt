//! Commands over the disks of the site. What a command leaves is bytes alone, so that a trial owns no disk.
ghost use Rattle.std.specs.Prelude.{◌<◌, length, IfOk};

use crate::bytes::Bytes;
use crate::disks::{MOMENT, Plan, leave, site_of};
use onbar_command::onbar;
use site_disk::{Era, MemSink, MemSource, OutOfMemory, Sink, Source};
use std::alloc::{AllocError, Global};
use std::thread::Threads;

// The words that stand parted by a space, 99 of them at most.
fn spell(alloc: Global, words: &str) -> Result<Vec<String>, AllocError>
    ensures { IfOk result (λ spelled. length spelled.items < 100) }
{
    let mut spelled = Vec::new(alloc);
    if !words.is_empty() {
        for word in words.split(' ') {
            spelled.push(String::from_str(alloc, word)?)?;
        }
    }
    spelled.truncate(99);
    Ok(spelled)
}

/// A command that has ended: its status, as it is shown, what it printed, and the bytes that its disks have.
#[derive(Drop)]
pub struct Ended {
    pub status: String,
    pub text: Vec<u8>,
    pub bytes: Bytes,
    /// Whether no byte of a disk was read or written, and no call of one failed by plan.
    pub is_untouched: bool,
}

impl Ended {
    /// Whether it printed this text and has this status.
    pub fn is(&self, text: &str, status: &str) -> bool {
        self.tells(text) && self.status.as_str() == status
    }

    /// Whether it printed this text.
    pub fn tells(&self, text: &str) -> bool {
        self.text.as_slice() == text.as_bytes()
    }
}

/// Runs a command whose words are parted by a space, and leaves its text to the sink.
pub fn run<R: Threads + Sync, S: Source, K: Sink>(
    rt: &R,
    alloc: Global,
    words: &str,
    bytes: &Bytes,
    plan: &Plan<'_>,
    script: &mut S,
    out: &mut K,
) -> Result<Ended, OutOfMemory> {
    let words = spell(alloc, words)?;
    let mut era = Era::first();
    let mut site = site_of(alloc, &era, bytes, plan)?;
    let status = onbar(rt, alloc, &words, &mut site, &mut era, script, out, MOMENT);
    let (bytes, is_touched) = leave(alloc, site, &era, plan.crash)?;
    Ok(Ended {
        status: format!(in alloc; "{status:?}")?,
        text: Vec::new(alloc),
        bytes,
        is_untouched: !is_touched,
    })
}

/// Runs a command with a script, and takes what it prints.
pub fn command<R: Threads + Sync>(
    rt: &R,
    alloc: Global,
    words: &str,
    bytes: &Bytes,
    plan: &Plan<'_>,
    script: &[u8],
) -> Result<Ended, OutOfMemory> {
    let script = Vec::from_slice(alloc, script)?;
    let mut source = MemSource::new(alloc, script, Vec::new(alloc));
    let mut sink = MemSink::new(alloc, Vec::new(alloc));
    let mut ended = run(rt, alloc, words, bytes, plan, &mut source, &mut sink)?;
    ended.text.extend_from_slice(sink.taken())?;
    Ok(ended)
}

/// Runs `-T` with a script over disks that don't fail.
pub fn extend<R: Threads + Sync>(
    rt: &R,
    alloc: Global,
    bytes: &Bytes,
    script: &[u8],
) -> Result<Ended, OutOfMemory> {
    command(rt, alloc, "-T", bytes, &Plan::NONE, script)
}

/// Where the log ends, as the command tells it whose script is empty.
pub fn end_of<R: Threads + Sync>(
    rt: &R,
    alloc: Global,
    bytes: &Bytes,
) -> Result<Option<u64>, OutOfMemory> {
    let ended = extend(rt, alloc, bytes, b"")?;
    Ok(end_told(&ended.text))
}

// The end that the text of an empty script tells.
fn end_told(text: &[u8]) -> Option<u64> {
    let text = std::str::from_utf8(text).ok()?;
    let end = text.strip_prefix("lines 0 commits 0 end ")?;
    end.strip_suffix("\nok\n")?.parse::<u64>().ok()
}

/// A script of this many Begins.
pub fn begins(alloc: Global, count: u64) -> Result<Vec<u8>, AllocError> {
    let mut script = Vec::new(alloc);
    for txn in 1..=count {
        let line = format!(in alloc; "begin {txn}\n")?;
        script.extend_from_slice(line.as_bytes())?;
    }
    Ok(script)
}
