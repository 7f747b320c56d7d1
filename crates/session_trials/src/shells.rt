//! The shell over the disks of a site. What it leaves is bytes alone, so that a trial owns no disk.
use site_disk::{Era, MemSink, MemSource, OutOfMemory};
use std::alloc::Global;
use trial_site::{Bytes, Ended, MOMENT, Plan, leave, site_of};
use xbsa_shell::xbsa_shell;

/// Runs a script of XBSA calls, and takes what is printed.
pub fn shell(
    alloc: Global,
    bytes: &Bytes,
    plan: &Plan<'_>,
    script: &[u8],
) -> Result<Ended, OutOfMemory> {
    let words: Vec<String> = Vec::new(alloc);
    let mut era = Era::first();
    let mut site = site_of(alloc, &era, bytes, plan)?;
    let mut source = MemSource::new(alloc, Vec::from_slice(alloc, script)?, Vec::new(alloc));
    let mut sink = MemSink::new(alloc, Vec::new(alloc));
    let status = xbsa_shell(
        alloc,
        &words,
        &mut site.store,
        &mut era,
        &mut source,
        &mut sink,
        MOMENT,
    );
    let text = Vec::from_slice(alloc, sink.taken())?;
    let (bytes, is_touched) = leave(alloc, site, &era, plan.crash)?;
    Ok(Ended {
        status: format!(in alloc; "{status:?}")?,
        text,
        bytes,
        is_untouched: !is_touched,
    })
}

/// How many lines of a text tell a copy id.
pub fn copies_in(text: &str) -> usize {
    text.split('\n')
        .filter(|line| line.starts_with("Success copy "))
        .count()
}
