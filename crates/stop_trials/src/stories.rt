//! Ten commands one after another, each of which is stopped somewhere and crashes.
use site_disk::OutOfMemory;
use site_model::DiskName;
use std::alloc::{AllocError, Global};
use std::test::Fail;
use std::thread::Threads;
use trial_site::{Bytes, Ended, INIT, Plan, Trouble, command, end_of, formatted};

/// The next number of a linear congruential generator, below a limit.
fn next_below(seed: &mut u64, limit: u64) -> u64 {
    *seed = seed
        .wrapping_mul(6_364_136_223_846_793_005)
        .wrapping_add(1_442_695_040_888_963_407);
    (*seed >> 33).checked_rem(limit).unwrap_or(0)
}

/// The script of a command of a story: four transactions of three records, which write a page each.
fn script_of(alloc: Global, number: u64) -> Result<Vec<u8>, AllocError> {
    let mut script = Vec::new(alloc);
    for page in 0..4 {
        let lines = format!(in alloc;
            "begin {number}{page}\nwrite {number}{page} A {page} 0 4{number}\ncommit {number}{page}\n"
        )?;
        script.extend_from_slice(lines.as_bytes())?;
    }
    Ok(script)
}

/// A site between two commands: its disks, how many records its log has, and of each page the stamp and the command that
/// wrote it.
#[derive(Drop)]
struct Story {
    bytes: Bytes,
    end: u64,
    pages: [(u64, u64); 4],
}

impl Story {
    /// The bytes of its records: 128 each, in the slots of the first file.
    fn records(&self) -> &[u8] {
        let slots = self.bytes.of(DiskName::Log).get(41_472..).unwrap_or(&[]);
        slots
            .get(..(self.end as usize).saturating_mul(128))
            .unwrap_or(&[])
    }

    /// The log has the first transactions of this command.
    fn note(&mut self, number: u64, end: u64) {
        let mut at = self.end;
        for page in &mut self.pages {
            at = at.saturating_add(3);
            if at <= end {
                *page = (at, number);
            }
        }
        self.end = end;
    }
}

/// A call of each disk at which it stops, within a write.
fn stops(seed: &mut u64) -> [(DiskName, Trouble); 6] {
    let mut troubles = [
        (DiskName::Cat, Trouble::Fails(0)),
        (DiskName::Spare, Trouble::Fails(0)),
        (DiskName::Boot, Trouble::Fails(0)),
        (DiskName::Log, Trouble::Fails(0)),
        (DiskName::Volume(4), Trouble::Fails(0)),
        (DiskName::Chunk(0), Trouble::Fails(0)),
    ];
    for (_, trouble) in &mut troubles {
        let call = next_below(seed, 120).saturating_add(1);
        *trouble = Trouble::Stops(call, next_below(seed, 400) as usize);
    }
    troubles
}

/// Runs a command of a story with disks that stop: two scripts, and then a show.
fn run_stopped<R: Threads + Sync>(
    rt: &R,
    alloc: Global,
    bytes: &Bytes,
    number: u64,
    seed: &mut u64,
) -> Result<Ended, OutOfMemory> {
    let troubles = stops(seed);
    let plan = Plan {
        troubles: &troubles,
        crash: Some(next_below(seed, 1_000)),
    };
    if number % 3 == 0 {
        return command(rt, alloc, "-D A", bytes, &plan, b"");
    }
    command(rt, alloc, "-T", bytes, &plan, &script_of(alloc, number)?)
}

/// A command of a story takes no record from the log, and adds whole transactions, all of them where a script ended well.
/// Answers how many records it added.
fn go_on<R: Threads + Sync>(
    rt: &R,
    alloc: Global,
    story: &mut Story,
    number: u64,
    seed: &mut u64,
) -> Result<u64, Fail> {
    let before = Vec::from_slice(alloc, story.records())?;
    let was = story.end;
    let ended = run_stopped(rt, alloc, &story.bytes, number, seed)?;
    let end = end_of(rt, alloc, &ended.bytes)?.ok_or("another end")?;
    let is_whole = ended.status.as_str() == "Ok" && number % 3 > 0;
    story.bytes = ended.bytes;
    story.note(number, end);
    let added = end.saturating_sub(was);
    if !story.records().starts_with(&before) {
        return Err(Fail::from("a record was lost"));
    }
    if added % 3 > 0 || (is_whole && added < 12) {
        return Err(Fail::from("a transaction stands in part, or is lost"));
    }
    Ok(added)
}

/// Whether a show of each page has what the log says.
fn shows_pages<R: Threads + Sync>(
    rt: &R,
    alloc: Global,
    story: &Story,
) -> Result<bool, OutOfMemory> {
    for (page, (stamp, number)) in story.pages.iter().enumerate() {
        let words = format!(in alloc; "-D A {page}")?;
        let ended = command(rt, alloc, words.as_str(), &story.bytes, &Plan::NONE, b"")?;
        let mut want = format!(in alloc; "page A {page} stamp {stamp}\n")?;
        if *number > 0 {
            let line = format!(in alloc; "0000 4{number}000000000000000000000000000000\n")?;
            want.push_str(line.as_str())?;
        }
        want.push_str("ok\n")?;
        if !ended.is(want.as_str(), "Ok") {
            return Ok(false);
        }
    }
    Ok(true)
}

/// Ten commands, and then a show of each page. Answers whether some added no record, some a part of their script, and all of it.
fn tell_story<R: Threads + Sync>(rt: &R, alloc: Global, seed: &mut u64) -> Result<[bool; 3], Fail> {
    let mut story = Story {
        bytes: formatted(rt, alloc, INIT.words)?,
        end: 0,
        pages: [(0, 0); 4],
    };
    let mut found = [false; 3];
    for number in 0..=9 {
        let added = go_on(rt, alloc, &mut story, number, seed)?;
        found[0] |= added == 0;
        found[1] |= 0 < added && added < 12;
        found[2] |= added == 12;
    }
    if !shows_pages(rt, alloc, &story)? {
        return Err(Fail::from("another page is shown"));
    }
    Ok(found)
}

#[test]
fn stopped_commands_only_extend_the_log(rt: HostRuntime) -> Result<(), Fail> {
    let alloc = rt.alloc();
    let mut seed = 1;
    let mut found = [false; 3];
    for _ in 0..6 {
        let story = tell_story(&rt, alloc, &mut seed)?;
        for (all, one) in found.iter_mut().zip(story) {
            *all |= one;
        }
    }
    assert_eq!(rt; found, [true; 3]);
    Ok(())
}
