//! Disks of random bytes, and good ones with one byte raised.
use site_disk::OutOfMemory;
use site_model::DiskName;
use std::alloc::{AllocError, Global};
use std::test::Fail;
use std::thread::Threads;
use trial_site::{Bytes, Ended, INIT, Plan, WRITTEN, command, extend, run_steps};

/// The next number of a linear congruential generator.
fn next_number(seed: &mut u64) -> usize {
    *seed = seed
        .wrapping_mul(6_364_136_223_846_793_005)
        .wrapping_add(1_442_695_040_888_963_407);
    (*seed >> 33) as usize
}

/// Whether a script that is empty is refused for its disks, or all of it is done.
fn tells_state(ended: &Ended) -> bool {
    ended.is("not formatted\n", "NotFormatted")
        || ended.is("log lost\n", "LogLost")
        || ended.tells("chunk of A lost\n")
        || ended.text.starts_with(b"bad record in ")
        || ended.text.starts_with(b"lines 0 commits 0 end ")
}

/// Whether `-init`, `-T` and `-D` end over these disks as they may over any, and those that are refused write nothing.
fn ends_well<R: Threads + Sync>(rt: &R, alloc: Global, bytes: &Bytes) -> Result<bool, OutOfMemory> {
    let made = command(rt, alloc, INIT.words, bytes, &Plan::NONE, b"")?;
    let ended = extend(rt, alloc, bytes, b"")?;
    let shown = command(rt, alloc, "-D A", bytes, &Plan::NONE, b"")?;
    if made.is(INIT.text, "Ok") {
        return Ok(ended.is("not formatted\n", "NotFormatted") && shown.tells("not formatted\n"));
    }
    let is_kept = made.bytes == *bytes && ended.bytes == *bytes;
    let is_refused = made.is("already formatted\n", "AlreadyFormatted");
    Ok(is_refused && is_kept && tells_state(&ended))
}

/// Bytes of a generator.
fn noise_of(alloc: Global, seed: &mut u64, len: usize) -> Result<Vec<u8>, AllocError> {
    let mut noise = Vec::new(alloc);
    for _ in 0..len {
        noise.push((next_number(seed) % 256) as u8)?;
    }
    Ok(noise)
}

// A disk, by a number.
fn disk_at(number: usize) -> DiskName {
    match number % 6 {
        0 => DiskName::Cat,
        1 => DiskName::Spare,
        2 => DiskName::Boot,
        3 => DiskName::Log,
        4 => DiskName::Volume(9),
        _ => DiskName::Chunk(0),
    }
}

/// A disk whose front stands, up to its header, its mark or its gates, and behind it random bytes.
fn noisy(alloc: Global, whole: &Bytes, round: usize, seed: &mut u64) -> Result<Bytes, Fail> {
    let name = disk_at(round);
    let len = match round / 6 % 4 {
        0 => 0,
        1 => 4_096,
        2 => 8_192,
        _ => 73_728,
    };
    let disk = whole.of(name);
    let mut bytes = Vec::from_slice(alloc, disk.get(..len).unwrap_or(disk))?;
    let more = next_number(seed) % 8_193;
    bytes.extend_from_slice(&noise_of(alloc, seed, more)?)?;
    Ok(whole.with_disk(alloc, name, &bytes)?)
}

#[test]
fn random_disks_are_told(rt: HostRuntime) -> Result<(), Fail> {
    let alloc = rt.alloc();
    let whole = run_steps(&rt, alloc, &[INIT, WRITTEN])?.ok_or("another end")?;
    let mut seed = 7;
    for round in 0..48 {
        let disks = noisy(alloc, &whole, round, &mut seed)?;
        assert!(rt; ends_well(&rt, alloc, &disks)?, "round {round}");
    }
    Ok(())
}

/// A place of a disk: of its header, its mark, its gates and slots.
fn place(round: usize, number: usize) -> usize {
    match round / 6 % 4 {
        0 => number % 80,
        1 => 4_096 + number % 1_024,
        2 => 8_192 + number % 4_096,
        _ => 41_472 + number % 384,
    }
}

#[test]
fn a_raised_byte_is_told(rt: HostRuntime) -> Result<(), Fail> {
    let alloc = rt.alloc();
    let whole = run_steps(&rt, alloc, &[INIT, WRITTEN])?.ok_or("another end")?;
    let mut seed = 8;
    for round in 0..72 {
        let name = disk_at(round);
        let at = place(round, next_number(&mut seed));
        let byte = whole.of(name).get(at).copied().unwrap_or(0);
        let disks = whole.with(alloc, name, at, &[byte.wrapping_add(1)])?;
        assert!(rt; ends_well(&rt, alloc, &disks)?, "{at} of {name}");
    }
    Ok(())
}
