//! What no clause says: that a board is made with ample memory, that jobs count their runs, and that two threads run.
ghost use Rattle.std.specs.Prelude.{◌≡◌, ℕ, ◌+◌, ◌%◌, ◌^◌, ◌<◌, ◌≤◌, length, slice_index_or, vec_len, IfOk, IfErr};

use crate::{Board, OutOfMemory};
use std::alloc::{AllocError, Global};
use std::sync::atomic::AtomicBool;
use std::sync::atomic::Ordering::SeqCst;
use std::test::Fail;
use std::thread::{Threads, join};
use std::{hint, mem};

const MOST_LOOKS: u32 = 100_000_000;

/// A job that counts its runs.
#[derive(Drop)]
struct Tally {
    number: usize,
    runs: u32,
}

impl Tally {
    fn run(&mut self)
        ensures { (self.new.number ≡ self.old.number) × (self.new.runs ≡ (self.old.runs + 1) % 2 ^ 32) }
    {
        self.runs = self.runs.wrapping_add(1);
    }
}

fn tallies(alloc: Global, count: usize) -> Result<Vec<Tally>, AllocError>
    ensures { IfOk result (λ jobs. vec_len jobs ≡ count) }
{
    let mut jobs = Vec::new(alloc);
    for number in 0..count {
        jobs.push(Tally { number, runs: 0 })?;
    }
    Ok(jobs)
}

fn are_counted(jobs: &[Tally], count: usize, runs: u32) -> bool {
    jobs.len() == count
        && jobs
            .iter()
            .enumerate()
            .all(|(i, job)| job.number == i && job.runs == runs)
}

/// Whether each of so many jobs ran once in each of three runs.
fn run_thrice<R: Threads + Sync>(
    rt: &R,
    alloc: Global,
    count: usize,
    workers: u16,
) -> Result<bool, AllocError>
    requires count { (0 < count) × (count ≤ 16) }
    requires workers { (0 < workers) × (workers ≤ 16) }
{
    let Ok(mut board) = Board::new(tallies(alloc, count)?) else {
        return Err(AllocError);
    };
    board.run(rt, workers, &|job: &mut Tally| job.run());
    board.run(rt, workers, &|job: &mut Tally| job.run());
    board.run(rt, workers, &|job: &mut Tally| job.run());
    Ok(are_counted(&board.close(), count, 3))
}

/// Jobs that a layer above keeps in a vector go through a board and come back.
fn run_all<R: Threads + Sync>(
    rt: &R,
    alloc: Global,
    jobs: &mut Vec<Tally>,
    workers: u16,
) -> Result<(), OutOfMemory>
    requires jobs { (0 < vec_len jobs.old) × (vec_len jobs.old ≤ 16) }
    requires workers { (0 < workers) × (workers ≤ 16) }
    ensures len { vec_len jobs.new ≡ vec_len jobs.old }
    ensures each { IfOk result (λ _. (i : ℕ) (d : Tally) → i < length jobs.old.items → (slice_index_or jobs.new.items i d).runs ≡ ((slice_index_or jobs.old.items i d).runs + 1) % 2 ^ 32) }
    ensures err { IfErr result (λ _. jobs.new.items ≡ jobs.old.items) }
{
    let taken = mem::replace(jobs, Vec::new(alloc));
    match Board::new(taken) {
        Ok(mut board) => {
            board.run(rt, workers, &|job: &mut Tally| job.run());
            *jobs = board.close();
            Ok(())
        }
        Err((taken, refused)) => {
            *jobs = taken;
            Err(refused)
        }
    }
}

/// A job of which a layer above knows how a step changes it.
trait Step: Drop {
    ghost stepped: { Self → Self → Type 0 };

    fn step(&mut self)
        ensures { Self.stepped self.old self.new };
}

impl Step for Tally {
    ghost stepped = { λ before after. after.runs ≡ (before.runs + 1) % 2 ^ 32 };

    fn step(&mut self) {
        self.run();
    }
}

fn step_each<S: Step + Send, R: Threads + Sync>(rt: &R, board: &mut Board<S>, workers: u16)
    requires workers { (0 < workers) × (workers ≤ 16) }
    ensures len { length board.new ≡ length board.old }
    ensures each { (i : ℕ) (d : S) → i < length board.old → S.stepped (slice_index_or board.old i d) (slice_index_or board.new i d) }
{
    board.run(rt, workers, &|job: &mut S| job.step());
}

/// A board that goes to another thread.
fn close_elsewhere<R: Threads>(rt: &R, board: Board<Tally>) -> Vec<Tally>
    ensures { result.items ≡ board }
{
    let (jobs, ()) = join(
        rt,
        move || -> Vec<Tally>
            ensures { result.items ≡ board }
        { board.close() },
        || (),
    );
    jobs
}

/// A job that meets another: each sets its flag and looks at the other's.
#[derive(Drop)]
struct Meeting<'a> {
    mine: &'a AtomicBool,
    other: &'a AtomicBool,
    met: bool,
}

impl<'a> Meeting<'a> {
    fn hold(&mut self) {
        self.mine.store(true, SeqCst);
        self.met = is_seen(self.other);
    }
}

/// Whether the flag is set within so many looks.
fn is_seen(flag: &AtomicBool) -> bool {
    for _ in 0..MOST_LOOKS {
        if flag.load(SeqCst) {
            return true;
        }
        hint::spin_loop();
    }
    false
}

#[test]
fn jobs_run_once_a_run(rt: HostRuntime) -> Result<(), Fail> {
    let alloc = rt.alloc();
    for count in [1, 2, 3, 16] {
        for workers in 1..=16u16 {
            assert!(rt;
                run_thrice(&rt, alloc, count, workers)?,
                "{count} jobs, {workers} workers"
            );
        }
    }
    Ok(())
}

#[test]
fn jobs_come_back_to_their_vector(rt: HostRuntime) -> Result<(), Fail> {
    let alloc = rt.alloc();
    let mut jobs = tallies(alloc, 3)?;
    assert!(rt; run_all(&rt, alloc, &mut jobs, 2).is_ok());
    assert!(rt; are_counted(&jobs, 3, 1));

    let Ok(mut board) = Board::new(jobs) else {
        return Err(AllocError.into());
    };
    step_each(&rt, &mut board, 3);
    assert!(rt; are_counted(&close_elsewhere(&rt, board), 3, 2));
    Ok(())
}

#[test]
fn two_jobs_meet(rt: HostRuntime) -> Result<(), Fail> {
    let one = AtomicBool::new(false);
    let other = AtomicBool::new(false);
    let mut jobs = Vec::new(rt.alloc());
    jobs.push(Meeting {
        mine: &one,
        other: &other,
        met: false,
    })?;
    jobs.push(Meeting {
        mine: &other,
        other: &one,
        met: false,
    })?;
    let Ok(mut board) = Board::new(jobs) else {
        return Err(AllocError.into());
    };
    board.run(&rt, 2, &|job: &mut Meeting| job.hold());
    assert!(rt; board.close().iter().all(|job| job.met));
    Ok(())
}
