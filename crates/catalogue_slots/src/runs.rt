//! The runs in a slot.
ghost use Rattle.std.specs.Prelude.{◌≡◌, ◌≢◌, ◌+◌, ◌*◌, ◌<◌, ◌≤◌, ◌↔◌, ◌++◌, List, length, take, IsTrue, IsSomeAnd, IfSome, IfOk};
ghost use Rattle.std.specs.List.{flat_map};
ghost use Rattle.block_chain.specs.declared.runs.Run.{Run as RunView};
ghost use Rattle.block_chain.specs.Blocks.{FitsRun};
ghost use Rattle.catalogue_slots.specs.Records.{AreRuns};
ghost use Rattle.catalogue_slots.specs.Layout.{run_bytes, runs_in_place};
ghost use Rattle.catalogue_slots.specs.Parts.{BeginsWithRuns, HoldsRuns};
ghost use Rattle.byte_fields.specs.Fields.{field};

use block_chain::Run;
use byte_fields::{is_zero_from, write_bytes, write_zeros};
use std::alloc::{AllocError, Global};

#[tactic(auto, unfolding(crate::specs::Layout::run_bytes))]
fn bytes_of(run: &Run) -> [u8; 8]
    ensures { result ≡ run_bytes run.now }
{
    let mut bytes = [0; 8];
    bytes[..4].copy_from_slice(&run.first.to_be_bytes());
    bytes[4..].copy_from_slice(&run.count.to_be_bytes());
    bytes
}

#[tactic(auto, unfolding(crate::specs::Layout::run_bytes))]
fn of_bytes(bytes: &[u8; 8]) -> Run
    ensures fits { FitsRun result }
    ensures found { bytes.now ≡ run_bytes result }
{
    let [f0, f1, f2, f3, c0, c1, c2, c3] = *bytes;
    Run {
        first: u32::from_be_bytes([f0, f1, f2, f3]),
        count: u32::from_be_bytes([c0, c1, c2, c3]),
    }
}

fn run_at(bytes: &[u8], at: usize) -> Run
    requires { at + 8 ≤ length bytes.now }
    ensures fits { FitsRun result }
    ensures found { field at 8 bytes.now ≡ run_bytes result }
{
    let mut eight = [0; 8];
    eight.copy_from_slice(&bytes[at..at + 8]);
    of_bytes(&eight)
}

fn write_run(into: &mut [u8], at: usize, run: &Run)
    requires { at + 8 ≤ length into.old }
    ensures { take (at + 8) into.new ≡ take at into.old ++ run_bytes run.now }
{
    write_bytes(into, at, &bytes_of(run));
}

/// Writes the runs one after another from this offset on.
fn write_each(into: &mut [u8], at: usize, runs: &[Run])
    requires { at + 8 * length runs.now ≤ length into.old }
    ensures { take (at + 8 * length runs.now) into.new ≡ take at into.old ++ flat_map run_bytes runs.now }
{
    for (i, run) in runs.iter().enumerate() {
        write_run(into, at + 8 * i, run);
    }
}

/// Writes the runs at this offset, in a place for so many, with zeros behind them.
pub(crate) fn write_runs(into: &mut [u8], at: usize, room: usize, runs: &[Run])
    requires few { length runs.now ≤ room }
    requires place { at + 8 * room ≤ length into.old }
    ensures { take (at + 8 * room) into.new ≡ take at into.old ++ runs_in_place room runs.now }
{
    write_each(into, at, runs);
    write_zeros(into, at + 8 * runs.len(), 8 * (room - runs.len()));
}

// Whether a run isn't empty, and doesn't begin where the one before it ends.
fn is_next(end: u64, run: &Run) -> bool
    ensures { IsTrue result ↔ ((0 < run.now.count) × (run.now.first ≢ end)) }
{
    run.count > 0 && u64::from(run.first) != end
}

/// So many runs, with which the bytes begin, or `None` where no runs are spelled so.
pub(crate) fn runs_of(
    alloc: Global,
    bytes: &[u8],
    count: usize,
) -> Result<Option<Vec<Run>>, AllocError>
    requires { 8 * count ≤ length bytes.now }
    ensures found { IfOk result (λ read. IfSome read (λ runs. BeginsWithRuns bytes.now count runs.items)) }
    ensures only { (runs : List RunView) → BeginsWithRuns bytes.now count runs → IfOk result (λ read. IsSomeAnd read (λ found. found.items ≡ runs)) }
{
    let mut runs = Vec::new(alloc);
    let mut end = u64::MAX;
    for i in 0..count {
        let run = run_at(bytes, 8 * i);
        if !is_next(end, &run) {
            return Ok(None);
        }
        end = u64::from(run.first) + u64::from(run.count);
        runs.push(run)?;
    }
    Ok(Some(runs))
}

/// The runs that so many bytes spell, with zeros behind them, or `None` where they spell none.
pub(crate) fn runs_in(
    alloc: Global,
    place: &[u8],
    count: usize,
) -> Result<Option<Vec<Run>>, AllocError>
    requires { 8 * count ≤ length place.now }
    ensures found { IfOk result (λ read. IfSome read (λ runs. HoldsRuns place.now count runs.items)) }
    ensures only { (runs : List RunView) → HoldsRuns place.now count runs → IfOk result (λ read. IsSomeAnd read (λ found. found.items ≡ runs)) }
{
    if !is_zero_from(place, 8 * count) {
        return Ok(None);
    }
    runs_of(alloc, place, count)
}
