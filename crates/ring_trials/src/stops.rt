//! A log whose disk stops at each of its calls.
ghost use Rattle.std.specs.Prelude.{◌<◌, ◌≤◌, OnOk};
ghost use Rattle.site_disk.specs.Ledger.{MayUse};
ghost use Rattle.site_disk.specs.MemDisk.{disk_ledger};
ghost use Rattle.logical_log.specs.Rings.{IsMade, IsOpen, disk_of};

use crate::calls::{append, back_up, close, open_next, reset};
use log_record::Record;
use logical_log::{LogFault, LogRing, Room};
use site_disk::{Choice, Era, MemDisk};
use std::alloc::Global;
use std::test::Fail;

/// What a log shows: its last position, how many files have records, the last file that is backed up, the last one that is
/// closed, and whether the current one takes a record.
type State = (u64, usize, u64, u64, bool);

/// How many calls the script makes: `step` has them.
const CALLS: usize = 9;

// The calls of a script. False where one isn't allowed.
fn step(ring: &mut LogRing<MemDisk>, era: &Era, number: usize) -> Result<bool, LogFault>
    requires may { MayUse era.now (disk_ledger (disk_of ring.old)) }
    requires made { IsMade ring.old }
    requires opened { 0 < number → IsOpen ring.old }
    ensures may { MayUse era.now (disk_ledger (disk_of ring.new)) }
    ensures made { IsMade ring.new }
    ensures opened { OnOk result (IsOpen ring.new) }
{
    match number {
        0 => {
            ring.format(era, 7, 1, 1, 0)?;
            Ok(true)
        }
        1 => append(
            ring,
            era,
            &[Record::Begin { txn: 1 }, Record::Commit { txn: 1, time: 5 }],
        ),
        4 => open_next(ring, era),
        5 => append(ring, era, &[Record::Begin { txn: 2 }]),
        2 | 6 => close(ring, era),
        3 | 7 => back_up(ring, era),
        _ => reset(ring, era),
    }
}

// Makes the calls of the script, and answers how many came to their end.
fn count_done(ring: &mut LogRing<MemDisk>, era: &Era) -> usize
    requires may { MayUse era.now (disk_ledger (disk_of ring.old)) }
    requires made { IsMade ring.old }
    ensures may { MayUse era.now (disk_ledger (disk_of ring.new)) }
{
    for number in 0..CALLS {
        match step(ring, era, number) {
            Ok(true) => (),
            _ => return number,
        }
    }
    CALLS
}

// What a log shows that is opened. `None` where it is lost.
fn shown(alloc: Global, era: &Era, disk: MemDisk) -> Result<Option<State>, LogFault>
    requires { MayUse era.now (disk_ledger disk) }
{
    let mut ring = LogRing::new(alloc, disk);
    match ring.open(era, 7) {
        Ok(()) => (),
        Err(LogFault::LogLost) => return Ok(None),
        Err(fault) => return Err(fault),
    }
    let takes = ring.room(1, None) == Room::Fits;
    Ok(Some((
        ring.end(),
        ring.files().len(),
        ring.backed_up_to(),
        ring.closed_up_to(),
        takes,
    )))
}

// What a crash leaves of a log's disk, each choice of it by a number.
fn crashed(
    ring: LogRing<MemDisk>,
    alloc: Global,
    era: &Era,
    seed: u64,
) -> Result<Option<State>, Fail>
    requires { MayUse era.now (disk_ledger (disk_of ring)) }
{
    let choice = Choice {
        calls: u64::MAX,
        seed,
    };
    let disk = ring.into_disk().crash(era, &choice)?;
    Ok(shown(alloc, era, disk)?)
}

/// The states that the script passes: no log, and then one behind each call. Within the last one it has a file more.
static STATES: [Option<State>; 11] = [
    None,
    Some((0, 0, 0, 0, true)),
    Some((2, 1, 0, 0, true)),
    Some((2, 1, 0, 1, false)),
    Some((2, 1, 1, 1, false)),
    Some((2, 1, 1, 1, true)),
    Some((3, 2, 1, 1, true)),
    Some((3, 2, 1, 2, false)),
    Some((3, 2, 2, 2, false)),
    Some((3, 2, 2, 2, true)),
    Some((4, 3, 2, 2, true)),
];

// Whether a state is that behind so many calls, or one that the next call passes.
fn may_show(done: usize, state: Option<State>) -> bool {
    match STATES.iter().position(|at| *at == state) {
        Some(at) if done < 8 => at == done || at == done + 1,
        Some(at) if done == 8 => at >= 8,
        Some(at) => at == 10,
        None => false,
    }
}

// A log whose disk stops at a call, within its write where that is one, and then crashes: how many calls of the script came
// to their end, and what the log shows.
fn shown_after_stop(alloc: Global, call: u64) -> Result<(usize, Option<State>), Fail> {
    let era = Era::first();
    let mut disk = MemDisk::new(alloc, &era, Vec::new(alloc));
    disk.stop_at(call, if call % 2 == 0 { 1 } else { 200 });
    let mut ring = LogRing::new(alloc, disk);
    let done = count_done(&mut ring, &era);
    Ok((done, crashed(ring, alloc, &era, call)?))
}

/// A call that came to its end is found again, and one that was stopped was made or not.
#[test]
fn a_stop_leaves_the_state_before_a_call_or_behind_it(rt: HostRuntime) -> Result<(), Fail> {
    let alloc = rt.alloc();
    for call in 1..200 {
        let (done, state) = shown_after_stop(alloc, call)?;
        assert!(rt;
            may_show(done, state),
            "call {call}: {state:?} behind {done}"
        );
        if done == CALLS {
            return Ok(());
        }
    }
    Err("the script has no end".into())
}

// Puts a record into a file that is then closed and backed up: the next one, where the current one takes no record.
fn save_record(ring: &mut LogRing<MemDisk>, era: &Era, txn: u32) -> Result<(), LogFault>
    requires may { MayUse era.now (disk_ledger (disk_of ring.old)) }
    requires opened { IsOpen ring.old }
    requires txn { 1 ≤ txn }
    ensures may { MayUse era.now (disk_ledger (disk_of ring.new)) }
    ensures opened { OnOk result (IsOpen ring.new) }
{
    open_next(ring, era)?;
    append(ring, era, &[Record::Begin { txn }])?;
    close(ring, era)?;
    back_up(ring, era)?;
    Ok(())
}

// Eight files of a record each, all backed up.
fn eight_files(alloc: Global) -> Result<Vec<u8>, Fail> {
    let era = Era::first();
    let mut ring = LogRing::new(alloc, MemDisk::new(alloc, &era, Vec::new(alloc)));
    ring.format(&era, 7, 1, 1, 0)?;
    for txn in 1..9 {
        save_record(&mut ring, &era, txn)?;
    }
    Ok(Vec::from_slice(alloc, ring.into_disk().bytes())?)
}

// A log of these bytes whose disk stops at a call while it is opened and its next file is made: what a crash leaves.
fn left_after_stop(alloc: Global, bytes: &[u8], call: u64) -> Result<(bool, Option<State>), Fail> {
    let era = Era::first();
    let mut disk = MemDisk::new(alloc, &era, Vec::from_slice(alloc, bytes)?);
    disk.stop_at(call, 1);
    let mut ring = LogRing::new(alloc, disk);
    let is_done = match ring.open(&era, 7) {
        Ok(()) => open_next(&mut ring, &era) == Ok(true),
        Err(_) => false,
    };
    Ok((is_done, crashed(ring, alloc, &era, call)?))
}

/// The oldest file is held, or isn't, or the next one is there too.
#[test]
fn a_stop_leaves_the_oldest_file_or_the_next_one(rt: HostRuntime) -> Result<(), Fail> {
    let alloc = rt.alloc();
    let bytes = eight_files(alloc)?;
    let with_oldest = Some((8, 8, 8, 8, false));
    let without_oldest = Some((8, 7, 8, 8, false));
    let with_next = Some((8, 7, 8, 8, true));
    for call in 1..200 {
        let (is_done, state) = left_after_stop(alloc, &bytes, call)?;
        if is_done {
            assert_eq!(rt; state, with_next);
            return Ok(());
        }
        let may_be = state == with_oldest || state == without_oldest || state == with_next;
        assert!(rt; may_be, "call {call}: {state:?}");
    }
    Err("the next file isn't opened".into())
}
