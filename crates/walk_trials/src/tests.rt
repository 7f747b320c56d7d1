ghost use Rattle.std.specs.Prelude.{◌≡◌, ◌≤◌, IfOk};
ghost use Rattle.site_disk.specs.Ledger.{new_ledger};
ghost use Rattle.site_disk.specs.MemDisk.{disk_ledger};

use crate::{Numbers, Trio, raise_and_seal};
use site_disk::{Choice, Era, Failed, MemDisk};
use std::alloc::Global;
use std::test::Fail;

const GOALS: Numbers = Numbers {
    first: 6,
    second: 8,
    third: 4,
};

const MARK: u64 = 9;

// A disk that shows a number, and that stops within a call; it takes all where that is 0.
fn disk(alloc: Global, era: &Era, number: usize, stop: u64) -> Result<MemDisk, Fail>
    requires { number ≤ 16 }
    ensures { IfOk result (λ disk. disk_ledger disk ≡ new_ledger era.now.number era.now.key) }
{
    let bytes = [0u8; 16];
    let mut disk = MemDisk::new(alloc, era, Vec::from_slice(alloc, &bytes[..number])?);
    disk.reserve(8, 32)?;
    if stop > 0 {
        disk.stop_at(stop, 2);
    }
    Ok(disk)
}

// Whether the numbers are on the way from the old ones to those behind both moves.
fn is_on_way(found: Numbers) -> bool {
    let third_is_there = found.third == 5;
    let raising = 2 <= found.first && found.first <= 6 && 3 <= found.second && found.second <= 8;
    let sealing = 6 <= found.first && found.first <= MARK && found.second == 8;
    third_is_there && (raising || sealing)
}

// What a crash in an era leaves.
fn left(disk: MemDisk, era: &Era, seed: u64) -> Result<u64, Fail> {
    let choice = Choice {
        calls: u64::MAX,
        seed,
    };
    let disk = disk.crash(era, &choice)?;
    Ok(disk.bytes().len() as u64)
}

// The numbers that three disks show after a crash in one era, each for itself.
fn found(trio: Trio<MemDisk>, era: &Era, seed: u64) -> Result<Numbers, Fail> {
    let Trio {
        first,
        second,
        third,
    } = trio;
    Ok(Numbers {
        first: left(first, era, seed)?,
        second: left(second, era, seed.wrapping_mul(7))?,
        third: left(third, era, seed.wrapping_mul(31))?,
    })
}

#[test]
fn wherever_a_disk_stops_a_crash_leaves_numbers_of_the_course(rt: HostRuntime) -> Result<(), Fail> {
    for (first, second, third, ended) in [
        (0, 0, 0, Ok(())),
        (1, 0, 0, Err(Failed)),
        (2, 0, 0, Err(Failed)),
        (0, 2, 0, Err(Failed)),
        (0, 0, 1, Err(Failed)),
        (3, 0, 0, Err(Failed)),
        (0, 3, 0, Err(Failed)),
        (0, 0, 2, Err(Failed)),
        (5, 0, 0, Err(Failed)),
        (6, 0, 0, Err(Failed)),
    ] {
        for seed in 0..8 {
            let mut era = Era::first();
            let mut trio = Trio {
                first: disk(rt.alloc(), &era, 2, first)?,
                second: disk(rt.alloc(), &era, 3, second)?,
                third: disk(rt.alloc(), &era, 5, third)?,
            };
            let result = raise_and_seal(&mut trio, &mut era, GOALS, MARK);
            assert_eq!(rt; result, ended, "stops {first} {second} {third}");
            let numbers = found(trio, &era, seed)?;
            assert!(rt;
                is_on_way(numbers),
                "stops {first} {second} {third}, seed {seed}"
            );
        }
    }
    Ok(())
}
