//! Steps among images, and the replay behind them.
ghost use Rattle.std.specs.Prelude.{◌≡◌};
ghost use Rattle.space_lane.specs.Chunks.{IsCount};

use crate::calls::{merge_all, stepped};
use crate::jobs::{RESTORE, amid, behind, prepared};
use lane_restore::LaneState;
use site_disk::Era;
use std::alloc::Global;
use std::test::Fail;

// So many entries, each of the page of its number.
fn many(alloc: Global, count: u32) -> Result<Vec<(u32, u64)>, Fail> {
    let mut entries = Vec::new(alloc);
    for page in 0..count {
        entries.push((page, 3 * (u64::from(page) + 1)))?;
    }
    Ok(entries)
}

#[test]
fn a_step_marks_256_entries(rt: HostRuntime) -> Result<(), Fail> {
    let alloc = rt.alloc();
    let era = Era::first();
    let entries = many(alloc, 600)?;
    let images = [(1800, entries.as_slice())];
    let mut job = prepared(alloc, &era, 600, &images, 1800)?;
    let chain = job.chain;
    assert_eq!(rt; job.ended, None);
    assert_eq!(rt; *job.lane.state(), LaneState::Blank { restore: RESTORE });
    assert_eq!(rt; stepped(&mut job, &era, 600)?, Some(amid(0, 256, chain)));
    assert_eq!(rt; stepped(&mut job, &era, 600)?, Some(amid(0, 512, chain)));
    assert_eq!(rt; stepped(&mut job, &era, 600)?, Some(behind(1800, chain)));
    assert_eq!(rt; stepped(&mut job, &era, 600)?, None);
    assert_eq!(rt; job.ended, None);
    Ok(())
}

#[test]
fn images_of_few_entries(rt: HostRuntime) -> Result<(), Fail> {
    let alloc = rt.alloc();
    for (count, steps) in [(0, 1), (1, 1), (256, 1), (257, 2)] {
        let era = Era::first();
        let entries = many(alloc, count)?;
        let images = [(1800, entries.as_slice())];
        let mut job = prepared(alloc, &era, 600, &images, 1800)?;
        let made = merge_all(&mut job, &era, 600)?;
        assert_eq!(rt; (made, job.ended), (steps, None), "{count} entries");
        assert_eq!(rt; *job.lane.state(), behind(1800, job.chain));
    }
    Ok(())
}
