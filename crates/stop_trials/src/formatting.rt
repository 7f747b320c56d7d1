//! A site whose disks stop while it is formatted.
use site_disk::OutOfMemory;
use site_model::DiskName;
use std::alloc::Global;
use std::test::Fail;
use std::thread::Threads;
use trial_site::{Bytes, INIT, Plan, Trouble, command, extend};

/// What the next commands tell of disks: that the site is blank, or that it is whole.
fn is_whole<R: Threads + Sync>(
    rt: &R,
    alloc: Global,
    bytes: &Bytes,
) -> Result<Option<bool>, OutOfMemory> {
    let ended = extend(rt, alloc, bytes, b"")?;
    let next = command(rt, alloc, INIT.words, bytes, &Plan::NONE, b"")?;
    if ended.is("not formatted\n", "NotFormatted") && next.is(INIT.text, INIT.status) {
        return Ok(Some(false));
    }
    if ended.is("lines 0 commits 0 end 0\nok\n", "Ok")
        && next.is("already formatted\n", "AlreadyFormatted")
    {
        return Ok(Some(true));
    }
    Ok(None)
}

/// Formats a blank site with a disk that stops, and crashes. Answers whether the command was cut short, and whether the
/// site is whole then.
fn stopped<R: Threads + Sync>(
    rt: &R,
    alloc: Global,
    name: DiskName,
    trouble: Trouble,
    seed: u64,
) -> Result<(bool, bool), Fail> {
    let troubles = [(name, trouble)];
    let plan = Plan {
        troubles: &troubles,
        crash: Some(seed),
    };
    let left = command(rt, alloc, INIT.words, &Bytes::blank(alloc), &plan, b"")?;
    let cut = left.status.as_str() != "Ok" && left.text.is_empty();
    let whole = is_whole(rt, alloc, &left.bytes)?;
    Ok((cut, whole.ok_or("another end")?))
}

// The disks that are formatted before the catalogue's header is opened, and how many calls each has.
static DISKS: [(DiskName, u64); 5] = [
    (DiskName::Spare, 30),
    (DiskName::Boot, 32),
    (DiskName::Log, 25),
    (DiskName::Volume(16), 9),
    (DiskName::Chunk(0), 38),
];

#[test]
fn a_stop_of_another_disk_leaves_a_blank_site(rt: HostRuntime) -> Result<(), Fail> {
    let alloc = rt.alloc();
    for (name, calls) in DISKS {
        for call in (1..=calls + 1).step_by(4) {
            let trouble = Trouble::Stops(call, 1_000);
            let (cut, whole) = stopped(&rt, alloc, name, trouble, call)?;
            assert!(rt; whole != cut, "{name} call {call}");
            assert!(rt; cut == (call <= calls), "{name} call {call}");
        }
    }
    Ok(())
}

/// The catalogue's calls end with the header's page, a sync, its gate and a sync: 51 in all.
#[test]
fn a_stop_of_the_catalogue_leaves_a_blank_site_or_a_whole_one(rt: HostRuntime) -> Result<(), Fail> {
    let alloc = rt.alloc();
    let mut found = [false; 3];
    for call in 45..=52 {
        for bytes in [0, 1, 2_048] {
            for seed in 0..4 {
                let trouble = Trouble::Stops(call, bytes);
                let (cut, whole) = stopped(&rt, alloc, DiskName::Cat, trouble, seed)?;
                assert!(rt; cut || whole, "call {call}, byte {bytes}, seed {seed}");
                found[0] |= cut && !whole;
                found[1] |= cut && whole;
                found[2] |= !cut;
            }
        }
    }
    assert_eq!(rt; found, [true; 3]);
    Ok(())
}
