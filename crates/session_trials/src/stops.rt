//! Stores whose disks stop in a vote, and crash.
use crate::{copies_in, shell};
use site_disk::OutOfMemory;
use site_model::DiskName;
use std::alloc::Global;
use std::test::Fail;
use trial_site::{Bytes, Ended, Plan, Trouble, formatted};

// No trial makes so many calls of a disk.
const MANY: u64 = 200;

// Two transactions with an object each.
const TWO: &str = "set space db
set copytype backup
set objecttype database
init 0
begin
set path /a
create
send 616263
enddata
end 1
begin
set path /b
create
send 646566
enddata
end 1
terminate
";

// All objects, in order of copy id.
const LIST: &str = "set space db
set path *
init 0
begin
query
next
next
end 2
terminate
";

// Runs a script over a site one of whose disks stops at a call, which puts a byte, and all crash.
fn stopped(
    alloc: Global,
    site: &Bytes,
    name: DiskName,
    call: u64,
    seed: u64,
    script: &str,
) -> Result<Ended, OutOfMemory> {
    let troubles = [(name, Trouble::Stops(call, 1))];
    let plan = Plan {
        troubles: &troubles,
        crash: Some(seed),
    };
    shell(alloc, site, &plan, script.as_bytes())
}

// What a query shows of a store.
fn listed(alloc: Global, site: &Bytes) -> Result<Vec<u8>, OutOfMemory> {
    Ok(shell(alloc, site, &Plan::NONE, LIST.as_bytes())?.text)
}

#[test]
fn a_stop_leaves_the_transactions_that_were_ended_or_one_more(rt: HostRuntime) -> Result<(), Fail> {
    let alloc = rt.alloc();
    let site = formatted(&rt, alloc, "-init -k 2 A:1")?;
    let mut found = [false; 3];
    let mut is_done = false;
    for call in 1..MANY {
        for seed in 0..4 {
            let ended = stopped(alloc, &site, DiskName::Cat, call, seed, TWO)?;
            let told = copies_in(str::from_utf8(&ended.text)?);
            let text = listed(alloc, &ended.bytes)?;
            let there = copies_in(str::from_utf8(&text)?);
            assert!(rt;
                there == told || there == told.wrapping_add(1),
                "{there} of {told} at {call}, {seed}"
            );
            assert!(rt; there <= 2, "{there} at {call}, {seed}");
            if there < 3 {
                found[there] = true;
            }
            is_done = ended.status.as_str() == "Ok";
        }
        if is_done {
            break;
        }
    }
    assert!(rt; is_done);
    assert_eq!(rt; found, [true; 3]);
    Ok(())
}

// An object that fills its volume, and another one in its blocks once it is deleted.
const FILLED: &str = "set space db
set copytype backup
set objecttype database
init 0
begin
set path /a
create
send 61
enddata
end 1
begin
delete 1
end 1
terminate
";

const AGAIN: &str = "set space db
set copytype backup
set objecttype database
init 0
begin
set path /b
create
send 626262
enddata
end 1
terminate
";

// Fetches the second object.
const FETCH: &str = "init 0
begin
get 2
data 8
end 7
terminate
";

const FETCHED: &str = "Success
Success
Success size 3
Success 626262
InvalidCallSequence
Success
ok
";

const LACKING: &str = "Success
Success
ObjectNotFound
InvalidCallSequence
InvalidVote
Success
ok
";

// Whether the second object is there whole, or isn't there.
fn is_whole(alloc: Global, site: &Bytes) -> Result<Option<bool>, OutOfMemory> {
    let ended = shell(alloc, site, &Plan::NONE, FETCH.as_bytes())?;
    if ended.is(FETCHED, "Ok") {
        return Ok(Some(true));
    }
    if ended.is(LACKING, "Ok") {
        return Ok(Some(false));
    }
    Ok(None)
}

#[test]
fn an_object_in_freed_blocks_is_whole_or_isnt_there(rt: HostRuntime) -> Result<(), Fail> {
    let alloc = rt.alloc();
    let blank = formatted(&rt, alloc, "-init -k 1 A:1")?;
    let site = shell(alloc, &blank, &Plan::NONE, FILLED.as_bytes())?.bytes;
    for name in [DiskName::Cat, DiskName::Volume(0)] {
        let mut found = [false; 2];
        let mut is_done = false;
        for call in 1..MANY {
            for seed in 0..4 {
                let ended = stopped(alloc, &site, name, call, seed, AGAIN)?;
                let whole = is_whole(alloc, &ended.bytes)?.ok_or("another text")?;
                found[usize::from(whole)] = true;
                is_done = ended.status.as_str() == "Ok";
                assert!(rt; whole || !is_done, "at {call}, {seed}");
            }
            if is_done {
                break;
            }
        }
        assert_eq!(rt; found, [true; 2]);
        assert!(rt; is_done);
    }
    Ok(())
}

#[test]
fn a_disk_that_fails_is_named(rt: HostRuntime) -> Result<(), Fail> {
    let alloc = rt.alloc();
    let site = formatted(&rt, alloc, "-init -k 2 A:1")?;
    for (name, status) in [
        (DiskName::Cat, "DiskFault(Cat)"),
        (DiskName::Spare, "DiskFault(Spare)"),
        (DiskName::Volume(0), "DiskFault(Volume(0))"),
        (DiskName::Volume(16), "DiskFault(Volume(16))"),
    ] {
        let troubles = [(name, Trouble::Fails(1))];
        let plan = Plan {
            troubles: &troubles,
            crash: None,
        };
        let ended = shell(alloc, &site, &plan, TWO.as_bytes())?;
        assert!(rt; ended.is("", status), "{status}");
        assert!(rt; ended.bytes == site, "{status}");
    }
    Ok(())
}
