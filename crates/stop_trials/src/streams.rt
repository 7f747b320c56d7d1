//! Scripts and sinks that break off.
ghost use Rattle.std.specs.Prelude.{◌≡◌, [], false};

use site_disk::{Failed, MemSink, MemSource, Sink, Source};
use std::test::Fail;
use trial_site::{INIT, Plan, begins, end_of, formatted, run};

/// A script that comes byte by byte, and fails behind its last.
#[derive(Drop)]
struct Broken<'a> {
    rest: &'a [u8],
    faults: u64,
}

impl Source for Broken<'_> {
    ghost is_modelled = { false };

    ghost left = { λ _. [] };

    ghost faults = { λ broken. broken.faults };

    fn read(&mut self, into: &mut [u8]) -> Result<usize, Failed> {
        let Some(place) = into.first_mut() else {
            return Ok(0);
        };
        let Some((byte, rest)) = self.rest.split_first() else {
            self.faults = self.faults.saturating_add(1);
            return Err(Failed);
        };
        *place = *byte;
        self.rest = rest;
        Ok(1)
    }
}

/// A sink that takes byte by byte, and fails when it is full.
#[derive(Drop)]
struct Narrow {
    taken: Vec<u8>,
    room: usize,
    faults: u64,
}

impl Sink for Narrow {
    ghost is_modelled = { false };

    ghost taken = { λ _. [] };

    ghost faults = { λ narrow. narrow.faults };

    fn write(&mut self, piece: &[u8]) -> Result<usize, Failed> {
        let Some(byte) = piece.first() else {
            return Ok(0);
        };
        if self.taken.len() >= self.room || self.taken.push(*byte).is_err() {
            self.faults = self.faults.saturating_add(1);
            return Err(Failed);
        }
        Ok(1)
    }
}

/// The script's first 32 lines are 279 bytes.
#[test]
fn a_script_that_breaks_off_leaves_whole_batches(rt: HostRuntime) -> Result<(), Fail> {
    let alloc = rt.alloc();
    let script = begins(alloc, 40)?;
    let site = formatted(&rt, alloc, INIT.words)?;
    for len in (0..script.len()).step_by(9) {
        let mut source = Broken {
            rest: script.get(..len).ok_or("a front")?,
            faults: 0,
        };
        let mut sink = MemSink::new(alloc, Vec::new(alloc));
        let ended = run(&rt, alloc, "-T", &site, &Plan::NONE, &mut source, &mut sink)?;
        assert!(rt; ended.is("", "ReadFault"), "at {len}");
        assert!(rt; sink.taken().is_empty(), "at {len}");
        let end = end_of(&rt, alloc, &ended.bytes)?;
        assert_eq!(rt; end, Some(if len < 279 { 0 } else { 32 }), "at {len}");
    }
    Ok(())
}

#[test]
fn a_sink_that_fails_has_a_front_of_the_text(rt: HostRuntime) -> Result<(), Fail> {
    let alloc = rt.alloc();
    let text = b"lines 40 commits 0 end 40\nok\n".as_slice();
    let site = formatted(&rt, alloc, INIT.words)?;
    for room in 0..=29 {
        let mut source = MemSource::new(alloc, begins(alloc, 40)?, Vec::new(alloc));
        let mut sink = Narrow {
            taken: Vec::new(alloc),
            room,
            faults: 0,
        };
        let ended = run(&rt, alloc, "-T", &site, &Plan::NONE, &mut source, &mut sink)?;
        let want = if room < 29 { "WriteFault" } else { "Ok" };
        assert!(rt; ended.is("", want), "at {room}");
        assert!(rt;
            sink.taken.len() == room && text.starts_with(&sink.taken),
            "at {room}"
        );
        let end = end_of(&rt, alloc, &ended.bytes)?;
        assert_eq!(rt; end, Some(40), "at {room}");
    }
    Ok(())
}
