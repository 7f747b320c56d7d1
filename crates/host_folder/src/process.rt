// What a process is given: its words, and the clock.
ghost use Rattle.std.specs.Prelude.{◌<◌, ◌≤◌, ◌-◌, ◌^◌, length, IfOk};

use crate::ending::StartFault;
use std::env;
use std::rt::{Clock, Env};
use std::time::{SystemTime, UNIX_EPOCH};

/// The last moment that a command takes: 9999-12-31 23:59:59, in seconds from 1970.
const LAST_MOMENT: u64 = 253402300799;

/// More words than a command takes.
const MAX_WORDS: usize = 4294967295;

/// The time in seconds from 1970, at most the last moment; 0 where the clock is set before 1970 or can't be read.
pub fn moment_of<R: Clock>(rt: &R) -> u64
    ensures { result ≤ 253402300799 }
{
    let Ok(now) = SystemTime::now(rt) else {
        return 0;
    };
    match now.duration_since(UNIX_EPOCH) {
        Ok(passed) => passed.as_secs().min(LAST_MOMENT),
        Err(_) => 0,
    }
}

/// The words behind the program's name.
pub fn words_of<R: Env + AllocGlobal>(rt: &R) -> Result<Vec<String>, StartFault>
    ensures { IfOk result (λ words. length words.items < 2 ^ 32 - 1) }
{
    let mut words = env::args(rt)?;
    let _program = words.next();
    let words: Vec<String> = words.collect(rt.alloc())?;
    if words.len() < MAX_WORDS {
        Ok(words)
    } else {
        Err(StartFault::Words)
    }
}
