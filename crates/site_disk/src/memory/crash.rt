// What a crash leaves of a disk in memory.
ghost use Rattle.std.specs.Prelude.{◌≡◌, ◌+◌, ◌^◌, ◌<◌, ◌≤◌, [], ◌∷◌, length, IfOk, OnOk};
ghost use Rattle.site_disk.specs.Bytes.{Torn};
ghost use Rattle.site_disk.specs.Past.{contents, Pending, NoGap, TornBy, IsInOrder};
ghost use Rattle.site_disk.specs.Recorded.{event_of, past_of, call_end, end_of};

use super::recording::{Call, write_over};
use std::alloc::{AllocError, Global};
use std::hash::{FoldHasher, Hasher};

// The number that a seed draws for a call.
fn drawn(seed: u64, index: usize) -> u64 {
    let mut hasher = FoldHasher::default();
    hasher.write_u64(seed);
    hasher.write_usize(index);
    hasher.finish()
}

// Writes a part of a write, unless it would leave a gap.
fn write_part(bytes: &mut Vec<u8>, at: usize, part: &[u8]) -> Result<(), AllocError>
    ensures { OnOk result (Torn at (length part.now) bytes.old.items bytes.new.items) }
{
    if at > bytes.len() {
        return Ok(());
    }
    write_over(bytes, at, part)
}

// Puts one byte in place of each byte that is there in a range.
fn spoil(bytes: &mut [u8], at: usize, len: usize, with: u8)
    ensures { Torn at len bytes.old bytes.new }
{
    if at < bytes.len() {
        let end = at + len.min(bytes.len() - at);
        bytes[at..end].fill(with);
    }
}

// What a crash leaves of a write: all of it, nothing, a front, a back, or bytes that were never written.
fn tear(bytes: &mut Vec<u8>, at: usize, piece: &[u8], drawn: u64) -> Result<(), AllocError>
    requires { at + length piece.now < 2 ^ 64 }
    ensures { OnOk result (Torn at (length piece.now) bytes.old.items bytes.new.items) }
{
    let cut = (drawn / 5) as usize % (piece.len() + 1);
    match drawn % 5 {
        0 => write_part(bytes, at, piece),
        1 => write_part(bytes, at, &piece[..cut]),
        2 => write_part(bytes, at + cut, &piece[cut..]),
        3 => {
            spoil(bytes, at, piece.len(), (drawn >> 56) as u8);
            Ok(())
        }
        _ => Ok(()),
    }
}

// Does again what a call did: whole in one, torn in the other.
fn replay(
    whole: &mut Vec<u8>,
    torn: &mut Vec<u8>,
    pieces: &[u8],
    call: Call,
    drawn: u64,
) -> Result<(), AllocError>
    requires there { call_end call ≤ length pieces.now }
    requires no_gap { NoGap whole.old.items (event_of pieces.now call) }
    ensures whole { OnOk result (whole.new.items ≡ contents whole.old.items (event_of pieces.now call ∷ [])) }
    ensures torn { OnOk result (TornBy (event_of pieces.now call) whole.old.items torn.old.items torn.new.items) }
{
    match call {
        Call::Write { at, from, len, .. } => {
            let piece = &pieces[from..][..len];
            write_over(whole, at, piece)?;
            tear(torn, at, piece, drawn)
        }
        Call::Sync { .. } => {
            torn.clear();
            torn.extend_from_slice(whole)
        }
    }
}

/// What a crash leaves after these calls, by this seed.
pub fn torn_bytes(
    alloc: Global,
    start: &[u8],
    pieces: &[u8],
    calls: &[Call],
    seed: u64,
) -> Result<Vec<u8>, AllocError>
    requires there { end_of calls.now ≤ length pieces.now }
    requires in_order { IsInOrder start.now (past_of pieces.now calls.now) }
    ensures { IfOk result (λ bytes. Pending start.now (past_of pieces.now calls.now) bytes.items) }
{
    let mut whole = Vec::from_slice(alloc, start)?;
    let mut torn = Vec::from_slice(alloc, start)?;
    for (i, call) in calls.iter().enumerate() {
        replay(&mut whole, &mut torn, pieces, *call, drawn(seed, i))?;
    }
    Ok(torn)
}
