// The bytes of a disk in memory, and what it was asked.
ghost use Rattle.std.specs.Prelude.{◌≡◌, ◌+◌, ◌-◌, ◌<◌, ◌≤◌, [], ◌∷◌, length, vec_len, IsOk, IsSome, IfOk, OnOk, OnErr};
ghost use Rattle.std.specs.Vec.{vec_capacity};
ghost use Rattle.site_disk.specs.Bytes.{written};
ghost use Rattle.site_disk.specs.Past.{put, synced, contents, Pending, past_at, IsInOrder};
ghost use Rattle.site_disk.specs.Recorded.{past_of, call_era, calls_up_to, end_of, IsSound};

use super::crash::torn_bytes;
use crate::OutOfMemory;
use std::alloc::{AllocError, Global};

/// A write, with the place of its bytes among the bytes of all writes, or a sync.
#[derive(Clone, Copy)]
pub enum Call {
    Write {
        era: u64,
        at: usize,
        from: usize,
        len: usize,
    },
    Sync {
        era: u64,
    },
}

impl Call {
    pub fn era(&self) -> u64
        ensures { result ≡ call_era self.now }
    {
        match self {
            Call::Write { era, .. } | Call::Sync { era } => *era,
        }
    }
}

/// Bytes, with each write and sync since they were handed in.
#[derive(Drop)]
pub struct Recording {
    alloc: Global,
    start: Option<Vec<u8>>,
    bytes: Vec<u8>,
    pieces: Vec<u8>,
    calls: Vec<Call>,
    ghost sound: { IsSound start bytes.items pieces.items calls.items },
}

/// Writes over what is there and past it; where memory runs out nothing changes.
pub fn write_over(bytes: &mut Vec<u8>, at: usize, piece: &[u8]) -> Result<(), AllocError>
    requires { at ≤ length bytes.old.items }
    ensures ok { OnOk result (bytes.new.items ≡ written at piece.now bytes.old.items) }
    ensures err { OnErr result (bytes.new.items ≡ bytes.old.items) }
    ensures capacity { vec_capacity bytes.old ≤ vec_capacity bytes.new }
    ensures len { vec_len bytes.new ≤ vec_len bytes.old + length piece.now }
    ensures succeeds { vec_len bytes.old + length piece.now ≤ vec_capacity bytes.old → IsOk result }
{
    let over = piece.len().min(bytes.len() - at);
    bytes.extend_from_slice(&piece[over..])?;
    bytes[at..at + over].copy_from_slice(&piece[..over]);
    Ok(())
}

// Writes, and notes the write; where memory runs out nothing changes but the spare pieces.
fn write_and_note(
    bytes: &mut Vec<u8>,
    pieces: &mut Vec<u8>,
    calls: &mut Vec<Call>,
    era: u64,
    at: usize,
    piece: &[u8],
) -> Result<(), AllocError>
    requires within { at ≤ length bytes.old.items }
    requires there { end_of calls.old.items ≤ length pieces.old.items }
    ensures ok { OnOk result (bytes.new.items ≡ written at piece.now bytes.old.items) }
    ensures err { OnErr result (bytes.new.items ≡ bytes.old.items) }
    ensures noted { OnOk result (past_of pieces.new.items calls.new.items ≡ put era at piece.now ∷ past_of pieces.old.items calls.old.items) }
    ensures not_noted { OnErr result (past_of pieces.new.items calls.new.items ≡ past_of pieces.old.items calls.old.items) }
    ensures still_there { end_of calls.new.items ≤ length pieces.new.items }
    ensures bytes_room { vec_capacity bytes.old - vec_len bytes.old ≤ vec_capacity bytes.new - vec_len bytes.new + length piece.now }
    ensures pieces_room { vec_capacity pieces.old - vec_len pieces.old ≤ vec_capacity pieces.new - vec_len pieces.new + length piece.now }
    ensures calls_room { vec_capacity calls.old - vec_len calls.old ≤ vec_capacity calls.new - vec_len calls.new + 1 }
    ensures succeeds { vec_len calls.old < vec_capacity calls.old → vec_len bytes.old + length piece.now ≤ vec_capacity bytes.old → vec_len pieces.old + length piece.now ≤ vec_capacity pieces.old → IsOk result }
{
    let from = pieces.len();
    calls.reserve(1)?;
    pieces.extend_from_slice(piece)?;
    write_over(bytes, at, piece)?;
    let write = Call::Write {
        era,
        at,
        from,
        len: piece.len(),
    };
    match calls.push(write) {
        Ok(()) => Ok(()),
        Err(_) => unreachable!(),
    }
}

// How many calls were made up to the moment after the first of an era.
fn calls_before(calls: &[Call], era: u64, first: u64) -> usize
    ensures { result ≡ calls_up_to era first calls.now }
{
    let later = calls.iter().filter(|call| call.era() > era).count();
    let same = calls.iter().filter(|call| call.era() == era).count();
    calls
        .len()
        .saturating_sub(later + same.saturating_sub(first as usize))
}

impl Recording {
    ghost use Rattle.site_disk.specs.Recording.{first_bytes, past_events, calls_room, bytes_room};

    /// Takes no memory.
    pub fn new(alloc: Global, bytes: Vec<u8>) -> Recording
        ensures start { first_bytes result ≡ bytes.items }
        ensures past { past_events result ≡ [] }
    {
        Recording {
            alloc,
            start: None,
            bytes,
            pieces: Vec::new(alloc),
            calls: Vec::new(alloc),
        }
    }

    pub fn alloc(&self) -> Global {
        self.alloc
    }

    /// The bytes now.
    pub fn bytes(&self) -> &[u8]
        ensures { result.now ≡ contents (first_bytes self.now) (past_events self.now) }
    {
        &self.bytes
    }

    /// Writes at a place up to the end. Where memory runs out nothing is written.
    pub fn put(&mut self, era: u64, at: usize, piece: &[u8]) -> Result<(), OutOfMemory>
        requires { at ≤ length (contents (first_bytes self.old) (past_events self.old)) }
        ensures start { first_bytes self.new ≡ first_bytes self.old }
        ensures past { OnOk result (past_events self.new ≡ put era at piece.now ∷ past_events self.old) }
        ensures err { OnErr result (past_events self.new ≡ past_events self.old) }
        ensures calls_room { calls_room self.old ≤ calls_room self.new + 1 }
        ensures bytes_room { bytes_room self.old ≤ bytes_room self.new + length piece.now }
        ensures succeeds { 0 < calls_room self.old → length piece.now ≤ bytes_room self.old → IsOk result }
    {
        self.keep_start()?;
        write_and_note(
            &mut self.bytes,
            &mut self.pieces,
            &mut self.calls,
            era,
            at,
            piece,
        )?;
        Ok(())
    }

    /// Notes a sync. Where memory runs out nothing changes.
    pub fn sync(&mut self, era: u64) -> Result<(), OutOfMemory>
        ensures start { first_bytes self.new ≡ first_bytes self.old }
        ensures past { OnOk result (past_events self.new ≡ synced era ∷ past_events self.old) }
        ensures err { OnErr result (past_events self.new ≡ past_events self.old) }
        ensures calls_room { calls_room self.old ≤ calls_room self.new + 1 }
        ensures bytes_room { bytes_room self.new ≡ bytes_room self.old }
        ensures succeeds { 0 < calls_room self.old → IsOk result }
    {
        self.calls.push(Call::Sync { era })?;
        Ok(())
    }

    /// Takes room for so many more writes and syncs, whose writes have together so many bytes.
    pub fn reserve(&mut self, calls: usize, bytes: usize) -> Result<(), OutOfMemory>
        ensures start { first_bytes self.new ≡ first_bytes self.old }
        ensures past { past_events self.new ≡ past_events self.old }
        ensures calls_room { OnOk result (calls ≤ calls_room self.new) }
        ensures bytes_room { OnOk result (bytes ≤ bytes_room self.new) }
    {
        self.keep_start()?;
        self.calls.reserve(calls)?;
        self.pieces.reserve(bytes)?;
        self.bytes.reserve(bytes)?;
        Ok(())
    }

    // What stood there first.
    fn start(&self) -> &[u8]
        ensures { result.now ≡ first_bytes self.now }
    {
        match &self.start {
            Some(start) => start,
            None => &self.bytes,
        }
    }

    /// What a crash leaves after so many calls of an era, by this seed.
    pub fn torn(&self, era: u64, calls: u64, seed: u64) -> Result<Vec<u8>, OutOfMemory>
        requires { IsInOrder (first_bytes self.now) (past_events self.now) }
        ensures { IfOk result (λ bytes. Pending (first_bytes self.now) (past_at era calls (past_events self.now)) bytes.items) }
    {
        let count = calls_before(&self.calls, era, calls);
        Ok(torn_bytes(
            self.alloc,
            self.start(),
            &self.pieces,
            &self.calls[..count],
            seed,
        )?)
    }

    // Copies what stands there before the first write.
    fn keep_start(&mut self) -> Result<(), AllocError>
        ensures start { first_bytes self.new ≡ first_bytes self.old }
        ensures past { past_events self.new ≡ past_events self.old }
        ensures kept { OnOk result (IsSome self.new.start) }
        ensures calls_room { calls_room self.old ≤ calls_room self.new }
        ensures bytes_room { bytes_room self.old ≤ bytes_room self.new }
        ensures succeeds { 0 < calls_room self.old → IsOk result }
    {
        if self.start.is_none() {
            self.start = Some(Vec::from_slice(self.alloc, &self.bytes)?);
        }
        Ok(())
    }
}
