// The standard input and output.
ghost use Rattle.std.specs.Prelude.{◌≡◌, ◌<◌, ◌≤◌, [], length, false, IfOk};

use crate::errors::Errors;
use site_disk::{Failed, Sink, Source};
use std::io::{self, ErrorKind, Input, Print, Read};
use std::marker::PhantomData;

/// The standard input.
#[derive(Drop)]
pub struct StdSource<'a, R: Input> {
    reader: R::Reader,
    rt: PhantomData<&'a R>,
    errors: Errors,
}

// One read, again where a signal interrupts it.
fn read_some<R: Read>(reader: &mut R, into: &mut [u8]) -> io::Result<usize>
    ensures { IfOk result (λ n. n ≤ length into.old) }
{
    for _ in 0..u64::MAX {
        match reader.read(into) {
            Err(error) if error.kind() == ErrorKind::Interrupted => {}
            answer => return answer,
        }
    }
    Err(io::Error::from(ErrorKind::Interrupted))
}

impl<'a, R: Input> StdSource<'a, R> {
    /// A source that has met no error.
    pub fn new(rt: &'a R) -> StdSource<'a, R>
        ensures { ⟦<StdSource<'a, R> as Source>⟧.faults result ≡ 0 }
    {
        StdSource {
            reader: rt.reader(),
            rt: PhantomData,
            errors: Errors::none(),
        }
    }

    /// The last error that the system answered.
    pub fn last_error(&self) -> Option<io::Error>
        ensures { result ≡ self.now.errors.last }
    {
        self.errors.last
    }
}

impl<R: Input> Source for StdSource<'_, R> {
    ghost is_modelled = { false };

    ghost left = { λ _. [] };

    ghost faults = { λ source. source.errors.count };

    fn read(&mut self, into: &mut [u8]) -> Result<usize, Failed> {
        match read_some(&mut self.reader, into) {
            Ok(n) => Ok(n),
            Err(error) => Err(self.errors.add(error)),
        }
    }
}

/// The standard output. Nothing is kept back: what a call took has been handed to the system.
#[derive(Drop)]
pub struct StdSink<'a, R: Print> {
    rt: &'a R,
    errors: Errors,
}

// One write that takes a byte at least of a piece that isn't empty, again where a signal interrupts it.
fn write_some<R: Print>(rt: &R, piece: &[u8]) -> io::Result<usize>
    ensures bound { IfOk result (λ n. n ≤ length piece.now) }
    ensures some { IfOk result (λ n. 0 < length piece.now → 0 < n) }
{
    for _ in 0..u64::MAX {
        match rt.write_some(piece) {
            Ok(0) if !piece.is_empty() => return Err(io::Error::from(ErrorKind::WriteZero)),
            Err(error) if error.kind() == ErrorKind::Interrupted => {}
            answer => return answer,
        }
    }
    Err(io::Error::from(ErrorKind::Interrupted))
}

impl<'a, R: Print> StdSink<'a, R> {
    /// A sink that has met no error.
    pub fn new(rt: &'a R) -> StdSink<'a, R>
        ensures { ⟦<StdSink<'a, R> as Sink>⟧.faults result ≡ 0 }
    {
        StdSink {
            rt,
            errors: Errors::none(),
        }
    }

    /// The last error that the system answered.
    pub fn last_error(&self) -> Option<io::Error>
        ensures { result ≡ self.now.errors.last }
    {
        self.errors.last
    }
}

impl<R: Print> Sink for StdSink<'_, R> {
    ghost is_modelled = { false };

    ghost taken = { λ _. [] };

    ghost faults = { λ sink. sink.errors.count };

    fn write(&mut self, piece: &[u8]) -> Result<usize, Failed> {
        match write_some(self.rt, piece) {
            Ok(n) => Ok(n),
            Err(error) => Err(self.errors.add(error)),
        }
    }
}
