//! A script that is cut into lines while it comes from a source.
ghost use Rattle.std.specs.Prelude.{◌≡◌, ◌≢◌, ◌+◌, ◌-◌, ◌<◌, ◌≤◌, ◌↔◌, [], ◌++◌, length, take, drop, Ok, Some, None, true, false, ◌⊎◌, ◌^◌, IfErr, IsTrue, OnOk, IfOk, OnErr, IsErrOf, vec_len};
ghost use Rattle.site_disk.specs.Causes.{HasCause, Rose};
ghost use Rattle.onbar_grammar.specs.declared.Why.TheVariants.{TooLong as LineTooLong, ScriptTooLong as ScriptPasses};
ghost use Rattle.onbar_grammar.specs.Script.{raw_lines};
ghost use Rattle.script_lines.specs.Cutting.{CutsLine, first_fault, TakesFront, HasNoLineFeed, IsFrontLine, Gains, spelled_len, fault_at};
ghost use Rattle.script_lines.specs.Fault.{Explains, Finds, Reaches};
ghost use Rattle.script_lines.specs.declared.cutting.LineFault.TheVariants.{Failed as ReadFailed, OutOfMemory};

use memchr::memchr;
use site_disk::{Failed, Source};
use std::alloc::{AllocError, Global};
use std::marker::Model;
use thiserror::Error;

const LINE_LIMIT: usize = 8_256;

const SCRIPT_LIMIT: usize = 16_777_216;

const BUFFER_LEN: usize = 65_536;

/// Why a script's next line isn't given.
#[derive(Clone, Copy, Debug, PartialEq, Eq, Error)]
pub enum LineFault {
    /// The source failed.
    #[error("the script couldn't be read")]
    Failed,
    /// The line has more than 8,256 bytes, its line feed not counted.
    #[error("the line has more than 8,256 bytes")]
    TooLong,
    /// The script has more than 16,777,216 bytes, and the line passes them.
    #[error("the script has more than 16,777,216 bytes")]
    ScriptTooLong,
    /// There is no memory for the buffer.
    #[error("out of memory")]
    OutOfMemory,
}

impl From<Failed> for LineFault {
    ghost from_gives = { λ _ fault. fault ≡ ReadFailed };

    fn from(_: Failed) -> LineFault {
        LineFault::Failed
    }
}

impl From<AllocError> for LineFault {
    ghost from_gives = { λ _ fault. fault ≡ OutOfMemory };

    fn from(_: AllocError) -> LineFault {
        LineFault::OutOfMemory
    }
}

/// The lines of a script, one after another.
#[derive(Drop)]
pub struct Lines {
    buffer: Vec<u8>,
    line_start: usize,
    line_end: usize,
    held_start: usize,
    held_end: usize,
    begun: usize,
}

impl Model for Lines {
    ghost use Rattle.std.specs.Prelude.{◌-◌, take, drop};
    ghost use Rattle.script_lines.specs.Cutting.{LinesView, IsBuffer};

    ghost Value = { LinesView };

    ghost view = { λ l. record {
      begun = l.begun;
      line = take (l.line_end - l.line_start) (drop l.line_start l.buffer.items);
      held = take (l.held_end - l.held_start) (drop l.held_start l.buffer.items);
    } };

    ghost invariant = { λ l. IsBuffer l.buffer.items l.line_start l.line_end l.held_start l.held_end l.begun };
}

impl Lines {
    /// Begins a script. The first call of `next` takes the memory for it.
    pub fn new(alloc: Global) -> Lines
        ensures { result ≡ record { begun = 0; line = []; held = [] } }
    {
        Lines {
            buffer: Vec::new(alloc),
            line_start: 0,
            line_end: 0,
            held_start: 0,
            held_end: 0,
            begun: 0,
        }
    }

    /// The present line, without its line feed. It has at most 8,256 bytes.
    pub fn line(&self) -> &[u8]
        ensures line { result.now ≡ self.now.line }
        ensures limit { length result.now ≤ 8256 }
    {
        &self.buffer[self.line_start..self.line_end]
    }

    /// Cuts the next line: true where it is the present one now, false at the end of the script. Bytes behind the line
    /// may have been taken from the source, and are held for the next call. After a fault no line is present, and the
    /// next call meets it again, or goes on where the source failed or memory ran out.
    pub fn next<S: Source>(&mut self, source: &mut S) -> Result<bool, LineFault>
        ensures line { IsTrue S.is_modelled → result ≡ Ok true
            → CutsLine self.old self.new (self.old.held ++ S.left source.old) (self.new.held ++ S.left source.new) }
        ensures end { IsTrue S.is_modelled
            → IfOk result (λ more. (more ≡ false) ↔ (self.old.held ++ S.left source.old ≡ [])) }
        ensures at_end { IsTrue S.is_modelled → result ≡ Ok false → S.left source.new ≡ [] }
        ensures none_held { result ≡ Ok false → self.new.held ≡ [] }

        // A limit is answered exactly where the next line passes it, and once the byte has come that shows it.
        ensures limits { IsTrue S.is_modelled
            → Finds result (first_fault self.old.begun (raw_lines (self.old.held ++ S.left source.old))) }
        ensures reaches { IfErr result (Reaches self.new) }
        ensures failed { IsErrOf result LineFault.Failed → Rose (S.faults source.old) (S.faults source.new) }

        // What stays.
        ensures taken { IsTrue S.is_modelled → TakesFront (S.left source.old) (S.left source.new) }
        ensures kept { IsTrue S.is_modelled
            → OnErr result (self.new.held ++ S.left source.new ≡ self.old.held ++ S.left source.old) }
        ensures begun { result ≢ Ok true → self.new.begun ≡ self.old.begun }
        ensures none_present { result ≢ Ok true → self.new.line ≡ [] }
        ensures later { S.faults source.old ≤ S.faults source.new }

        // Each line has a byte at least, so that a script ends.
        ensures advances { result ≡ Ok true → self.old.begun < self.new.begun }
        ensures script_limit { self.new.begun ≤ 16777216 }

        // At most one buffer is read ahead.
        ensures ahead { length self.new.held ≤ 65536 }
    {
        self.forget_line();
        let line = self.find_line(source)?;
        if line.spelled_len() == 0 {
            return Ok(false);
        }
        self.cut(line);
        Ok(true)
    }

    fn forget_line(&mut self)
        ensures { self.new ≡ record { begun = self.old.begun; line = []; held = self.old.held } }
    {
        self.line_start = 0;
        self.line_end = 0;
    }

    /// The first line among the bytes held, or its fault. The first `searched` bytes held are no line feeds.
    fn front_line(&self, searched: usize) -> Result<FrontLine, LineFault>
        requires within { searched ≤ length self.now.held }
        requires searched { HasNoLineFeed (take searched self.now.held) }
        ensures front { IfOk result (λ line. IsFrontLine self.now.held line.len line.is_ended) }
        ensures within_limits { IfOk result (λ line.
            fault_at self.now.begun line.len (spelled_len line.len line.is_ended) ≡ None) }
        ensures script_limit { self.now.begun ≤ 16777216 }
        ensures ahead { length self.now.held ≤ 65536 }

        // Only a limit is answered, since no count of faults rises.
        ensures cause { IfErr result (Explains self.now 0 0) }
    {
        let held = &self.buffer[self.held_start..self.held_end];
        let line = line_in(held, searched);
        line.check_limits(self.begun)?;
        Ok(line)
    }

    /// Takes further bytes from the source; false at its end.
    fn fill<S: Source>(&mut self, source: &mut S) -> Result<bool, LineFault>
        requires { length self.old.held ≤ 8256 }
        ensures gains { Gains S.is_modelled self.old self.new (S.left source.old) (S.left source.new) }
        ensures more { result ≡ Ok true → length self.old.held < length self.new.held }
        ensures no_more { result ≡ Ok false → self.new.held ≡ self.old.held }
        ensures at_end { IsTrue S.is_modelled → result ≡ Ok false → S.left source.new ≡ [] }
        ensures script_limit { self.new.begun ≤ 16777216 }
        ensures ahead { length self.new.held ≤ 65536 }
        ensures later { S.faults source.old ≤ S.faults source.new }
        ensures cause { IfErr result (Explains self.new (S.faults source.old) (S.faults source.new)) }
    {
        self.line_start = 0;
        self.line_end = 0;
        let held_len = self.held_end - self.held_start;
        self.held_start = make_room(&mut self.buffer, self.held_start, self.held_end)?;
        self.held_end = self.held_start + held_len;
        let buffer = self.buffer.as_mut_slice();
        let read = read_behind(buffer, self.held_end, source)?;
        self.held_end += read;
        Ok(read > 0)
    }

    /// Reads until the first line stands whole among the bytes held. At the end of the script it is what is left there.
    fn find_line<S: Source>(&mut self, source: &mut S) -> Result<FrontLine, LineFault>
        requires { self.old.line ≡ [] }
        ensures gains { Gains S.is_modelled self.old self.new (S.left source.old) (S.left source.new) }
        ensures front { IfOk result (λ line. IsFrontLine self.new.held line.len line.is_ended) }
        ensures within_limits { IfOk result (λ line.
            fault_at self.new.begun line.len (spelled_len line.len line.is_ended) ≡ None) }
        ensures at_end { IsTrue S.is_modelled
            → IfOk result (λ line. line.is_ended ≡ false → S.left source.new ≡ []) }
        ensures script_limit { self.new.begun ≤ 16777216 }
        ensures ahead { length self.new.held ≤ 65536 }
        ensures later { S.faults source.old ≤ S.faults source.new }
        ensures cause { IfErr result (Explains self.new (S.faults source.old) (S.faults source.new)) }
    {
        let mut searched = 0;
        loop {
            let line = self.front_line(searched)?;
            if line.is_ended || !self.fill(source)? {
                return Ok(line);
            }
            searched = line.len;
        }
    }

    /// Makes the first line among the bytes held the present one.
    fn cut(&mut self, line: FrontLine)
        requires front { IsFrontLine self.old.held line.len line.is_ended }
        requires within_limits { fault_at self.old.begun line.len (spelled_len line.len line.is_ended) ≡ None }
        ensures { self.new ≡ record {
          begun = self.old.begun + spelled_len line.len line.is_ended;
          line = take line.len self.old.held;
          held = drop (spelled_len line.len line.is_ended) self.old.held;
        } }
    {
        let spelled_len = line.spelled_len();
        self.line_start = self.held_start;
        self.line_end = self.held_start + line.len;
        self.held_start += spelled_len;
        self.begun += spelled_len;
    }
}

/// The first line among some bytes, as far as it has come.
#[derive(Clone, Copy)]
struct FrontLine {
    len: usize,
    is_ended: bool,
}

impl FrontLine {
    fn spelled_len(self) -> usize
        requires { self.len < 2 ^ 63 }
        ensures { result ≡ spelled_len self.len self.is_ended }
    {
        if self.is_ended {
            self.len + 1
        } else {
            self.len
        }
    }

    /// Which limit the line passes that begins behind so many bytes.
    fn check_limits(self, begun: usize) -> Result<(), LineFault>
        requires len { self.len < 2 ^ 63 }
        requires begun { begun ≤ 16777216 }
        ensures within { OnOk result (fault_at begun self.len (spelled_len self.len self.is_ended) ≡ None) }
        ensures too_long { IsErrOf result LineFault.TooLong
            → fault_at begun self.len (spelled_len self.len self.is_ended) ≡ Some LineTooLong }
        ensures script_too_long { IsErrOf result LineFault.ScriptTooLong
            → fault_at begun self.len (spelled_len self.len self.is_ended) ≡ Some ScriptPasses }
        ensures others { IfErr result (λ fault.
            (fault ≡ LineFault.TooLong) ⊎ (fault ≡ LineFault.ScriptTooLong)) }
    {
        if self.len > LINE_LIMIT && begun + LINE_LIMIT < SCRIPT_LIMIT {
            Err(LineFault::TooLong)
        } else if begun + self.spelled_len() > SCRIPT_LIMIT {
            Err(LineFault::ScriptTooLong)
        } else {
            Ok(())
        }
    }
}

/// The first line among the bytes, of which the first `searched` are no line feeds.
fn line_in(bytes: &[u8], searched: usize) -> FrontLine
    requires within { searched ≤ length bytes.now }
    requires searched { HasNoLineFeed (take searched bytes.now) }
    ensures { IsFrontLine bytes.now result.len result.is_ended }
{
    match memchr(b'\n', &bytes[searched..]) {
        Some(at) => FrontLine {
            len: searched + at,
            is_ended: true,
        },
        None => FrontLine {
            len: bytes.len(),
            is_ended: false,
        },
    }
}

/// Makes room behind the bytes of a range, and answers where they begin then. They are moved only where they end with
/// the buffer.
fn make_room(buffer: &mut Vec<u8>, start: usize, end: usize) -> Result<usize, AllocError>
    requires made { 0 < vec_len buffer.old → vec_len buffer.old ≡ 65536 }
    requires in_order { start ≤ end }
    requires within { end ≤ vec_len buffer.old }
    requires short { end ≤ start + 8256 }
    ensures room { IfOk result (λ moved.
        (vec_len buffer.new ≡ 65536) × (moved + (end - start) < 65536)) }
    ensures kept { IfOk result (λ moved.
        take (end - start) (drop moved buffer.new.items) ≡ take (end - start) (drop start buffer.old.items)) }
    ensures err { OnErr result (buffer.new.items ≡ buffer.old.items) }
{
    if buffer.is_empty() {
        buffer.resize(BUFFER_LEN, 0)?;
        return Ok(0);
    }
    if end < BUFFER_LEN {
        return Ok(start);
    }
    buffer.copy_within(start..end, 0);
    Ok(0)
}

/// Reads from the source into the buffer, behind its first `held_end` bytes.
fn read_behind<S: Source>(
    buffer: &mut [u8],
    held_end: usize,
    source: &mut S,
) -> Result<usize, Failed>
    requires { held_end < length buffer.old }
    ensures within { IfOk result (λ n. held_end + n ≤ length buffer.old) }
    ensures front { take held_end buffer.new ≡ take held_end buffer.old }
    ensures taken { IsTrue S.is_modelled → IfOk result (λ n.
        S.left source.old ≡ take n (drop held_end buffer.new) ++ S.left source.new) }
    ensures at_end { IsTrue S.is_modelled → result ≡ Ok 0 → S.left source.new ≡ [] }
    ensures kept { OnErr result (S.left source.new ≡ S.left source.old) }
    ensures cause { HasCause (S.faults source.old) (S.faults source.new) result }
{
    source.read(&mut buffer[held_end..])
}
