//! The parts of a word or a line.
ghost use Rattle.std.specs.Prelude.{◌≡◌, None, Some, MatchOption};
ghost use Rattle.onbar_grammar.specs.Parts.{parted_at};

use memchr::memchr;

/// The parts before and behind the first such byte, or `None` where there is none.
pub fn parts_at(byte: u8, bytes: &[u8]) -> Option<(&[u8], &[u8])>
    ensures { MatchOption result (parted_at byte bytes.now ≡ None)
        (λ parts. parted_at byte bytes.now ≡ Some (parts.0.now, parts.1.now)) }
{
    let at = memchr(byte, bytes)?;
    Some((&bytes[..at], &bytes[at + 1..]))
}
