//! The fields of the record, laid and read.
ghost use Rattle.std.specs.Prelude.{◌≡◌, ◌≤◌, ◌↔◌, ◌+◌, length, IsTrue};
ghost use Rattle.std.specs.List.{AllByRecursion};
ghost use Rattle.log_mark.specs.Layout.{IsMark, AreBounded, front, firsts_bytes, mark_at, firsts_at};

use crate::LogMark;
use byte_fields::u64_at;

/// The greatest id, position and time.
const MAX: u64 = 1 << 48;

/// The byte of a current file that is open, and of one that is closed.
const OPEN: u8 = 1;

const CLOSED: u8 = 2;

/// The fields before the first positions.
#[tactic(auto, unfolding(crate::specs::Layout::front))]
pub(crate) fn front_of(mark: &LogMark) -> [u8; 40]
    ensures { result ≡ front mark.now }
{
    let mut front = [0; 40];
    front[0..8].copy_from_slice(&mark.current.to_be_bytes());
    front[8..16].copy_from_slice(&mark.oldest.to_be_bytes());
    front[16..24].copy_from_slice(&mark.backed_up_to.to_be_bytes());
    front[24..32].copy_from_slice(&mark.before.to_be_bytes());
    front[32] = if mark.is_closed { CLOSED } else { OPEN };
    front
}

/// The first positions.
#[tactic(auto, unfolding(crate::specs::Layout::firsts_bytes))]
pub(crate) fn firsts_of(firsts: &[u64; 8]) -> [u8; 64]
    ensures { result ≡ firsts_bytes firsts.now }
{
    let mut bytes = [0; 64];
    for (i, first) in firsts.iter().enumerate() {
        bytes[8 * i..8 * i + 8].copy_from_slice(&first.to_be_bytes());
    }
    bytes
}

fn firsts_at(bytes: &[u8]) -> [u64; 8]
    requires { length bytes.now ≡ 255 }
    ensures { result ≡ firsts_at bytes.now }
{
    [
        u64_at(bytes, 40),
        u64_at(bytes, 48),
        u64_at(bytes, 56),
        u64_at(bytes, 64),
        u64_at(bytes, 72),
        u64_at(bytes, 80),
        u64_at(bytes, 88),
        u64_at(bytes, 96),
    ]
}

/// The fields that stand in a record.
#[tactic(auto, unfolding(crate::specs::Layout::mark_at))]
pub(crate) fn read(bytes: &[u8; 255]) -> LogMark
    ensures { result ≡ mark_at bytes.now }
{
    let bytes = &bytes[..];
    LogMark {
        current: u64_at(bytes, 0),
        oldest: u64_at(bytes, 8),
        backed_up_to: u64_at(bytes, 16),
        before: u64_at(bytes, 24),
        is_closed: bytes[32] == CLOSED,
        firsts: firsts_at(bytes),
    }
}

fn are_bounded(numbers: &[u64]) -> bool
    ensures { IsTrue result ↔ AreBounded numbers.now }
{
    numbers.iter().all(|number| *number <= MAX)
}

/// Whether the fields may stand together.
pub(crate) fn is_mark(mark: &LogMark) -> bool
    ensures { IsTrue result ↔ IsMark mark.now }
{
    let is_ring = 1 <= mark.oldest
        && mark.oldest <= mark.current
        && mark.current - mark.oldest <= 7;
    let is_backed = mark.backed_up_to <= mark.current
        && mark.oldest <= mark.backed_up_to.saturating_add(1);
    let is_bounded = mark.current <= MAX && mark.before <= MAX;
    is_ring && is_backed && is_bounded && are_bounded(&mark.firsts)
}
