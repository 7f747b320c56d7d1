//! A line of the boot file, and its 128 bytes.
ghost use Rattle.std.specs.Prelude.{◌≡◌, ◌≤◌, ◌<◌, ◌↔◌, length, IsTrue, IfSome, IsSomeAnd};
ghost use Rattle.backup_lines.specs.Lines.{Line as LineView};
ghost use Rattle.backup_lines.specs.Views.{archive_of, span_view, line_of};
ghost use Rattle.boot_lines.specs.LineLayout.{IsBounded, IsCopy, IsArchive, IsSpan, IsLine, archive_bytes, span_bytes, gone_bytes, spelling, archive_at, span_at, line_at};

use backup_lines::{Archive, FileSpan, Line};
use byte_fields::{u16_at, u64_at};

/// The bytes of a line.
pub const LINE_LEN: usize = 128;

/// The greatest copy id, file id, position and time.
const MAX: u64 = 1 << 48;

/// The kinds of lines.
const ARCHIVE: u8 = 1;

const LOG: u8 = 2;

const GONE: u8 = 3;

#[tactic(auto, unfolding(crate::specs::LineLayout::archive_bytes))]
fn archive_bytes(archive: &Archive) -> [u8; 128]
    ensures { result ≡ archive_bytes (archive_of archive.now) }
{
    let mut slot = [0; LINE_LEN];
    slot[0] = ARCHIVE;
    slot[1] = archive.level;
    slot[2..4].copy_from_slice(&archive.space.to_be_bytes());
    slot[8..16].copy_from_slice(&archive.copy.to_be_bytes());
    slot[16..24].copy_from_slice(&archive.at.to_be_bytes());
    slot[24..32].copy_from_slice(&archive.base.to_be_bytes());
    slot[32..40].copy_from_slice(&archive.base_copy.to_be_bytes());
    slot[40..48].copy_from_slice(&archive.low.to_be_bytes());
    slot
}

#[tactic(auto, unfolding(crate::specs::LineLayout::span_bytes))]
fn span_bytes(span: &FileSpan) -> [u8; 128]
    ensures { result ≡ span_bytes (span_view span.now) }
{
    let (has_reset, target) = match span.reset {
        Some(target) => (1, target),
        None => (0, 0),
    };
    let mut slot = [0; LINE_LEN];
    slot[0] = LOG;
    slot[1] = has_reset;
    slot[8..16].copy_from_slice(&span.copy.to_be_bytes());
    slot[16..24].copy_from_slice(&span.file.to_be_bytes());
    slot[24..32].copy_from_slice(&span.first.to_be_bytes());
    slot[32..40].copy_from_slice(&span.last.to_be_bytes());
    slot[40..48].copy_from_slice(&target.to_be_bytes());
    slot[48..56].copy_from_slice(&span.before.to_be_bytes());
    slot[56..64].copy_from_slice(&span.time.to_be_bytes());
    slot
}

#[tactic(auto, unfolding(crate::specs::LineLayout::gone_bytes))]
fn gone_bytes(copy: u64) -> [u8; 128]
    ensures { result ≡ gone_bytes copy }
{
    let mut slot = [0; LINE_LEN];
    slot[0] = GONE;
    slot[8..16].copy_from_slice(&copy.to_be_bytes());
    slot
}

/// The 128 bytes of a line.
pub fn encode_line(line: &Line) -> [u8; 128]
    ensures { result ≡ spelling (line_of line.now) }
{
    match line {
        Line::Archive(archive) => archive_bytes(archive),
        Line::Log(span) => span_bytes(span),
        Line::Gone { copy } => gone_bytes(*copy),
    }
}

#[tactic(auto, unfolding(crate::specs::LineLayout::archive_at))]
fn archive_at(slot: &[u8]) -> Archive
    requires { length slot.now ≡ 128 }
    ensures { archive_of result ≡ archive_at slot.now }
{
    Archive {
        space: u16_at(slot, 2),
        level: slot[1],
        at: u64_at(slot, 16),
        base: u64_at(slot, 24),
        base_copy: u64_at(slot, 32),
        low: u64_at(slot, 40),
        copy: u64_at(slot, 8),
    }
}

#[tactic(auto, unfolding(crate::specs::LineLayout::span_at))]
fn span_at(slot: &[u8]) -> FileSpan
    requires { length slot.now ≡ 128 }
    ensures { span_view result ≡ span_at slot.now }
{
    let reset = if slot[1] == 1 {
        Some(u64_at(slot, 40))
    } else {
        None
    };
    FileSpan {
        file: u64_at(slot, 16),
        first: u64_at(slot, 24),
        last: u64_at(slot, 32),
        reset,
        before: u64_at(slot, 48),
        time: u64_at(slot, 56),
        copy: u64_at(slot, 8),
        gone: false,
    }
}

// The line whose fields stand in a slot.
#[tactic(auto, unfolding(crate::specs::LineLayout::line_at))]
fn line_at(slot: &[u8]) -> Line
    requires { length slot.now ≡ 128 }
    ensures { line_of result ≡ line_at slot.now }
{
    match slot[0] {
        1 => Line::Archive(archive_at(slot)),
        2 => Line::Log(span_at(slot)),
        _ => Line::Gone {
            copy: u64_at(slot, 8),
        },
    }
}

fn is_bounded(number: u64) -> bool
    ensures { IsTrue result ↔ IsBounded number }
{
    number <= MAX
}

fn is_copy(copy: u64) -> bool
    ensures { IsTrue result ↔ IsCopy copy }
{
    1 <= copy && copy <= MAX
}

fn is_archive(archive: &Archive) -> bool
    ensures { IsTrue result ↔ IsArchive (archive_of archive.now) }
{
    let builds_on_one = if archive.level == 0 {
        archive.base == 0 && archive.base_copy == 0
    } else {
        archive.base_copy >= 1
    };
    let is_placed = archive.level <= 2 && archive.space < 16 && is_copy(archive.copy);
    let is_bounded = is_bounded(archive.at)
        && is_bounded(archive.base)
        && is_bounded(archive.base_copy)
        && is_bounded(archive.low);
    builds_on_one && is_placed && is_bounded
}

fn is_span(span: &FileSpan) -> bool
    ensures { IsTrue result ↔ IsSpan (span_view span.now) }
{
    let goes_back = match span.reset {
        Some(target) => target < span.first,
        None => true,
    };
    let has_order = 1 <= span.file && span.file <= span.first && span.first <= span.last;
    let is_bounded = is_bounded(span.last) && is_bounded(span.before) && is_bounded(span.time);
    goes_back && has_order && is_bounded && is_copy(span.copy) && !span.gone
}

/// Whether the line has its place in the boot file: its numbers are within their bounds and fit one another.
pub fn is_line(line: &Line) -> bool
    ensures { IsTrue result ↔ IsLine (line_of line.now) }
{
    match line {
        Line::Archive(archive) => is_archive(archive),
        Line::Log(span) => is_span(span),
        Line::Gone { copy } => is_copy(*copy),
    }
}

/// The line whose 128 bytes these are. `None` where they are no line's.
pub fn decode_line(slot: &[u8; 128]) -> Option<Line>
    ensures found { IfSome result (λ line. IsLine (line_of line) × (slot.now ≡ spelling (line_of line))) }
    ensures only { (line : LineView) → IsLine line → slot.now ≡ spelling line → IsSomeAnd result (λ found. line_of found ≡ line) }
{
    let line = line_at(slot);
    if !is_line(&line) {
        return None;
    }
    (encode_line(&line) == *slot).then_some(line)
}
