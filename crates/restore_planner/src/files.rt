//! What is known of each file of the log, by the boot file's lines and by what the log's disk holds.
ghost use Rattle.std.specs.Prelude.{◌≡◌, ◌&&◌, IfOk, OnOk, map, nat_lt, not};
ghost use Rattle.std.specs.BTreeMap.{IsOrdered, values};
ghost use Rattle.std.specs.BTreeSet.{contains};
ghost use Rattle.std.specs.Ordering.{nat_cmp};
ghost use Rattle.backup_lines.specs.Spans.{AreSpans, is_newer};
ghost use Rattle.backup_lines.specs.Views.{line_of, span_view};
ghost use Rattle.restore_planner.specs.Files.{by_line, by_live_line, displaces, HasSpans, Puts, PutsHeld, span_at};
ghost use Rattle.restore_planner.specs.Gone.{AreGone};

use crate::gone::gone_copies;
use backup_lines::{FileSpan, Line};
use std::alloc::{AllocError, Global};
use std::collections::{BTreeMap, BTreeSet};

// Whether a span has a greater copy id than what a map has of its file.
fn is_newer(files: &BTreeMap<u64, FileSpan>, span: &FileSpan) -> bool
    ensures { result ≡ (nat_lt 0 span.now.file && is_newer (span_view span.now) (span_at files.now span.now.file)) }
{
    if span.file == 0 {
        return false;
    }
    match files.get(&span.file) {
        None => true,
        Some(best) => best.copy < span.copy,
    }
}

// Whether a span isn't gone, and what a map has of its file is gone or has a smaller copy id.
fn displaces(files: &BTreeMap<u64, FileSpan>, gone: &BTreeSet<u64>, span: &FileSpan) -> bool
    ensures { result ≡ (nat_lt 0 span.now.file
        && (not (contains nat_cmp gone.now span.now.copy) && displaces (span_view span.now) (span_at files.now span.now.file))) }
{
    if span.file == 0 || gone.contains(&span.copy) {
        return false;
    }
    match files.get(&span.file) {
        None => true,
        Some(best) => best.gone || best.copy < span.copy,
    }
}

// Puts a span in the place of what a map has of its file.
fn put(files: &mut BTreeMap<u64, FileSpan>, span: FileSpan) -> Result<(), AllocError>
    ensures { OnOk result (Puts (span_view span) files.old files.new) }
{
    files.insert(span.file, span)?;
    Ok(())
}

// The newest line of each file, marked as gone.
fn newest_lines(alloc: Global, lines: &[Line]) -> Result<BTreeMap<u64, FileSpan>, AllocError>
    ensures { IfOk result (λ files. HasSpans files (by_line (map line_of lines.now))) }
{
    let mut files: BTreeMap<u64, FileSpan> = BTreeMap::new(alloc);
    for line in lines {
        if let Line::Log(span) = line {
            if is_newer(&files, span) {
                put(
                    &mut files,
                    FileSpan {
                        gone: true,
                        ..*span
                    },
                )?;
            }
        }
    }
    Ok(files)
}

// Puts the newest live line of each file in place of one that is gone.
fn put_live_lines(
    files: &mut BTreeMap<u64, FileSpan>,
    lines: &[Line],
    gone: &BTreeSet<u64>,
) -> Result<(), AllocError>
    requires gone { AreGone (map line_of lines.now) gone.now }
    requires files { HasSpans files.old (by_line (map line_of lines.now)) }
    ensures { OnOk result (HasSpans files.new (by_live_line (map line_of lines.now))) }
{
    for line in lines {
        if let Line::Log(span) = line {
            if displaces(files, gone, span) {
                put(
                    files,
                    FileSpan {
                        gone: false,
                        ..*span
                    },
                )?;
            }
        }
    }
    Ok(())
}

// Puts what the log's disk holds of files that aren't backed up in place of their lines. The first of equal files comes last.
fn put_held(
    files: &mut BTreeMap<u64, FileSpan>,
    held: &[FileSpan],
    backed_up_to: u64,
) -> Result<(), AllocError>
    ensures { OnOk result (PutsHeld (map span_view held.now) backed_up_to files.old files.new) }
{
    for i in (0..held.len()).rev() {
        let span = held[i];
        if span.file > backed_up_to {
            put(
                files,
                FileSpan {
                    copy: 0,
                    gone: false,
                    ..span
                },
            )?;
        }
    }
    Ok(())
}

// The spans, in ascending order of file.
fn in_order(alloc: Global, files: &BTreeMap<u64, FileSpan>) -> Result<Vec<FileSpan>, AllocError>
    ensures spans { IfOk result (λ spans. spans.items ≡ values files.now) }
    ensures ordered { IsOrdered nat_cmp files.now }
{
    files.values().copied().collect(alloc)
}

/// One span for each file of which anything is known, in ascending order of file. Where the ring holds a file above `backed_up_to`,
/// the span is the ring's, with copy 0, whatever lines the file has; else it is that of its live line with the greatest copy id; else of
/// its gone line with the greatest, so that the file's positions stay known.
pub fn spans(
    alloc: Global,
    lines: &[Line],
    ring: &[FileSpan],
    backed_up_to: u64,
) -> Result<Vec<FileSpan>, AllocError>
    ensures { IfOk result (λ spans. AreSpans (map line_of lines.now) (map span_view ring.now) backed_up_to (map span_view spans.items)) }
{
    let gone = gone_copies(alloc, lines)?;
    let mut files = newest_lines(alloc, lines)?;
    put_live_lines(&mut files, lines, &gone)?;
    put_held(&mut files, ring, backed_up_to)?;
    in_order(alloc, &files)
}
