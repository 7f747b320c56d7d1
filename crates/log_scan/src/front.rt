//! The header and the mark.
ghost use Rattle.std.specs.Prelude.{All, ◌≡◌, ◌⊎◌, ◌+◌, ◌^◌, ◌*◌, ◌≤◌, ◌<◌, ◌↔◌, ℕ, length, IsTrue, IfOk, IfErr, OnOk, OnErr, IfSome, IfNone, IsErrOf, Some, None};
ghost use Rattle.std.specs.List.{AllByRecursion};
ghost use Rattle.site_disk.specs.Bytes.{Same};
ghost use Rattle.site_disk.specs.Causes.{HasCause};
ghost use Rattle.site_disk.specs.Images.{IsSynced, Leaves, Unchanged};
ghost use Rattle.site_disk.specs.Ledger.{MayUse, Uses};
ghost use Rattle.site_disk.specs.Seen.{seen};
ghost use Rattle.site_headers.specs.Headers.{HasHeader, log_tail};
ghost use Rattle.twin_mark.specs.Marks.{Knows, record_at};
ghost use Rattle.log_mark.specs.declared.mark.LogMark.{LogMark as MarkView};
ghost use Rattle.log_mark.specs.Layout.{IsMark, spelling as mark_spelling};
ghost use Rattle.log_files.specs.Files.{firsts_by, total};
ghost use Rattle.log_scan.specs.Fronts.{AreFilled, Names, first_at};

use gated_slots::header_read;
use log_files::place_of;
use log_mark::LogMark;
use site_disk::{Disk, Era, Failed};
use site_headers::is_log_header;
use twin_mark::{Mark, MarkFault};

/// The greatest position.
const MAX_POSITION: u64 = 1 << 48;

/// Whether the disk begins with the header of the site's log.
pub(crate) fn has_header<D: Disk>(disk: &mut D, era: &Era, site: u64) -> Result<bool, Failed>
    requires { MayUse era.now (D.ledger disk.old) }
    ensures header { IsTrue D.is_modelled → IfOk result (λ has. IsTrue has ↔ HasHeader (log_tail site) (D.bytes disk.old)) }
    ensures bytes { OnOk result (D.bytes disk.new ≡ D.bytes disk.old) }
    ensures images { OnOk result (Unchanged (D.image disk.old) (D.image disk.new)) }
    ensures crash { Leaves era.now.number Same (D.image disk.old) (D.image disk.new) }
    ensures ledger { Uses era.now 4096 0 (D.ledger disk.old) (D.ledger disk.new) }
    ensures cause { HasCause (D.ledger disk.old).faults (D.ledger disk.new).faults result }
{
    let mut page = [0; 4096];
    let found = header_read(disk, era, &mut page)?;
    Ok(found && is_log_header(&page, site))
}

/// The record of the mark, which is loaded. `None` where no record in the grammar stands there.
pub(crate) fn load_record<D: Disk>(
    disk: &mut D,
    era: &Era,
    mark: &mut Mark,
) -> Result<Option<LogMark>, Failed>
    requires era { MayUse era.now (D.ledger disk.old) }
    requires base { mark.old.base ≡ 4096 }
    ensures base { mark.new.base ≡ mark.old.base }
    ensures fits { IfOk result (λ found. IfSome found IsMark) }
    ensures found { IsTrue D.is_modelled → IfOk result (λ found. IfSome found (λ named. record_at 4096 (D.bytes disk.old) ≡ Some (mark_spelling named))) }
    ensures none { IsTrue D.is_modelled → IfOk result (λ found. IfNone found
        ((named : MarkView) → IsMark named → record_at 4096 (D.bytes disk.old) ≡ Some (mark_spelling named) → ⊥)) }
    ensures knows { IsTrue D.is_modelled → IsSynced (seen D.Disk disk.old) → IfOk result (λ found. IfSome found (λ named. Knows mark.new (D.bytes disk.old))) }
    ensures bytes { OnOk result (D.bytes disk.new ≡ D.bytes disk.old) }
    ensures images { OnOk result (Unchanged (D.image disk.old) (D.image disk.new)) }
    ensures crash { Leaves era.now.number Same (D.image disk.old) (D.image disk.new) }
    ensures ledger { Uses era.now 768 0 (D.ledger disk.old) (D.ledger disk.new) }
    ensures cause { HasCause (D.ledger disk.old).faults (D.ledger disk.new).faults result }
{
    let mut bytes = [0; 255];
    match mark.load(disk, era, &mut bytes) {
        Ok(()) => Ok(LogMark::decode(&bytes)),
        Err(MarkFault::NoMark) => Ok(None),
        Err(MarkFault::Failed) => Err(Failed),
    }
}

fn are_some(counts: &[usize]) -> bool
    ensures { IsTrue result ↔ All (λ count. 1 ≤ count) counts.now }
{
    counts.iter().all(|count| *count >= 1)
}

// Of some files only the last one may be empty, and then it isn't closed.
fn are_filled(is_closed: bool, counts: &[usize]) -> bool
    ensures { IsTrue result ↔ AreFilled is_closed counts.now }
{
    match counts.split_last() {
        Some((last, others)) => are_some(others) && (!is_closed || *last > 0),
        None => true,
    }
}

// The first positions by place of files that follow one another, and the position behind them.
fn lay_firsts(oldest: u64, first: u64, counts: &[usize]) -> ([u64; 8], u64)
    requires oldest { oldest ≤ 2 ^ 48 }
    requires first { first ≤ 2 ^ 48 }
    requires files { length counts.now ≤ 8 }
    requires each { AllByRecursion (λ count. count ≤ 256) counts.now }
    ensures firsts { result.0 ≡ firsts_by oldest first counts.now }
    ensures next { result.1 ≡ first + total counts.now }
{
    let mut firsts = [0; 8];
    let mut next = first;
    for (i, count) in counts.iter().enumerate() {
        firsts[place_of(oldest + i as u64) as usize] = next;
        next += *count as u64;
    }
    (firsts, next)
}

/// Whether a record of the mark names files with these counts of records.
pub(crate) fn names(marked: &LogMark, counts: &[usize]) -> bool
    requires fits { IsMark marked.now }
    requires held { marked.now.oldest + length counts.now ≡ marked.now.current + 1 }
    requires each { AllByRecursion (λ count. count ≤ 256) counts.now }
    ensures { IsTrue result ↔ Names marked.now counts.now }
{
    let first = marked.firsts[place_of(marked.oldest) as usize];
    let (firsts, next) = lay_firsts(marked.oldest, first, counts);
    are_filled(marked.is_closed, counts)
        && marked.oldest <= first
        && marked.firsts == firsts
        && next <= MAX_POSITION + 1
}
