//! Which copies are gone, and the archives that aren't.
ghost use Rattle.std.specs.Prelude.{◌≡◌, IfOk, map};
ghost use Rattle.backup_lines.specs.Lines.{live_archives};
ghost use Rattle.backup_lines.specs.Views.{archive_of, line_of};
ghost use Rattle.restore_planner.specs.Gone.{AreGone};

use backup_lines::{Archive, Line};
use std::alloc::{AllocError, Global};
use std::collections::BTreeSet;

// The copy ids that the lines say are gone.
pub(crate) fn gone_copies(alloc: Global, lines: &[Line]) -> Result<BTreeSet<u64>, AllocError>
    ensures { IfOk result (AreGone (map line_of lines.now)) }
{
    let mut gone = BTreeSet::new(alloc);
    for line in lines {
        if let Line::Gone { copy } = line {
            gone.insert(*copy)?;
        }
    }
    Ok(gone)
}

// The archives that aren't gone, in the order of their lines.
pub(crate) fn live_archives(
    alloc: Global,
    lines: &[Line],
    gone: &BTreeSet<u64>,
) -> Result<Vec<Archive>, AllocError>
    requires gone { AreGone (map line_of lines.now) gone.now }
    ensures { IfOk result (λ archives. map archive_of archives.items ≡ live_archives (map line_of lines.now)) }
{
    let mut archives = Vec::new(alloc);
    for line in lines {
        if let Line::Archive(archive) = line {
            if !gone.contains(&archive.copy) {
                archives.push(*archive)?;
            }
        }
    }
    Ok(archives)
}
