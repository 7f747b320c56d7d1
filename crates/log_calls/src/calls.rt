//! The current file closed, and a file marked.
ghost use Rattle.std.specs.Prelude.{◌≡◌, ◌+◌, ◌-◌, ◌<◌, ◌≤◌, ◌^◌, [], ◌∷◌, ℕ, IsTrue, IfErr, OnOk};
ghost use Rattle.site_disk.specs.Ledger.{MayUse, Spends};
ghost use Rattle.log_files.specs.Files.{LogFiles, closed_id, with_backed};
ghost use Rattle.logical_log.specs.Rings.{IsMade, IsOpen, TellsOf, disk_of};
ghost use Rattle.walks.specs.Courses.{make};
ghost use Rattle.site_worlds.specs.Moves.{mark_backed};
ghost use Rattle.site_courses.specs.Courses.{close_current};
ghost use Rattle.site_layouts.specs.Stages.{site_stage};
ghost use Rattle.site_core.specs.Appending.{MayMake};
ghost use Rattle.site_core.specs.Calls.{CallFrom};
ghost use Rattle.site_core.specs.Faults.{FailsOnLog, fault_of};
ghost use Rattle.site_core.specs.Layers.{layers};
ghost use Rattle.log_calls.specs.Closing.{close_moves, with_closed};

use site_core::{Site, SiteFault};
use site_disk::{Disk, Era};
use site_model::DiskName;

/// Closes the current file of a site's log, if that is open and has records. Where it closed it a new era begins.
pub fn close_current_file<D: Disk>(site: &mut Site<D>, era: &mut Era) -> Result<(), SiteFault>
    requires era { MayUse era.old (D.ledger (disk_of site.old.log)) }
    requires left { era.old.number < 2 ^ 64 - 1 }
    requires opened { IsOpen site.old.log }

    // From each fit site from which its moves may be made it makes them alone.
    ensures closes { IsTrue D.is_modelled → CallFrom (site_stage (layers D.Disk)) (MayMake close_moves) 2
        era.old.number era.new.number site.old site.new close_current (fault_of result) }
    ensures cause { IfErr result (FailsOnLog (D.ledger (disk_of site.old.log)).faults (D.ledger (disk_of site.new.log)).faults) }

    // Nothing but the log's value is another.
    ensures others { site.new ≡ record site.old { log = site.new.log } }
    ensures made { IsMade site.new.log }
    ensures opened { OnOk result (IsOpen site.new.log) }
    ensures told { (files : LogFiles) → TellsOf files site.old.log → OnOk result (TellsOf (with_closed files) site.new.log) }
    ensures ledger { Spends era.old era.new 1 4866 (D.ledger (disk_of site.old.log)) (D.ledger (disk_of site.new.log)) }
    ensures eras { era.new.number ≤ era.old.number + 1 }
{
    match site.log.close_current(era) {
        Ok(true) => {
            era.next();
            Ok(())
        }
        Ok(false) => Ok(()),
        Err(_) => Err(SiteFault::DiskFault(DiskName::Log)),
    }
}

/// Marks the file behind those that are backed up as backed up too. It begins a new era where it ended well.
pub fn mark_file_backed_up<D: Disk>(
    site: &mut Site<D>,
    era: &mut Era,
    file: u64,
) -> Result<(), SiteFault>
    requires era { MayUse era.old (D.ledger (disk_of site.old.log)) }
    requires left { era.old.number < 2 ^ 64 - 1 }
    requires opened { IsOpen site.old.log }
    requires next { (files : LogFiles) → TellsOf files site.old.log → file ≡ files.backed + 1 }
    requires closed { (files : LogFiles) → TellsOf files site.old.log → file ≤ closed_id files }

    // From each fit site from which the file may be marked it does that alone.
    ensures marks { IsTrue D.is_modelled → CallFrom (site_stage (layers D.Disk)) (MayMake (λ at. mark_backed file ∷ [])) 2
        era.old.number era.new.number site.old site.new (λ at. make (mark_backed file ∷ [])) (fault_of result) }
    ensures cause { IfErr result (FailsOnLog (D.ledger (disk_of site.old.log)).faults (D.ledger (disk_of site.new.log)).faults) }

    ensures others { site.new ≡ record site.old { log = site.new.log } }
    ensures made { IsMade site.new.log }
    ensures opened { OnOk result (IsOpen site.new.log) }
    ensures told { (files : LogFiles) → TellsOf files site.old.log → OnOk result (TellsOf (with_backed files file) site.new.log) }
    ensures ledger { Spends era.old era.new 1 4866 (D.ledger (disk_of site.old.log)) (D.ledger (disk_of site.new.log)) }
    ensures eras { era.new.number ≤ era.old.number + 1 }
{
    match site.log.mark_backed_up(era, file) {
        Ok(()) => {
            era.next();
            Ok(())
        }
        Err(_) => Err(SiteFault::DiskFault(DiskName::Log)),
    }
}
