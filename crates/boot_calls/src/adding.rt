//! Lines added to the boot file.
ghost use Rattle.std.specs.Prelude.{◌≡◌, ◌++◌, ◌+◌, ◌*◌, ◌-◌, ◌<◌, ◌≤◌, ◌^◌, [], ◌∷◌, ℕ, List, Option, length, IsTrue, IfErr, IsErrOf, OnOk};
ghost use Rattle.std.specs.List.{AllByRecursion};
ghost use Rattle.site_disk.specs.Causes.{Rose};
ghost use Rattle.site_disk.specs.Ledger.{MayUse, Spends};
ghost use Rattle.backup_lines.specs.Lines.{Line as LineView};
ghost use Rattle.backup_lines.specs.Spans.{Active};
ghost use Rattle.boot_lines.specs.LineLayout.{IsLine, lines_of};
ghost use Rattle.boot_file.specs.Boots.{IsMade, IsOpen, TellsOf, disk_of, lines_in};
ghost use Rattle.walks.specs.Courses.{make};
ghost use Rattle.site_worlds.specs.Allowed.{CanMove};
ghost use Rattle.site_worlds.specs.Moves.{append_lines};
ghost use Rattle.site_model.specs.declared.disk_name.DiskName.TheVariants.{Boot as BootDisk};
ghost use Rattle.site_layouts.specs.Stages.{site_stage};
ghost use Rattle.site_core.specs.Calls.{CallFrom};
ghost use Rattle.site_core.specs.Faults.{fault_of};
ghost use Rattle.site_core.specs.Layers.{layers};
ghost use Rattle.boot_calls.specs.Adding.{IsAddFault};

use backup_lines::Line;
use boot_file::BootFault;
use site_core::{Site, SiteFault};
use site_disk::{Disk, Era};
use site_model::DiskName;

/// Adds lines to a site's boot file, which has room for them. Each image of its disk has all of them or none. It begins a new era where it
/// ended well.
pub fn add_lines<D: Disk>(
    site: &mut Site<D>,
    era: &mut Era,
    lines: &[Line],
) -> Result<(), SiteFault>
    requires era { MayUse era.old (D.ledger (disk_of site.old.boot)) }
    requires left { era.old.number < 2 ^ 64 - 1 }
    requires opened { IsOpen site.old.boot }
    requires some { 1 ≤ length lines.now }
    requires each { AllByRecursion IsLine (lines_of lines.now) }
    requires room { length (lines_in site.old.boot) + length lines.now ≤ 65536 }

    // From each fit site to which the lines may be added it does that alone.
    ensures adds { IsTrue D.is_modelled → CallFrom (site_stage (layers D.Disk)) (CanMove (append_lines (lines_of lines.now))) 1
        era.old.number era.new.number site.old site.new (λ at. make (append_lines (lines_of lines.now) ∷ [])) (fault_of result) }
    ensures answers { IfErr result IsAddFault }
    ensures cause { IsErrOf result (SiteFault.DiskFault BootDisk)
        → Rose (D.ledger (disk_of site.old.boot)).faults (D.ledger (disk_of site.new.boot)).faults }

    // Nothing but the boot file's value is another, and that tells of the lines behind those before.
    ensures others { site.new ≡ record site.old { boot = site.new.boot } }
    ensures made { IsMade site.new.boot }
    ensures opened { OnOk result (IsOpen site.new.boot) }
    ensures told { (told : List LineView) (number : ℕ) (active : Option Active) → TellsOf told number active site.old.boot
        → OnOk result (TellsOf (told ++ lines_of lines.now) number active site.new.boot) }
    ensures ledger { Spends era.old era.new 0 (8462337 + 128 * length lines.now) (D.ledger (disk_of site.old.boot)) (D.ledger (disk_of site.new.boot)) }
    ensures eras { era.new.number ≤ era.old.number + 1 }
{
    match site.boot.append(era, lines) {
        Ok(()) => {
            era.next();
            Ok(())
        }
        Err(BootFault::OutOfMemory) => Err(SiteFault::OutOfMemory),
        Err(BootFault::Failed) => Err(SiteFault::DiskFault(DiskName::Boot)),
        Err(BootFault::BadRecord { .. }) => unreachable!(),
        Err(BootFault::BootFull { .. }) => unreachable!(),
    }
}
