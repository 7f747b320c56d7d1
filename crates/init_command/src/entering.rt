//! Whether a site is formatted already.
ghost use Rattle.std.specs.Prelude.{◌≡◌, ◌+◌, ◌*◌, ℕ, List, IsTrue, IfOk, OnOk, IfErr};
ghost use Rattle.site_disk.specs.Images.{OnlyAfter};
ghost use Rattle.site_disk.specs.Ledger.{MayUse, Uses};
ghost use Rattle.catalogue_journal.specs.Catalogues.{cat_of, spare_of, capacity_of, IsMade};
ghost use Rattle.site_model.specs.declared.disk_name.DiskName.TheVariants.{Cat};
ghost use Rattle.site_core.specs.Disks.{contents_of, MayUseAll};
ghost use Rattle.site_core.specs.Made.{IsMadeSite};
ghost use Rattle.site_core.specs.Quiet.{OnlyReads, ReadsSame};
ghost use Rattle.site_openings.specs.Openings.{catalogue_disk};
ghost use Rattle.init_command.specs.Looks.{told_by, FailsOnOneDisk, Tells};
ghost use Rattle.init_command.specs.Sites.{reads_of, with_catalogue, HasFailedOn};

use catalogue_journal::{CatFault, Catalogue};
use site_core::Site;
use site_disk::{Disk, Era};
use site_model::{DiskName, Status};

// The disk that a fault of the catalogue names.
fn disk_name(spare: bool) -> DiskName
    ensures { result ≡ catalogue_disk spare }
{
    if spare {
        DiskName::Spare
    } else {
        DiskName::Cat
    }
}

// What a catalogue that isn't opened tells of its header: only behind a valid one are records looked at.
fn told(fault: CatFault) -> Result<bool, Status>
    ensures { result ≡ told_by fault }
{
    match fault {
        CatFault::NotFormatted => Ok(false),
        CatFault::BadRecord { .. }
        | CatFault::CatalogueFull { .. }
        | CatFault::TooManyObjects { .. } => Ok(true),
        CatFault::Failed { spare } => Err(Status::DiskFault(disk_name(spare))),
        CatFault::OutOfMemory => Err(Status::OutOfMemory),
    }
}

// Whether the catalogue has a valid header, after a sync of both its disks. Nothing is written.
fn has_header<D: Disk>(cat: &mut Catalogue<D>, era: &Era) -> Result<bool, Status>
    requires era { MayUse era.now (D.ledger (cat_of cat.old)) }
    requires spare_era { MayUse era.now (D.ledger (spare_of cat.old)) }
    requires made { IsMade cat.old }
    ensures told { IsTrue D.is_modelled → IfOk result (λ found. Tells found (D.bytes (cat_of cat.old))) }
    ensures durable { IsTrue D.is_modelled → OnOk result (OnlyAfter era.now.number (D.bytes (cat_of cat.old)) (D.image (cat_of cat.new))) }
    ensures bytes { OnOk result (D.bytes (cat_of cat.new) ≡ D.bytes (cat_of cat.old)) }
    ensures spare_bytes { OnOk result (D.bytes (spare_of cat.new) ≡ D.bytes (spare_of cat.old)) }
    ensures crash { (f : ℕ) (c : List ℕ) → D.image (cat_of cat.new) f c → D.image (cat_of cat.old) f c }
    ensures spare_crash { (f : ℕ) (c : List ℕ) → D.image (spare_of cat.new) f c → D.image (spare_of cat.old) f c }
    ensures ledger { Uses era.now (4864 + 4097 * capacity_of cat.old) 0 (D.ledger (cat_of cat.old)) (D.ledger (cat_of cat.new)) }
    ensures spare_ledger { Uses era.now 4096 0 (D.ledger (spare_of cat.old)) (D.ledger (spare_of cat.new)) }
    ensures made { IsMade cat.new }
    ensures capacity { capacity_of cat.new ≡ capacity_of cat.old }
    ensures cause { IfErr result (FailsOnOneDisk (D.ledger (cat_of cat.old)).faults (D.ledger (cat_of cat.new)).faults
        (D.ledger (spare_of cat.old)).faults (D.ledger (spare_of cat.new)).faults) }
{
    if let Err(fault) = cat.sync(era) {
        return told(fault);
    }
    match cat.open(era) {
        Ok(_) => Ok(true),
        Err(fault) => told(fault),
    }
}

/// Whether a site is formatted, which its catalogue's header alone tells. Nothing is written.
pub(crate) fn is_formatted<D: Disk>(site: &mut Site<D>, era: &Era) -> Result<bool, Status>
    requires may { MayUseAll D.Disk era.now site.old }
    requires made { IsMadeSite site.old }
    ensures told { IsTrue D.is_modelled → IfOk result (λ found. Tells found (contents_of D.Disk site.old Cat)) }
    ensures durable { IsTrue D.is_modelled
        → OnOk result (OnlyAfter era.now.number (contents_of D.Disk site.old Cat) (D.image (cat_of site.new.store.cat))) }
    ensures same { OnOk result (ReadsSame D.Disk site.old site.new) }
    ensures reads { OnlyReads D.Disk era.now reads_of site.old site.new }
    ensures others { site.new ≡ with_catalogue site.old site.new.store.cat }
    ensures made { IsMadeSite site.new }
    ensures cause { IfErr result (HasFailedOn D.Disk site.old site.new) }
{
    has_header(&mut site.store.cat, era)
}
