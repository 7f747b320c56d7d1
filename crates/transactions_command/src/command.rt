//! The form `-T`: a site is opened, and its log is extended by a script.
ghost use Rattle.std.specs.Prelude.{◌≡◌, ◌⊎◌, ◌+◌, ◌^◌, ◌≤◌, [], Ok, IsTrue, OnOk, IfOk, IfErr, IsErrOf};
ghost use Rattle.command_grammar.specs.Words.{transactions_form};
ghost use Rattle.script_lines.specs.Cutting.{TakesFront};
ghost use Rattle.site_disk.specs.Causes.{Rose};
ghost use Rattle.site_model.specs.declared.disk_name.DiskName.{DiskName};
ghost use Rattle.site_model.specs.declared.status.Status.{Status as StatusView};
ghost use Rattle.site_commands.specs.Commands.{CutsShort};
ghost use Rattle.site_openings.specs.Openings.{DisksRefuse, IsOfDisks, IsOpenFor};
ghost use Rattle.site_core.specs.Disks.{MayUseAll, contents_of, faults_on};
ghost use Rattle.site_core.specs.Made.{IsMadeSite};
ghost use Rattle.site_core.specs.Quiet.{IsQuiet};
ghost use Rattle.site_forms.specs.Forms.{FinishesBy, IsNoStop, PassesBy, RestsOthers};
ghost use Rattle.site_forms.specs.Reports.{status_told};
ghost use Rattle.site_forms.specs.Starts.{IsKept, IsOfChunk, WritesWithin};
ghost use Rattle.transactions_command.specs.Entering.{IsOfLog};

use crate::opening::open_all;
use site_core::Site;
use site_disk::{Disk, Era, Source};
use site_forms::Report;
use site_model::Status;
use site_scripts::run_script;
use std::alloc::Global;

/// Extends the log of a site by a script of transactions, over values of which nothing is opened yet.
///
/// The disks may hold any bytes. A form that they refuse takes nothing of the script.
pub fn run_transactions<D: Disk, S: Source>(
    alloc: Global,
    site: &mut Site<D>,
    era: &mut Era,
    source: &mut S,
    moment: u64,
) -> Result<Report, Status>
    requires may { MayUseAll D.Disk era.old site.old }
    requires made { IsMadeSite site.old }
    requires number { era.old.number ≤ 2 ^ 63 }
    requires moment { moment ≤ 2 ^ 48 }

    // Either the form is refused for what the disks hold, or they hold what it needs; then a record of the log may not be in the grammar any
    // more when it is read again.
    ensures refused { IsTrue D.is_modelled → IfErr result (λ status. CutsShort status
        ⊎ (DisksRefuse transactions_form (contents_of D.Disk site.old) status ⊎ (IsOfLog status × IsOpenFor transactions_form (contents_of D.Disk site.old)))) }
    ensures opens { IsTrue D.is_modelled → OnOk result (IsOpenFor transactions_form (contents_of D.Disk site.old)) }
    // At a refusal nothing was written; for a chunk, another one may have been put back in order before it.
    ensures kept { IfErr result (λ status. CutsShort status ⊎ ((IsOfChunk status ⊎ IsKept D.Disk site.old site.new) ⊎ IsOfLog status)) }
    ensures harmless { IsTrue D.is_modelled → (status : StatusView) → DisksRefuse transactions_form (contents_of D.Disk site.old) status
        → (IsOfChunk status ⊎ IsQuiet D.Disk site.old site.new) × (source.new ≡ source.old) }

    // From a fit world that the disks show which it uses, whatever the others hold.
    ensures passes { IsTrue D.is_modelled → IsTrue S.is_modelled → PassesBy D.Disk transactions_form era.old.number site.old site.new moment (S.left source.old) }
    ensures finishes { IsTrue D.is_modelled → IsTrue S.is_modelled
        → FinishesBy D.Disk transactions_form era.old.number site.old site.new era.new.number moment (S.left source.old) (S.left source.new) result }
    ensures rests { IsTrue D.is_modelled → RestsOthers D.Disk transactions_form era.old.number site.old site.new }

    ensures answered { IfErr result (λ status. CutsShort status ⊎ IsOfDisks status) }
    ensures no_stop { IfOk result IsNoStop }
    ensures no_write_fault { IsErrOf result Status.WriteFault → ⊥ }
    ensures read_fault { IsErrOf result Status.ReadFault → Rose (S.faults source.old) (S.faults source.new) }
    ensures disk_fault { (name : DiskName) → IsErrOf result (Status.DiskFault name) → Rose (faults_on D.Disk site.old name) (faults_on D.Disk site.new name) }
    ensures to_end { IsTrue S.is_modelled → IfOk result (λ report. status_told (Ok report) ≡ StatusView.Ok → S.left source.new ≡ []) }
    ensures taken { IsTrue S.is_modelled → TakesFront (S.left source.old) (S.left source.new) }
    ensures source_later { S.faults source.old ≤ S.faults source.new }
    ensures written { OnOk result (WritesWithin D.Disk transactions_form site.old site.new) }
    ensures made { IsMadeSite site.new }
    ensures era { era.new.number ≤ era.old.number + 2 ^ 32 }
    ensures era_later { era.old.number ≤ era.new.number }
    ensures key { era.new.key ≡ era.old.key }
    ensures may { MayUseAll D.Disk era.new site.new }
{
    let begun = open_all(alloc, site, era)?;
    let table = begun.table;
    let told = run_script(alloc, site, &begun.head, era, table, source, moment)?;
    Ok(Report::Extended(told))
}
