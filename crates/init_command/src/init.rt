//! The form that formats a site.
ghost use Rattle.std.specs.Prelude.{◌≡◌, ◌⊎◌, ◌+◌, ◌≤◌, ◌^◌, ℕ, List, IsTrue, IfOk, OnOk, IfErr, IsErrOf};
ghost use Rattle.command_grammar.specs.Words.{init_form};
ghost use Rattle.site_disk.specs.Causes.{Rose};
ghost use Rattle.site_headers.specs.Heads.{IsHead};
ghost use Rattle.site_headers.specs.Views.{spaces_of};
ghost use Rattle.site_model.specs.Runs.{head_at};
ghost use Rattle.site_model.specs.declared.disk_name.DiskName.{DiskName};
ghost use Rattle.site_model.specs.declared.status.Status.{Status};
ghost use Rattle.site_core.specs.Disks.{contents_of, faults_on, MayUseAll};
ghost use Rattle.site_core.specs.Made.{IsMadeSite};
ghost use Rattle.site_core.specs.Quiet.{IsQuiet};
ghost use Rattle.site_commands.specs.Commands.{CutsShort};
ghost use Rattle.site_openings.specs.Openings.{DisksRefuse, IsOfDisks, IsOpenFor};
ghost use Rattle.site_forms.specs.Starts.{IsKept, IsOfChunk, WritesWithin};
ghost use Rattle.site_forms.specs.Forms.{FinishesBy, IsNoStop, PassesBy, RestsOthers};

use crate::entering::is_formatted;
use site_core::Site;
use site_disk::{Disk, Era};
use site_formatting::format_site;
use site_forms::Report;
use site_headers::{SiteHead, SpaceHead};
use site_model::Status;
use std::alloc::Global;

/// Formats a site that isn't formatted, with these spaces; its id is the moment.
pub fn init_site<D: Disk>(
    _alloc: Global,
    site: &mut Site<D>,
    era: &mut Era,
    blocks: u32,
    spaces: Vec<SpaceHead>,
    moment: u64,
) -> Result<Report, Status>
    requires may { MayUseAll D.Disk era.old site.old }
    requires made { IsMadeSite site.old }
    requires number { era.old.number ≤ 2 ^ 63 }
    requires head { IsHead (head_at moment blocks (spaces_of spaces.items)) }

    // The disks may hold any bytes. Either it is refused for a catalogue that has a valid header, or there is none.
    ensures refused { IsTrue D.is_modelled → IfErr result (λ status. CutsShort status
        ⊎ DisksRefuse (init_form blocks (spaces_of spaces.items)) (contents_of D.Disk site.old) status) }
    ensures opens { IsTrue D.is_modelled → OnOk result (IsOpenFor (init_form blocks (spaces_of spaces.items)) (contents_of D.Disk site.old)) }

    // A refusal writes nothing; where its disks refuse it, nothing is written however it ends.
    ensures kept { IfErr result (λ status. CutsShort status ⊎ (IsOfChunk status ⊎ IsKept D.Disk site.old site.new)) }
    ensures harmless { IsTrue D.is_modelled → (status : Status) → DisksRefuse (init_form blocks (spaces_of spaces.items)) (contents_of D.Disk site.old) status
        → IsOfChunk status ⊎ IsQuiet D.Disk site.old site.new }

    ensures passes { IsTrue D.is_modelled → (script : List ℕ)
        → PassesBy D.Disk (init_form blocks (spaces_of spaces.items)) era.old.number site.old site.new moment script }
    ensures finishes { IsTrue D.is_modelled → (script after : List ℕ)
        → FinishesBy D.Disk (init_form blocks (spaces_of spaces.items)) era.old.number site.old site.new era.new.number moment script after result }
    ensures rests { IsTrue D.is_modelled → RestsOthers D.Disk (init_form blocks (spaces_of spaces.items)) era.old.number site.old site.new }

    ensures answered { IfErr result (λ status. CutsShort status ⊎ IsOfDisks status) }
    ensures no_stop { IfOk result IsNoStop }
    ensures no_read_fault { IsErrOf result Status.ReadFault → ⊥ }
    ensures no_write_fault { IsErrOf result Status.WriteFault → ⊥ }
    ensures disk_fault { (name : DiskName) → IsErrOf result (Status.DiskFault name)
        → Rose (faults_on D.Disk site.old name) (faults_on D.Disk site.new name) }
    ensures written { OnOk result (WritesWithin D.Disk (init_form blocks (spaces_of spaces.items)) site.old site.new) }

    ensures made { IsMadeSite site.new }
    ensures era { era.new.number ≤ era.old.number + 5 }
    ensures era_later { era.old.number ≤ era.new.number }
    ensures key { era.new.key ≡ era.old.key }
    ensures may { MayUseAll D.Disk era.new site.new }
{
    era.next();
    if is_formatted(site, era)? {
        return Err(Status::AlreadyFormatted);
    }
    era.next();
    era.next();
    let head = SiteHead {
        site: moment,
        blocks,
        spaces,
    };
    format_site(site, era, &head)?;
    Ok(Report::Formatted {
        spaces: head.spaces,
    })
}
