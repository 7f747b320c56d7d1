//! Shows a space of a site, or a page of it.
ghost use Rattle.std.specs.Prelude.{◌≡◌, ◌⊎◌, ℕ, ◌+◌, ◌-◌, ◌*◌, ◌^◌, ◌<◌, ◌≤◌, List, Some, length, slice_get, string_bytes, IsTrue, IfOk, IfErr, IsErrOf, OnOk, MatchResult};
ghost use Rattle.log_history.specs.Effects.{Page};
ghost use Rattle.lane_texts.specs.Listings.{HoldsPages};
ghost use Rattle.logical_log.specs.Rings.{IsOpen as IsOpenLog};
ghost use Rattle.command_grammar.specs.Words.{show_form};
ghost use Rattle.site_disk.specs.Causes.{Rose};
ghost use Rattle.site_lanes.specs.Lanes.{OfEach};
ghost use Rattle.space_lane.specs.Lanes.{IsOpen as IsOpenLane, count_of, disk_of, space_of};
ghost use Rattle.space_lane.specs.declared.lane.Lane.{Lane};
ghost use Rattle.site_model.specs.declared.disk_name.DiskName.{DiskName as DiskNameView};
ghost use Rattle.site_model.specs.declared.status.Status.{Status as StatusView};
ghost use Rattle.site_worlds.specs.Lanes.{pages_of_space};
ghost use Rattle.site_layouts.specs.Stages.{HeldSite, StandsFor};
ghost use Rattle.site_openings.specs.Openings.{DisksRefuse, IsOfDisks, IsOpenFor};
ghost use Rattle.site_core.specs.Disks.{MayUseAll, contents_of, faults_on};
ghost use Rattle.site_core.specs.Faults.{IsFailure};
ghost use Rattle.site_core.specs.Layers.{layers};
ghost use Rattle.site_core.specs.Made.{IsMadeSite};
ghost use Rattle.site_core.specs.Quiet.{FaultsLater, IsQuiet};
ghost use Rattle.site_commands.specs.Commands.{CutsShort};
ghost use Rattle.site_forms.specs.Forms.{FinishesBy, IsNoStop, PassesBy, RestsOthers};
ghost use Rattle.site_forms.specs.Starts.{IsKept, IsOfChunk, WritesWithin};
ghost use Rattle.site_lane_opening.specs.Left.{OneLane};
ghost use Rattle.show_command.specs.Bringing.{GoesAlong, MayBring, RestsBut};
ghost use Rattle.show_command.specs.Showing.{IsOfReading, IsReadingFault, IsTold, fault_of_text, listed};

use crate::advancing::bring_lane;
use crate::opening::{Place, open_space};
use crate::texts::lane_text;
use bsa_descriptor::Text;
use lane_texts::{ListFault, the_pages_of_a_history_are_held};
use site_core::{Site, SiteFault};
use site_disk::{Disk, Era};
use site_forms::Report;
use site_model::{DiskName, Status};
use std::alloc::Global;

// A fault of the text of a space.
fn text_fault(space: u16, fault: ListFault) -> SiteFault
    ensures { result ≡ fault_of_text space fault }
{
    match fault {
        ListFault::OutOfMemory => SiteFault::OutOfMemory,
        ListFault::Failed => SiteFault::DiskFault(DiskName::Chunk(space)),
        ListFault::BadPage { page } => SiteFault::BadRecord {
            disk: DiskName::Chunk(space),
            slot: page,
        },
    }
}

// Reads the text of a space that is at the end of the log.
fn tell_space<D: Disk>(
    alloc: Global,
    site: &mut Site<D>,
    era: &Era,
    name: &Text<19>,
    place: Place,
    page: Option<u32>,
) -> Result<String, SiteFault>
    requires may { MayUseAll D.Disk era.now site.old }
    requires lane { OfEach (λ n lane. n ≡ place.space → count_of lane ≡ place.pages) site.old.lanes.items }
    requires within { place.space < length site.old.lanes.items }
    requires shown { (n : ℕ) → page ≡ Some n → n < place.pages }

    ensures text { IsTrue D.is_modelled → (value : Lane D) (list : List Page) → slice_get site.old.lanes.items place.space ≡ Some value
        → HoldsPages (space_of value) place.pages list (D.bytes (disk_of value))
        → MatchResult result (λ text. listed (space_of value) name.now page list (string_bytes text)) IsFailure }
    ensures only { IfErr result IsReadingFault }
    ensures failed { (disk : DiskNameView) → IsErrOf result (SiteFault.DiskFault disk) → Rose (faults_on D.Disk site.old disk) (faults_on D.Disk site.new disk) }
    ensures quiet { IsQuiet D.Disk site.old site.new }
    ensures later { FaultsLater D.Disk site.old site.new }
    ensures may { MayUseAll D.Disk era.now site.new }
    ensures made { IsMadeSite site.old → IsMadeSite site.new }
{
    let lane = &mut site.lanes[usize::from(place.space)];
    match lane_text(alloc, lane, era, name.as_str(), place.pages, page) {
        Ok(text) => Ok(text),
        Err(fault) => Err(text_fault(place.space, fault)),
    }
}

// Brings the lane of a space to the end of the log, and reads its text.
fn read_space<D: Disk>(
    alloc: Global,
    site: &mut Site<D>,
    era: &mut Era,
    name: &Text<19>,
    place: Place,
    page: Option<u32>,
) -> Result<String, SiteFault>
    requires may { MayUseAll D.Disk era.old site.old }
    requires left { era.old.number < 2 ^ 64 - 1 }
    requires log { IsOpenLog site.old.log }
    requires lane { OfEach (λ n lane. n ≡ place.space → IsOpenLane lane × (count_of lane ≡ place.pages)) site.old.lanes.items }
    requires within { place.space < length site.old.lanes.items }
    requires shown { (n : ℕ) → page ≡ Some n → n < place.pages }

    ensures goes { IsTrue D.is_modelled → (at : HeldSite) → StandsFor (layers D.Disk) 2 era.old.number site.old at → OneLane D.Disk era.old.number place.space at site.old
        → MayBring place.space at.site → GoesAlong D.Disk era.old.number place.space at site.old site.new }
    ensures told { IsTrue D.is_modelled → (at : HeldSite) → StandsFor (layers D.Disk) 2 era.old.number site.old at → OneLane D.Disk era.old.number place.space at site.old
        → MayBring place.space at.site → place.pages ≡ pages_of_space at.site.head.spaces place.space
        → MatchResult result (λ text. IsTold D.Disk name.now page era.new.number place at site.old site.new (string_bytes text)) IsFailure }
    ensures only { IfErr result IsReadingFault }
    ensures failed { (disk : DiskNameView) → IsErrOf result (SiteFault.DiskFault disk) → Rose (faults_on D.Disk site.old disk) (faults_on D.Disk site.new disk) }
    ensures others { RestsBut D.Disk place.space site.old site.new }
    ensures made { IsMadeSite site.old → IsMadeSite site.new }
    ensures later { FaultsLater D.Disk site.old site.new }
    ensures may { MayUseAll D.Disk era.new site.new }
    ensures eras { (era.old.number ≤ era.new.number) × (era.new.number ≤ era.old.number + 1) }
    ensures key { era.new.key ≡ era.old.key }
{
    the_pages_of_a_history_are_held();
    bring_lane(alloc, site, era, place.space)?;
    tell_space(alloc, site, era, name, place, page)
}

/// Shows a space of a site, or a page of it.
pub fn show_space<D: Disk>(
    alloc: Global,
    site: &mut Site<D>,
    era: &mut Era,
    name: Text<19>,
    page: Option<u32>,
) -> Result<Report, Status>
    requires may { MayUseAll D.Disk era.old site.old }
    requires made { IsMadeSite site.old }
    requires number { era.old.number ≤ 2 ^ 63 }

    // The disks may hold any bytes. Either the form is refused for them, or they hold what it needs; a record of the log may not be in the
    // grammar any more when it is read again, and a page may not be as the layout says.
    ensures refused { IsTrue D.is_modelled → IfErr result (λ status. CutsShort status ⊎ (DisksRefuse (show_form name page) (contents_of D.Disk site.old) status
        ⊎ (IsOfReading status × IsOpenFor (show_form name page) (contents_of D.Disk site.old)))) }
    ensures opens { IsTrue D.is_modelled → OnOk result (IsOpenFor (show_form name page) (contents_of D.Disk site.old)) }
    ensures kept { IfErr result (λ status. CutsShort status ⊎ ((IsOfChunk status ⊎ IsKept D.Disk site.old site.new) ⊎ IsOfReading status)) }
    ensures harmless { IsTrue D.is_modelled → (status : StatusView) → DisksRefuse (show_form name page) (contents_of D.Disk site.old) status
        → IsOfChunk status ⊎ IsQuiet D.Disk site.old site.new }
    ensures passes { IsTrue D.is_modelled → (moment : ℕ) (script : List ℕ) → PassesBy D.Disk (show_form name page) era.old.number site.old site.new moment script }
    ensures finishes { IsTrue D.is_modelled → (moment : ℕ) (script after : List ℕ)
        → FinishesBy D.Disk (show_form name page) era.old.number site.old site.new era.new.number moment script after result }
    ensures rests { IsTrue D.is_modelled → RestsOthers D.Disk (show_form name page) era.old.number site.old site.new }
    ensures answered { IfErr result (λ status. CutsShort status ⊎ IsOfDisks status) }
    ensures no_stop { IfOk result IsNoStop }
    ensures no_write_fault { IsErrOf result Status.WriteFault → ⊥ }
    ensures read_fault { IsErrOf result Status.ReadFault → ⊥ }
    ensures disk_fault { (disk : DiskNameView) → IsErrOf result (Status.DiskFault disk) → Rose (faults_on D.Disk site.old disk) (faults_on D.Disk site.new disk) }
    ensures written { OnOk result (WritesWithin D.Disk (show_form name page) site.old site.new) }
    ensures made { IsMadeSite site.new }
    ensures era { era.new.number ≤ era.old.number + 2 ^ 32 }
    ensures era_later { era.old.number ≤ era.new.number }
    ensures key { era.new.key ≡ era.old.key }
    ensures may { MayUseAll D.Disk era.new site.new }
{
    let place = open_space(alloc, site, era, &name, page)?;
    let text = read_space(alloc, site, era, &name, place, page)?;
    Ok(Report::Shown { text })
}
