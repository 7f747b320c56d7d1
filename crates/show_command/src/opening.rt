//! A site is opened for a space that is shown: its store and its boot file, its log, and then the lane of that space.
ghost use Rattle.std.specs.Prelude.{◌≡◌, ◌⊎◌, ◌+◌, ◌-◌, ◌^◌, ◌<◌, ◌≤◌, ℕ, length, IsTrue, IsErr, OnOk, IfOk, IfErr, IsErrOf, MatchResult};
ghost use Rattle.logical_log.specs.Rings.{IsOpen as IsOpenLog};
ghost use Rattle.onbar_grammar.specs.Script.{place_of};
ghost use Rattle.command_grammar.specs.Words.{show_form};
ghost use Rattle.site_disk.specs.Causes.{Rose};
ghost use Rattle.site_headers.specs.Heads.{IsHead};
ghost use Rattle.site_headers.specs.Views.{head_of};
ghost use Rattle.site_lanes.specs.Lanes.{OfEach};
ghost use Rattle.space_lane.specs.Lanes.{IsOpen as IsOpenLane, count_of};
ghost use Rattle.site_model.specs.declared.disk_name.DiskName.{DiskName};
ghost use Rattle.site_model.specs.declared.status.Status.{Status};
ghost use Rattle.site_worlds.specs.Fitness.{IsFitSite};
ghost use Rattle.site_layouts.specs.Disks.{IsOpened};
ghost use Rattle.site_layouts.specs.Stages.{HeldSite, ShowsHeld};
ghost use Rattle.site_openings.specs.Openings.{AllowedBy, DisksRefuse, IsOfDisks, IsOpenFor, Named, RefusedBy};
ghost use Rattle.site_core.specs.Disks.{MayUseAll, contents_of, faults_on};
ghost use Rattle.site_core.specs.Faults.{IsFailure, fault_in, status_in};
ghost use Rattle.site_core.specs.Made.{IsMadeSite};
ghost use Rattle.site_core.specs.Quiet.{FaultsLater, IsQuiet, ReadsSame};
ghost use Rattle.site_forms.specs.Starts.{IsKept, IsOfChunk, WritesWithin};
ghost use Rattle.show_command.specs.Showing.{Enters, FindsPlace, IsPlaced, ShowsUsed, if_unready, show_checks};

use bsa_descriptor::Text;
use script_lines::find_space;
use site_core::{Site, SiteFault};
use site_disk::{Disk, Era};
use site_headers::SiteHead;
use site_lane_opening::open_site_lane;
use site_opening::{if_restoring, open_site, open_site_log};
use std::alloc::Global;

/// A space of a site: its place among the spaces, and how many pages it has.
#[derive(Clone, Copy)]
pub struct Place {
    pub space: u16,
    pub pages: u32,
}

/// What a site was opened for.
#[derive(Drop)]
pub struct Entered {
    pub head: SiteHead,
    pub place: Place,
}

// The same text again. It takes no memory.
fn copy_of(name: &Text<19>) -> Text<19>
    ensures { result ≡ name.now }
{
    match Text::from_bytes(name.as_bytes()) {
        Some(text) => text,
        None => unreachable!(),
    }
}

// The place of the space with a name, where the site has it, and this page of it.
fn find_place(head: &SiteHead, name: &Text<19>, page: Option<u32>) -> Result<Place, SiteFault>
    requires head { IsHead (head_of head.now) }
    ensures { IsPlaced name.now page (place_of name.now (head_of head.now).spaces) result }
{
    let Some((space, pages)) = find_space(name.as_bytes(), &head.spaces) else {
        return Err(SiteFault::NoSuchSpace(copy_of(name)));
    };
    if let Some(number) = page {
        if number >= pages {
            return Err(SiteFault::NoSuchPage(number));
        }
    }
    Ok(Place { space, pages })
}

// Opens store, boot file and log of a site with no restore under way that has a space. Nothing is written.
fn open_log<D: Disk>(
    alloc: Global,
    site: &mut Site<D>,
    era: &Era,
    name: &Text<19>,
    page: Option<u32>,
) -> Result<Entered, SiteFault>
    requires may { MayUseAll D.Disk era.now site.old }
    requires made { IsMadeSite site.old }

    // Where these disks show a fit site it is opened, unless memory runs out or a disk fails, or it is refused as its course says.
    ensures finds { IsTrue D.is_modelled → (at : HeldSite) → IsFitSite at.site
        → ((disk : DiskName) → IsOpened 2 disk → ShowsHeld disk at (contents_of D.Disk site.old disk))
        → MatchResult result (λ entered. FindsPlace D.Disk name.now page era.now.number (head_of entered.head) entered.place at site.new)
        (λ fault. IsFailure fault ⊎ (if_unready name.now page at.site ≡ Some (fault_in fault))) }
    // Whatever they hold: the first check that doesn't let them pass refuses them.
    ensures answers { IsTrue D.is_modelled → MatchResult result
        (λ entered. AllowedBy (show_checks name.now page) (contents_of D.Disk site.old) × Named (head_of entered.head) (contents_of D.Disk site.old))
        (λ fault. IsFailure fault ⊎ RefusedBy (show_checks name.now page) (contents_of D.Disk site.old) (status_in fault)) }
    ensures refuses { IsTrue D.is_modelled → (status : Status) → RefusedBy (show_checks name.now page) (contents_of D.Disk site.old) status → IsErr result }
    ensures placed { IfOk result (λ entered. IsHead (head_of entered.head) × IsPlaced name.now page (place_of name.now (head_of entered.head).spaces) (Ok entered.place)) }
    ensures answered { IfErr result (λ fault. IsFailure fault ⊎ IsOfDisks (status_in fault)) }
    ensures failed { (disk : DiskName) → IsErrOf result (SiteFault.DiskFault disk) → Rose (faults_on D.Disk site.old disk) (faults_on D.Disk site.new disk) }
    ensures opened { OnOk result (IsOpenLog site.new.log) }
    ensures made { IsMadeSite site.new }

    // What stays.
    ensures quiet { IsQuiet D.Disk site.old site.new }
    ensures later { FaultsLater D.Disk site.old site.new }
    ensures may { MayUseAll D.Disk era.now site.new }
    ensures same { OnOk result (ReadsSame D.Disk site.old site.new) }
    ensures kept { IfErr result (λ fault. IsFailure fault ⊎ ReadsSame D.Disk site.old site.new) }
{
    let head = open_site(alloc, site, era)?;
    if_restoring(site)?;
    let place = find_place(&head, name, page)?;
    open_site_log(alloc, site, era, &head)?;
    Ok(Entered { head, place })
}

/// Opens a site with no restore under way in the next eras, and the lane of a space that it has.
///
/// Up to the second era behind the present one nothing is written.
pub fn open_space<D: Disk>(
    alloc: Global,
    site: &mut Site<D>,
    era: &mut Era,
    name: &Text<19>,
    page: Option<u32>,
) -> Result<Place, SiteFault>
    requires may { MayUseAll D.Disk era.old site.old }
    requires made { IsMadeSite site.old }
    requires number { era.old.number < 2 ^ 64 - 8 }

    // From a fit site that the disks show it comes to values that stand for it, or is refused as its course says, unless it is cut short.
    ensures enters { IsTrue D.is_modelled → (at : HeldSite) → IsFitSite at.site → ShowsUsed D.Disk name.now page at site.old
        → Enters D.Disk name.now page era.old.number era.new.number at site.old site.new result }
    // Whatever the disks hold: the first check that doesn't let them pass refuses them.
    ensures answers { IsTrue D.is_modelled → MatchResult result
        (λ place. IsOpenFor (show_form name.now page) (contents_of D.Disk site.old))
        (λ fault. IsFailure fault ⊎ DisksRefuse (show_form name.now page) (contents_of D.Disk site.old) (status_in fault)) }
    // Where they refuse it nothing is written.
    ensures harmless { IsTrue D.is_modelled → (status : Status) → DisksRefuse (show_form name.now page) (contents_of D.Disk site.old) status
        → IsErr result × (IsOfChunk status ⊎ IsQuiet D.Disk site.old site.new) }
    ensures kept { IfErr result (λ fault. IsFailure fault ⊎ (IsOfChunk (status_in fault) ⊎ IsKept D.Disk site.old site.new)) }
    ensures answered { IfErr result (λ fault. IsFailure fault ⊎ IsOfDisks (status_in fault)) }
    ensures failed { (disk : DiskName) → IsErrOf result (SiteFault.DiskFault disk) → Rose (faults_on D.Disk site.old disk) (faults_on D.Disk site.new disk) }
    ensures log { OnOk result (IsOpenLog site.new.log) }
    ensures lane { IfOk result (λ place. OfEach (λ n lane. n ≡ place.space → IsOpenLane lane × (count_of lane ≡ place.pages)) site.new.lanes.items) }
    ensures within { IfOk result (λ place. place.space < length site.new.lanes.items) }
    ensures shown { (n : ℕ) → page ≡ Some n → IfOk result (λ place. n < place.pages) }
    ensures made { IsMadeSite site.new }
    ensures written { WritesWithin D.Disk (show_form name.now page) site.old site.new }
    ensures later { FaultsLater D.Disk site.old site.new }
    ensures may { MayUseAll D.Disk era.new site.new }
    ensures era { era.new.number ≤ era.old.number + 4 }
    ensures era_later { era.old.number ≤ era.new.number }
    ensures key { era.new.key ≡ era.old.key }
{
    era.next();
    let entered = open_log(alloc, site, era, name, page)?;
    era.next();
    let place = entered.place;
    open_site_lane(site, era, &entered.head, place.space)?;
    Ok(place)
}
