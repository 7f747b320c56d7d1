//! The lines of a script up to its end or a fault, and the last batch.
ghost use Rattle.std.specs.Prelude.{◌≡◌, ◌+◌, ◌-◌, ◌*◌, ◌<◌, ◌≤◌, ◌^◌, ◌++◌, [], List, length, IsTrue, true, false, Some, IfSome};
ghost use Rattle.log_history.specs.History.{History};
ghost use Rattle.onbar_grammar.specs.Script.{Raw, raw_lines};
ghost use Rattle.script_lines.specs.Cutting.{TakesFront};
ghost use Rattle.script_steps.specs.Collecting.{IsBounded};
ghost use Rattle.site_core.specs.Disks.{MayUseAll, faults_on};
ghost use Rattle.site_core.specs.Made.{IsMadeSite};
ghost use Rattle.site_core.specs.Opened.{IsOpenSite};
ghost use Rattle.site_disk.specs.Causes.{Rose};
ghost use Rattle.site_headers.specs.Heads.{IsHead};
ghost use Rattle.site_headers.specs.Views.{head_of};
ghost use Rattle.site_lanes.specs.Lanes.{SameFrom};
ghost use Rattle.site_model.specs.declared.disk_name.DiskName.{DiskName as NameView};
ghost use Rattle.site_scripts.specs.Outcomes.{is_cut_short, leaves_batch};
ghost use Rattle.site_scripts.specs.Stages.{CallBy, halt_at, end_course, in_use, run_course};
ghost use Rattle.site_scripts.specs.Steps.{LinesEnd};

use crate::outcomes::{Cut, Stop};
use crate::transactions::{append_collected, take_step};
use crate::work::Work;
use site_core::Site;
use site_disk::{Disk, Era, Source};
use site_headers::SiteHead;
use std::alloc::Global;

/// Takes the lines of a script, and appends each batch that is whole, up to the script's end or a fault.
fn take_lines<D: Disk, S: Source>(
    alloc: Global,
    site: &mut Site<D>,
    head: &SiteHead,
    era: &mut Era,
    work: &mut Work,
    source: &mut S,
    moment: u64,
) -> Stop
    requires head { IsHead (head_of head.now) }
    requires may { MayUseAll D.Disk era.old site.old }
    requires number { era.old.number < 2 ^ 64 - 2 ^ 32 }
    requires opened { IsOpenSite (length head.now.spaces.items) site.old }
    requires moment { moment ≤ 2 ^ 48 }
    requires bounded { IsBounded 31 work.old.progress.collected }
    requires line { work.old.progress.line ≤ work.old.progress.lines.begun }
    requires script_limit { work.old.progress.lines.begun ≤ 16777216 }
    requires counted { work.old.counts.lines ≤ 32 * work.old.progress.lines.begun }
    requires commits { work.old.counts.commits ≤ work.old.counts.lines }

    ensures ended { IsTrue D.is_modelled → IsTrue S.is_modelled → (first : History) → LinesEnd D.Disk (head_of head.now) first era.old.number era.new.number
        moment (work.old.progress.lines.held ++ S.left source.old) (work.new.progress.lines.held ++ S.left source.new) site.old site.new work.old work.new result }
    ensures at_end { IsTrue S.is_modelled → result ≡ Stop.Done → S.left source.new ≡ [] }
    ensures opened { is_cut_short result ≡ false → IsOpenSite (length head.now.spaces.items) site.new }

    ensures waiting { IsBounded 32 work.new.progress.collected }
    ensures ahead { length work.new.progress.lines.held ≤ 65536 }
    ensures counted { work.new.counts.lines ≤ 2 ^ 30 }
    ensures commits { work.new.counts.commits ≤ work.new.counts.lines }

    ensures store { site.new.store ≡ site.old.store }
    ensures boot { site.new.boot ≡ site.old.boot }
    ensures beyond { SameFrom (length head.now.spaces.items) site.old.lanes.items site.new.lanes.items }
    ensures made { IsMadeSite site.old → IsMadeSite site.new }
    ensures era { era.new.number ≤ era.old.number + 50331651 }
    ensures era_later { era.old.number ≤ era.new.number }
    ensures key { era.new.key ≡ era.old.key }
    ensures may { MayUseAll D.Disk era.new site.new }
    ensures later { (name : NameView) → faults_on D.Disk site.old name ≤ faults_on D.Disk site.new name }
    ensures failed { (name : NameView) → result ≡ Stop.Cut (Cut.DiskFault name) → Rose (faults_on D.Disk site.old name) (faults_on D.Disk site.new name) }
    ensures taken { IsTrue S.is_modelled → TakesFront (S.left source.old) (S.left source.new) }
    ensures source_later { S.faults source.old ≤ S.faults source.new }
    ensures read_fault { result ≡ Stop.Cut Cut.ReadFault → Rose (S.faults source.old) (S.faults source.new) }
{
    'lines: loop {
        if let Some(stop) = take_step(alloc, site, head, era, work, source, moment) {
            return stop;
        }
    }
}

/// Appends what is collected at the end of a run that stopped so, where anything is, and answers how it ends then.
fn append_last<D: Disk>(
    alloc: Global,
    site: &mut Site<D>,
    head: &SiteHead,
    era: &mut Era,
    work: &mut Work,
    stop: Stop,
) -> Stop
    requires may { MayUseAll D.Disk era.old site.old }
    requires number { era.old.number < 2 ^ 64 - 8 }
    requires opened { IsOpenSite (length head.now.spaces.items) site.old }
    requires bounded { IsBounded 32 work.old.progress.collected }
    requires counted { work.old.counts.lines ≤ 2 ^ 40 }
    requires commits { work.old.counts.commits ≤ work.old.counts.lines }
    requires leaves { leaves_batch stop ≡ true }

    ensures ended { IsTrue D.is_modelled → (first : History) (left : List Raw) → CallBy D.Disk (head_of head.now) first era.old.number era.new.number
        (in_use site.old work.old) (in_use site.new work.new) (end_course (halt_at stop left) work.old.progress) (Some (halt_at result left)) }
    ensures at_end { result ≡ Stop.Done → stop ≡ Stop.Done }
    ensures opened { is_cut_short result ≡ false → IsOpenSite (length head.now.spaces.items) site.new }
    ensures progress { work.new.progress.lines ≡ work.old.progress.lines }

    ensures store { site.new.store ≡ site.old.store }
    ensures boot { site.new.boot ≡ site.old.boot }
    ensures beyond { SameFrom (length head.now.spaces.items) site.old.lanes.items site.new.lanes.items }
    ensures made { IsMadeSite site.old → IsMadeSite site.new }
    ensures era { era.new.number ≤ era.old.number + 3 }
    ensures era_later { era.old.number ≤ era.new.number }
    ensures key { era.new.key ≡ era.old.key }
    ensures may { MayUseAll D.Disk era.new site.new }
    ensures later { (name : NameView) → faults_on D.Disk site.old name ≤ faults_on D.Disk site.new name }
    ensures failed { (name : NameView) → result ≡ Stop.Cut (Cut.DiskFault name) → Rose (faults_on D.Disk site.old name) (faults_on D.Disk site.new name) }
    ensures no_read_fault { result ≡ Stop.Cut Cut.ReadFault → ⊥ }
{
    if work.progress.collected.batch.is_empty() {
        return stop;
    }
    append_collected(alloc, site, head, era, work).unwrap_or(stop)
}

/// Runs a script over an open site.
pub fn run_lines<D: Disk, S: Source>(
    alloc: Global,
    site: &mut Site<D>,
    head: &SiteHead,
    era: &mut Era,
    work: &mut Work,
    source: &mut S,
    moment: u64,
) -> Stop
    requires head { IsHead (head_of head.now) }
    requires may { MayUseAll D.Disk era.old site.old }
    requires number { era.old.number < 2 ^ 64 - 2 ^ 32 }
    requires opened { IsOpenSite (length head.now.spaces.items) site.old }
    requires moment { moment ≤ 2 ^ 48 }
    requires bounded { IsBounded 31 work.old.progress.collected }
    requires line { work.old.progress.line ≤ work.old.progress.lines.begun }
    requires script_limit { work.old.progress.lines.begun ≤ 16777216 }
    requires counted { work.old.counts.lines ≤ 32 * work.old.progress.lines.begun }
    requires commits { work.old.counts.commits ≤ work.old.counts.lines }

    ensures ended { IsTrue D.is_modelled → IsTrue S.is_modelled → (first : History) → CallBy D.Disk (head_of head.now) first era.old.number era.new.number
        (in_use site.old work.old) (in_use site.new work.new) (run_course moment (work.old.progress.lines.held ++ S.left source.old) work.old.progress)
        (Some (halt_at result (raw_lines (work.new.progress.lines.held ++ S.left source.new)))) }
    ensures at_end { IsTrue S.is_modelled → result ≡ Stop.Done → S.left source.new ≡ [] }
    ensures opened { is_cut_short result ≡ false → IsOpenSite (length head.now.spaces.items) site.new }
    ensures ahead { length work.new.progress.lines.held ≤ 65536 }

    ensures store { site.new.store ≡ site.old.store }
    ensures boot { site.new.boot ≡ site.old.boot }
    ensures beyond { SameFrom (length head.now.spaces.items) site.old.lanes.items site.new.lanes.items }
    ensures made { IsMadeSite site.old → IsMadeSite site.new }
    ensures era { era.new.number ≤ era.old.number + 50331654 }
    ensures era_later { era.old.number ≤ era.new.number }
    ensures key { era.new.key ≡ era.old.key }
    ensures may { MayUseAll D.Disk era.new site.new }
    ensures later { (name : NameView) → faults_on D.Disk site.old name ≤ faults_on D.Disk site.new name }
    ensures failed { (name : NameView) → result ≡ Stop.Cut (Cut.DiskFault name) → Rose (faults_on D.Disk site.old name) (faults_on D.Disk site.new name) }
    ensures taken { IsTrue S.is_modelled → TakesFront (S.left source.old) (S.left source.new) }
    ensures source_later { S.faults source.old ≤ S.faults source.new }
    ensures read_fault { result ≡ Stop.Cut Cut.ReadFault → Rose (S.faults source.old) (S.faults source.new) }
{
    let stop = take_lines(alloc, site, head, era, work, source, moment);
    if !stop.leaves_batch() {
        return stop;
    }
    append_last(alloc, site, head, era, work, stop)
}
