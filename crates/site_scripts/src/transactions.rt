//! The lines of a script are collected into batches, and each batch is appended at once.
ghost use Rattle.std.specs.Prelude.{◌≡◌, ◌+◌, ◌-◌, ◌<◌, ◌≤◌, ◌^◌, ◌++◌, [], List, length, IsTrue, false, Some, IsSome, IfSome, IfNone};
ghost use Rattle.log_files.specs.declared.room.LogFull.{LogFull as FullView};
ghost use Rattle.log_history.specs.History.{History};
ghost use Rattle.log_record.specs.Entry.{history_of};
ghost use Rattle.onbar_grammar.specs.Script.{Raw};
ghost use Rattle.script_lines.specs.Cutting.{TakesFront};
ghost use Rattle.script_steps.specs.Collecting.{IsBounded};
ghost use Rattle.site_core.specs.Disks.{MayUseAll, faults_on};
ghost use Rattle.site_core.specs.Made.{IsMadeSite};
ghost use Rattle.site_core.specs.Opened.{IsOpenSite};
ghost use Rattle.site_disk.specs.Causes.{Rose};
ghost use Rattle.site_headers.specs.Heads.{IsHead};
ghost use Rattle.site_headers.specs.Views.{head_of};
ghost use Rattle.site_lanes.specs.Lanes.{SameFrom};
ghost use Rattle.site_model.specs.declared.disk_name.DiskName.{DiskName as NameView};
ghost use Rattle.txn_table.specs.Table.{oldest};
ghost use Rattle.site_scripts.specs.Outcomes.{IsOfAppend, is_cut_short};
ghost use Rattle.site_scripts.specs.Stages.{in_use};
ghost use Rattle.site_scripts.specs.Steps.{Appends, TakesStep};

use crate::outcomes::{Cut, Stop, stop_of};
use crate::work::{Work, count_commits};
use script_steps::{Step, take_next_line};
use site_core::Site;
use site_disk::{Disk, Era, Source};
use site_headers::SiteHead;
use std::alloc::Global;

/// Appends what is collected. `None` where that is done: nothing is collected then.
pub fn append_collected<D: Disk>(
    alloc: Global,
    site: &mut Site<D>,
    head: &SiteHead,
    era: &mut Era,
    work: &mut Work,
) -> Option<Stop>
    requires may { MayUseAll D.Disk era.old site.old }
    requires number { era.old.number < 2 ^ 64 - 8 }
    requires opened { IsOpenSite (length head.now.spaces.items) site.old }
    requires some { 0 < length work.old.progress.collected.batch.items }
    requires bounded { IsBounded 32 work.old.progress.collected }
    requires counted { work.old.counts.lines ≤ 2 ^ 40 }
    requires commits { work.old.counts.commits ≤ work.old.counts.lines }

    ensures appends { IsTrue D.is_modelled → (first : History) (left : List Raw) → Appends D.Disk (head_of head.now) first era.old.number era.new.number
        (in_use site.old work.old) (in_use site.new work.new) (history_of work.old.progress.collected.batch.items) left result }
    ensures stops { IfSome result IsOfAppend }
    ensures opened { IfNone result (IsOpenSite (length head.now.spaces.items) site.new) }
    ensures open_still { IfSome result (λ stop. is_cut_short stop ≡ false → IsOpenSite (length head.now.spaces.items) site.new) }

    ensures collected { IfNone result (work.new.progress.collected.batch.items ≡ []) }
    ensures table { work.new.progress.collected.«open» ≡ work.old.progress.collected.«open» }
    ensures time { work.new.progress.collected.time ≡ work.old.progress.collected.time }
    ensures progress { (work.new.progress.lines ≡ work.old.progress.lines) × (work.new.progress.line ≡ work.old.progress.line) }
    ensures bounded { IfNone result (IsBounded 31 work.new.progress.collected) }
    ensures waiting { IsBounded 32 work.new.progress.collected }
    ensures value { IsSome result → work.new ≡ work.old }
    ensures counted { work.new.counts.lines ≤ work.old.counts.lines + 32 }
    ensures commits { work.new.counts.commits ≤ work.new.counts.lines }

    ensures store { site.new.store ≡ site.old.store }
    ensures boot { site.new.boot ≡ site.old.boot }
    ensures beyond { SameFrom (length head.now.spaces.items) site.old.lanes.items site.new.lanes.items }
    ensures made { IsMadeSite site.old → IsMadeSite site.new }
    ensures era { era.new.number ≤ era.old.number + 3 }
    ensures era_later { era.old.number ≤ era.new.number }
    ensures key { era.new.key ≡ era.old.key }
    ensures may { MayUseAll D.Disk era.new site.new }
    ensures later { (name : NameView) → faults_on D.Disk site.old name ≤ faults_on D.Disk site.new name }
    ensures failed { (name : NameView) → result ≡ Some (Stop.Cut (Cut.DiskFault name)) → Rose (faults_on D.Disk site.old name) (faults_on D.Disk site.new name) }
{
    let batch = &work.progress.collected.batch;
    let lines = batch.len() as u64;
    let commits = count_commits(batch);
    match site.append(alloc, era, head, work.low, batch) {
        Ok(()) => {}
        Err(fault) => return Some(stop_of(fault)),
    }
    work.progress.collected.batch.clear();
    work.low = work.progress.collected.open.low();
    work.counts.lines += lines;
    work.counts.commits += commits;
    None
}

/// Takes a line, and appends the batch that it ends. `None` where the run goes on.
pub fn take_step<D: Disk, S: Source>(
    alloc: Global,
    site: &mut Site<D>,
    head: &SiteHead,
    era: &mut Era,
    work: &mut Work,
    source: &mut S,
    moment: u64,
) -> Option<Stop>
    requires head { IsHead (head_of head.now) }
    requires may { MayUseAll D.Disk era.old site.old }
    requires number { era.old.number < 2 ^ 64 - 8 }
    requires opened { IsOpenSite (length head.now.spaces.items) site.old }
    requires moment { moment ≤ 2 ^ 48 }
    requires bounded { IsBounded 31 work.old.progress.collected }
    requires line { work.old.progress.line ≤ work.old.progress.lines.begun }
    requires counted { work.old.counts.lines ≤ 2 ^ 40 }
    requires commits { work.old.counts.commits ≤ work.old.counts.lines }

    ensures stepped { IsTrue D.is_modelled → IsTrue S.is_modelled → (first : History) → TakesStep D.Disk (head_of head.now) first era.old.number era.new.number
        moment (work.old.progress.lines.held ++ S.left source.old) (work.new.progress.lines.held ++ S.left source.new) site.old site.new work.old work.new result }
    ensures at_end { IsTrue S.is_modelled → result ≡ Some Stop.Done → S.left source.new ≡ [] }
    ensures opened { IfNone result (IsOpenSite (length head.now.spaces.items) site.new) }
    ensures open_still { IfSome result (λ stop. is_cut_short stop ≡ false → IsOpenSite (length head.now.spaces.items) site.new) }

    ensures bounded { IfNone result (IsBounded 31 work.new.progress.collected) }
    ensures waiting { IsBounded 32 work.new.progress.collected }
    ensures line { IfNone result ((work.new.progress.line ≤ work.new.progress.lines.begun) × (work.old.progress.lines.begun + 1 ≤ work.new.progress.lines.begun)) }
    ensures script_limit { work.new.progress.lines.begun ≤ 16777216 }
    ensures ahead { length work.new.progress.lines.held ≤ 65536 }
    ensures counted { work.new.counts.lines ≤ work.old.counts.lines + 32 }
    ensures commits { work.new.counts.commits ≤ work.new.counts.lines }

    ensures store { site.new.store ≡ site.old.store }
    ensures boot { site.new.boot ≡ site.old.boot }
    ensures beyond { SameFrom (length head.now.spaces.items) site.old.lanes.items site.new.lanes.items }
    ensures made { IsMadeSite site.old → IsMadeSite site.new }
    ensures era { era.new.number ≤ era.old.number + 3 }
    ensures era_later { era.old.number ≤ era.new.number }
    ensures key { era.new.key ≡ era.old.key }
    ensures may { MayUseAll D.Disk era.new site.new }
    ensures later { (name : NameView) → faults_on D.Disk site.old name ≤ faults_on D.Disk site.new name }
    ensures failed { (name : NameView) → result ≡ Some (Stop.Cut (Cut.DiskFault name)) → Rose (faults_on D.Disk site.old name) (faults_on D.Disk site.new name) }
    ensures taken { IsTrue S.is_modelled → TakesFront (S.left source.old) (S.left source.new) }
    ensures source_later { S.faults source.old ≤ S.faults source.new }
    ensures read_fault { result ≡ Some (Stop.Cut Cut.ReadFault) → Rose (S.faults source.old) (S.faults source.new) }
{
    let end = site.log.end();
    match take_next_line(&mut work.progress, source, &head.spaces, end, moment) {
        Step::More => None,
        Step::Whole => append_collected(alloc, site, head, era, work),
        Step::End => Some(Stop::Done),
        Step::Fault { why } => Some(Stop::Fault {
            line: work.progress.line,
            why,
        }),
        Step::ReadFault => Some(Stop::Cut(Cut::ReadFault)),
        Step::OutOfMemory => Some(Stop::Cut(Cut::OutOfMemory)),
    }
}
