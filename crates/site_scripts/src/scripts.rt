//! A script of transactions extends the log of an open site.
ghost use Rattle.std.specs.Prelude.{◌≡◌, ◌+◌, ◌-◌, ◌<◌, ◌≤◌, ◌^◌, [], ℕ, length, IsTrue, IfOk, IfErr, OnOk, IsErrOf, false};
ghost use Rattle.script_lines.specs.Cutting.{TakesFront};
ghost use Rattle.site_core.specs.Disks.{MayUseAll, faults_on};
ghost use Rattle.site_core.specs.Layers.{layers};
ghost use Rattle.site_core.specs.Made.{IsMadeSite};
ghost use Rattle.site_core.specs.Opened.{IsOpenSite};
ghost use Rattle.site_disk.specs.Causes.{Rose};
ghost use Rattle.site_headers.specs.Heads.{IsHead};
ghost use Rattle.site_headers.specs.Views.{head_of};
ghost use Rattle.site_layouts.specs.Stages.{HeldSite, StandsFor, site_stage};
ghost use Rattle.site_lanes.specs.Lanes.{SameFrom};
ghost use Rattle.site_model.specs.declared.disk_name.DiskName.{DiskName as NameView};
ghost use Rattle.site_runs.specs.Scripts.{script_course, run_script as script_run};
ghost use Rattle.walks.specs.Courses.{Does};
ghost use Rattle.log_files.specs.Files.{LogFiles, end_of};
ghost use Rattle.logical_log.specs.Rings.{IsOpen, TellsOf};
ghost use Rattle.site_scripts.specs.Extending.{IsExtended, MayRun};
ghost use Rattle.site_scripts.specs.Outcomes.{fault_of_run, is_cut_short, report_of, stop_fault};

use crate::outcomes::{Cut, Extended, ScriptEnd, Stop};
use crate::running::run_lines;
use crate::work::{Counts, begin_work};
use logical_log::LogRing;
use site_core::Site;
use site_disk::{Disk, Era, Source};
use site_headers::SiteHead;
use std::alloc::Global;
use txn_table::Open;

/// What a run comes to that stopped so.
fn report<D: Disk>(stop: Stop, counts: Counts, log: &LogRing<D>) -> Result<Extended, Cut>
    requires opened { is_cut_short stop ≡ false → IsOpen log.now }
    ensures told { (files : LogFiles) → TellsOf files log.now → result ≡ report_of stop counts.lines counts.commits (end_of files) }
    ensures fault { fault_of_run result ≡ stop_fault stop }
    ensures cut { IfErr result (λ cut. stop ≡ Stop.Cut cut) }
    ensures at_end { IfOk result (λ told. told.ending ≡ ScriptEnd.Done → stop ≡ Stop.Done) }
    ensures opened { OnOk result (is_cut_short stop ≡ false) }
{
    let ending = match stop {
        Stop::Done => ScriptEnd::Done,
        Stop::Fault { line, why } => ScriptEnd::Fault { line, why },
        Stop::Full(why) => ScriptEnd::Full(why),
        Stop::Cut(cut) => return Err(cut),
    };
    Ok(Extended {
        lines: counts.lines,
        commits: counts.commits,
        end: log.end(),
        ending,
    })
}

/// Extends the log of an open site by what a script says, behind a log with these open transactions. Each batch is appended
/// before anything else of the script is read.
pub fn run_script<D: Disk, S: Source>(
    alloc: Global,
    site: &mut Site<D>,
    head: &SiteHead,
    era: &mut Era,
    table: Open,
    source: &mut S,
    moment: u64,
) -> Result<Extended, Cut>
    requires head { IsHead (head_of head.now) }
    requires may { MayUseAll D.Disk era.old site.old }
    requires number { era.old.number < 2 ^ 64 - 2 ^ 32 }
    requires opened { IsOpenSite (length head.now.spaces.items) site.old }
    requires moment { moment ≤ 2 ^ 48 }

    // From each fit site for which the values stand, and over which the script may run, it does its course.
    ensures call { IsTrue D.is_modelled → IsTrue S.is_modelled → (opened : ℕ) (at : HeldSite) → 3 ≤ opened → StandsFor (layers D.Disk) opened era.old.number site.old at
        → MayRun (head_of head.now) table at.site
        → Does (site_stage (layers D.Disk)) opened era.old.number era.new.number site.old site.new at (script_course moment (S.left source.old) at.site) (fault_of_run result) }
    ensures told { IsTrue D.is_modelled → IsTrue S.is_modelled → (opened : ℕ) (at : HeldSite) → 3 ≤ opened → StandsFor (layers D.Disk) opened era.old.number site.old at
        → MayRun (head_of head.now) table at.site
        → IfOk result (IsExtended at.site (script_run moment (S.left source.old) at.site) (S.left source.new)) }
    ensures to_end { IsTrue S.is_modelled → IfOk result (λ told. told.ending ≡ ScriptEnd.Done → S.left source.new ≡ []) }
    ensures opened { OnOk result (IsOpenSite (length head.now.spaces.items) site.new) }

    // When it is cut short.
    ensures read_fault { IsErrOf result Cut.ReadFault → Rose (S.faults source.old) (S.faults source.new) }
    ensures disk_fault { (name : NameView) → IsErrOf result (Cut.DiskFault name) → Rose (faults_on D.Disk site.old name) (faults_on D.Disk site.new name) }
    ensures later { (name : NameView) → faults_on D.Disk site.old name ≤ faults_on D.Disk site.new name }
    ensures source_later { S.faults source.old ≤ S.faults source.new }

    ensures taken { IsTrue S.is_modelled → TakesFront (S.left source.old) (S.left source.new) }
    // Beyond the log and the lanes of the spaces nothing is another.
    ensures store { site.new.store ≡ site.old.store }
    ensures boot { site.new.boot ≡ site.old.boot }
    ensures beyond { SameFrom (length head.now.spaces.items) site.old.lanes.items site.new.lanes.items }
    ensures made { IsMadeSite site.old → IsMadeSite site.new }
    // At most 16,777,218 batches, of at most three eras each.
    ensures era { era.new.number ≤ era.old.number + 50331654 }
    ensures era_later { era.old.number ≤ era.new.number }
    ensures key { era.new.key ≡ era.old.key }
    ensures may { MayUseAll D.Disk era.new site.new }
{
    let time = site.log.last_time();
    let mut work = begin_work(alloc, table, time);
    let stop = run_lines(alloc, site, head, era, &mut work, source, moment);
    report(stop, work.counts, &site.log)
}
